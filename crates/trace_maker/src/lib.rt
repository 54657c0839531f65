//! Makes an image and the trace of its run, as long as is asked for: after one AUIPC a loop of five
//! instructions, whose ADDI has an immediate by choice. Numbers go in; the two texts come out.
//! specs/Rows.antt defines the values of each row, specs/Texts.antt the texts. The instructions are
//! from the Unprivileged ISA's chapter "RV64I Base Integer Instruction Set", the columns from
//! riscv-formal's description of RVFI.
#![tactic(auto)]

mod image;
mod instructions;
pub mod laws;
mod made_row;
mod run;
mod text;
mod trace;

ghost use Rattle.std.specs.Prelude.{◌≡◌, IfOk};
ghost use Rattle.trace_maker.specs.Texts.{made_image, made_trace};

use crate::image::image_text;
use crate::trace::trace_text;
use hart_words::NoMemory;
use std::alloc::Global;

/// The text of the image for a number, of which 11 bits count, and the text of the trace of its
/// first rows from reset, with the header. `Err` is want of memory.
pub fn make(alloc: Global, number: u32, rows: u32) -> Result<(Vec<u8>, Vec<u8>), NoMemory>
    ensures image { IfOk result (λ made. made.0.items ≡ made_image number) }
    ensures trace { IfOk result (λ made. made.1.items ≡ made_trace number rows) }
{
    let image = image_text(alloc, number)?;
    let trace = trace_text(alloc, number, rows)?;
    Ok((image, trace))
}
