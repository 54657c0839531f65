//! The trace: a header, and a line for each row.

ghost use Rattle.std.specs.Prelude.{◌≡◌, ◌≤◌, ◌++◌, IfOk, OnOk, codes, decimal, length};
ghost use Rattle.std.specs.Int.{w8, w32, w64};
ghost use Rattle.hex.specs.Hex.{encode_lower};
ghost use Rattle.trace_maker.specs.Texts.{made_trace, hexadecimal, row_text};

use crate::made_row::MadeRow;
use crate::run::Run;
use crate::text::Text;
use hart_words::NoMemory;
use std::alloc::Global;

/// The names of the columns.
const HEADER: &[u8] = b"order,insn,trap,pc_rdata,pc_wdata,rd_addr,rd_wdata,\
    mem_addr,mem_rmask,mem_wmask,mem_rdata,mem_wdata,mem_paddr\n";
/// No line is longer.
const LINE_ROOM: usize = 170;

/// The text of the trace of the first rows for a number.
#[tactic(auto, unfolding(crate::specs::Texts::made_trace))]
pub fn trace_text(alloc: Global, number: u32, rows: u32) -> Result<Vec<u8>, NoMemory>
    ensures { IfOk result (λ text. text.items ≡ made_trace number rows) }
{
    let rows = u64::from(rows);
    let mut text = Text::with_room(alloc, LINE_ROOM * (rows as usize + 1))?;
    text.put(HEADER)?;
    let mut run = Run::at_reset(number);
    for order in 0..rows {
        let row = run.step(order);
        put_row(&mut text, &row)?;
    }
    Ok(text.into_bytes())
}

/// Appends the line of a row.
fn put_row(text: &mut Text, row: &MadeRow) -> Result<(), NoMemory>
    ensures { OnOk result (text.new ≡ text.old ++ row_text row.now) }
{
    text.put_decimal(row.order)?;
    put_word_field(text, row.insn)?;
    put_decimal_field(text, row.trap)?;
    put_doubleword_field(text, row.pc_rdata)?;
    put_doubleword_field(text, row.pc_wdata)?;
    put_decimal_field(text, row.rd_addr)?;
    put_doubleword_field(text, row.rd_wdata)?;
    put_doubleword_field(text, row.mem_addr)?;
    put_byte_field(text, row.mem_rmask)?;
    put_byte_field(text, row.mem_wmask)?;
    put_doubleword_field(text, row.mem_rdata)?;
    put_doubleword_field(text, row.mem_wdata)?;
    put_doubleword_field(text, row.mem_paddr)?;
    text.put(b"\n")
}

/// Appends a comma and a number in decimal.
fn put_decimal_field(text: &mut Text, number: u8) -> Result<(), NoMemory>
    ensures { OnOk result (text.new ≡ text.old ++ (codes "," ++ decimal number)) }
{
    text.put(b",")?;
    text.put_decimal(u64::from(number))
}

/// Appends a comma and a byte in hexadecimal.
fn put_byte_field(text: &mut Text, number: u8) -> Result<(), NoMemory>
    ensures { OnOk result (text.new ≡ text.old ++ (codes "," ++ hexadecimal w8 number)) }
{
    put_field(text, &number.to_be_bytes())
}

/// Appends a comma and a word of 32 bits in hexadecimal.
fn put_word_field(text: &mut Text, number: u32) -> Result<(), NoMemory>
    ensures { OnOk result (text.new ≡ text.old ++ (codes "," ++ hexadecimal w32 number)) }
{
    put_field(text, &number.to_be_bytes())
}

/// Appends a comma and a word of 64 bits in hexadecimal.
fn put_doubleword_field(text: &mut Text, number: u64) -> Result<(), NoMemory>
    ensures { OnOk result (text.new ≡ text.old ++ (codes "," ++ hexadecimal w64 number)) }
{
    put_field(text, &number.to_be_bytes())
}

/// Appends a comma, `0x` and the digits of bytes, the highest first.
fn put_field(text: &mut Text, bytes: &[u8]) -> Result<(), NoMemory>
    requires { length bytes.now ≤ 8 }
    ensures { OnOk result (text.new ≡ text.old ++ (codes ",0x" ++ encode_lower bytes.now)) }
{
    text.put(b",0x")?;
    text.put_digits(bytes)
}
