//! The judge's one call.

ghost use Rattle.std.specs.Prelude.{◌≡◌, ◌≤◌, ◌<◌, ◌↔◌, ◌⊎◌, Some, None, true, map, string_bytes};
ghost use Rattle.outside_ports.specs.Counts.{Rose};
ghost use Rattle.outside_ports.specs.Ports.{Files};
ghost use Rattle.judge_words.specs.Job.{job_of};
ghost use Rattle.judge_run.specs.Answer.{answer, is_made};
ghost use Rattle.judge_run.specs.Ends.{Ends, HasStateReadBack, IsAnswer, moment_of};

use crate::jobs::run;
use outside_ports::{Gate, Shelf, Sink};
use std::alloc::Global;
use std::thread::Threads;

/// Judges the trace that the words name over the image that they name, writes one line of text to
/// `out`, or the text of the state after a trace that agrees, and gives the status: 0 the trace
/// agrees, 1 it differs, 2 the words are refused, 3 the image is, 4 the trace is, 5 a read or a
/// write failed, 6 memory was refused.
///
/// The first word is the program's name and is not looked at. Where there are several workers, each
/// passes `gate` before and after a segment. A single one judges each segment from the state before
/// it, opens no board and passes no gate.
pub fn judge<R, H: Shelf, O: Sink, G: Gate>(
    rt: &R,
    alloc: Global,
    words: &Vec<String>,
    shelf: &mut H,
    out: &mut O,
    gate: &G,
) -> u8
where
    R: Threads + Sync,
    // Where the files return what they hold and no fault rises, the bytes written and the status
    // are those of one reference hart stepped from reset, or from the saved state that the image
    // is, over the rows in order and compared at each; or the status is 6 and nothing is written.
    ensures headline { (files : Files) → H.known_files shelf.old ≡ Some files
        → ¬ Rose (H.faults shelf.old) (H.faults shelf.new)
        → ¬ Rose (O.faults out.old) (O.faults out.new)
        → IsAnswer (answer (map string_bytes words.now.items) files) result
        (O.held out.old) (O.held out.new)
        ⊎ ((result ≡ 6) × (O.held out.new ≡ O.held out.old)) }
    // Whatever the outside does, the run ends in one of four ways.
    ensures ends { Ends (H.known_files shelf.old) (map string_bytes words.now.items)
        (moment_of H.faults H.misses O.held O.faults shelf.old out.old)
        (moment_of H.faults H.misses O.held O.faults shelf.new out.new)
        result }
    // A count that is greater shows in the status, and the status shows a count that rose.
    ensures counted { (H.faults shelf.old < H.faults shelf.new)
        ⊎ (O.faults out.old < O.faults out.new) → result ≡ 5 }
    ensures fault { result ≡ 5 → Rose (H.faults shelf.old) (H.faults shelf.new)
        ⊎ Rose (O.faults out.old) (O.faults out.new) }
    // What is made is judged without the shelf: for every one the line is that of the answer.
    ensures made { is_made (map string_bytes words.now.items) ≡ true
        → (H.faults shelf.new ≡ H.faults shelf.old) × (H.misses shelf.new ≡ H.misses shelf.old) }
    ensures made_answer { is_made (map string_bytes words.now.items) ≡ true → (files : Files)
        → ¬ Rose (O.faults out.old) (O.faults out.new)
        → IsAnswer (answer (map string_bytes words.now.items) files) result
        (O.held out.old) (O.held out.new)
        ⊎ ((result ≡ 6) × (O.held out.new ≡ O.held out.old)) }
    ensures misses { H.misses shelf.old < H.misses shelf.new
        → (files : Files) × (H.known_files shelf.old ≡ Some files)
        × (answer (map string_bytes words.now.items) files ≡ None) }
    // A state that was written is read again as that state.
    ensures back { (files : Files) → H.known_files shelf.old ≡ Some files → result ≤ 4
        → HasStateReadBack (answer (map string_bytes words.now.items) files) }
    // For every shelf the words alone decide whether they are refused.
    ensures words { result ≤ 4 → (result ≡ 2) ↔ (job_of (map string_bytes words.now.items) ≡ None) }
    ensures out_of_memory { result ≡ 6 → O.held out.new ≡ O.held out.old }
    // The shelf tells the same files afterwards, so that runs can follow one another.
    ensures known_files { H.known_files shelf.new ≡ H.known_files shelf.old }
    ensures range { result ≤ 6 }
{
    run(rt, alloc, words, shelf, out, gate)
}
