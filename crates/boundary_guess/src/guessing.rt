//! Guessing the harts' state between segments.

ghost use Rattle.std.specs.Prelude.{◌≡◌, ◌<◌, IfOk, OnOk, Some, false, length, map, slice_get, true};
ghost use Rattle.std.specs.List.{All};
ghost use Rattle.rvfi_rows.specs.Cells.{shown_in};
ghost use Rattle.rvfi_rows.specs.Readings.{reading_of, readings_in};
ghost use Rattle.rvfi_rows.specs.Rows.{RowReading, rows_of};
ghost use Rattle.rvfi_rows.specs.Segments.{segment_lines};
ghost use Rattle.boundary_guess.specs.Guesses.{SetCanStep, PassesReading, guess_after, guess_after_row, guesses_of, set_state_of};
ghost use Rattle.hart_step.specs.HartSets.{set_after_row};

use hart_step::Harts;
use hart_words::{NoMemory, PhysMem};
use rvfi_rows::{Columns, Reading, Row, Rows, Segment, read_rows};
use std::alloc::Global;

/// For each segment the harts before it: the first is `start`, each other is guessed from the one
/// before it and the rows between. The rows of the last segment are not looked at. Segments that
/// were not read under these columns are read, and not changed.
pub fn guesses<M: PhysMem + Drop>(
    alloc: Global,
    start: &Harts<M>,
    columns: &Columns,
    segments: &[Segment],
) -> Result<Vec<Harts<M>>, NoMemory>
    requires { SetCanStep M.ram start.now }
    ensures guesses { IfOk result (λ guesses. map (set_state_of M.bytes) guesses.items
        ≡ guesses_of (set_state_of M.bytes start.now) columns.now (map segment_lines segments.now)) }
    ensures can_step { IfOk result (λ guesses. All (SetCanStep M.ram) guesses.items) }
{
    let mut guesses = Vec::new(alloc);
    if segments.is_empty() {
        return Ok(guesses);
    }
    let mut harts = start.copy()?;
    let mut row = Row::empty();
    for index in 0..segments.len() - 1 {
        // Copies of a copy share its memory as a whole, so it is a copy that is kept.
        let kept = harts.copy()?;
        harts = kept.copy()?;
        guesses.push(kept)?;
        pass_segment(alloc, &mut harts, columns, &segments[index], &mut row)?;
    }
    guesses.push(harts.copy()?)?;
    Ok(guesses)
}

/// Takes the guess past the rows of a segment; `row` is used for that.
fn pass_segment<M: PhysMem + Drop>(
    alloc: Global,
    harts: &mut Harts<M>,
    columns: &Columns,
    segment: &Segment,
    row: &mut Row,
) -> Result<(), NoMemory>
    requires { SetCanStep M.ram harts.old }
    ensures guess { OnOk result (set_state_of M.bytes harts.new
        ≡ guess_after (set_state_of M.bytes harts.old) (rows_of columns.now segment.now.lines)) }
    ensures can_step { SetCanStep M.ram harts.new }
{
    match segment.rows(columns) {
        Some(rows) => pass_rows(harts, rows, row),
        None => {
            let rows = read_rows(alloc, columns, &segment.lines)?;
            pass_rows(harts, &rows, row)
        }
    }
}

/// Takes the guess past rows; `row` is used for that.
fn pass_rows<M: PhysMem + Drop>(
    harts: &mut Harts<M>,
    rows: &Rows,
    row: &mut Row,
) -> Result<(), NoMemory>
    requires { SetCanStep M.ram harts.old }
    ensures guess { OnOk result (set_state_of M.bytes harts.new
        ≡ guess_after (set_state_of M.bytes harts.old) (readings_in rows.now)) }
    ensures can_step { SetCanStep M.ram harts.new }
{
    for place in 0..rows.len() {
        if !pass_place(harts, rows, place, row)? {
            return Ok(());
        }
    }
    Ok(())
}

/// Takes the guess past the row at a place; `row` is used for that. Of most rows few values are
/// looked at, and only of the others all are put into `row`. Whether the guess goes on after it.
fn pass_place<M: PhysMem + Drop>(
    harts: &mut Harts<M>,
    rows: &Rows,
    place: usize,
    row: &mut Row,
) -> Result<bool, NoMemory>
    requires can { SetCanStep M.ram harts.old }
    requires there { place < length (readings_in rows.now) }
    ensures passes { IfOk result (λ goes_on. (reading : RowReading)
        → Some reading ≡ slice_get (readings_in rows.now) place
        → PassesReading (set_state_of M.bytes harts.old) reading goes_on
        (set_state_of M.bytes harts.new)) }
    ensures can_step { SetCanStep M.ram harts.new }
{
    if take_quiet(harts, rows, place) {
        return Ok(true);
    }
    match rows.get(place, row) {
        None => unreachable!(),
        Some(reading) => pass_reading(harts, reading, row),
    }
}

/// Takes the guess past the row at a place where few looks suffice; else nothing changes. Whether
/// it is so.
fn take_quiet<M: PhysMem + Drop>(harts: &mut Harts<M>, rows: &Rows, place: usize) -> bool
    requires { SetCanStep M.ram harts.old }
    ensures passes { result ≡ true → (reading : RowReading)
        → Some reading ≡ slice_get (readings_in rows.now) place
        → PassesReading (set_state_of M.bytes harts.old) reading true
        (set_state_of M.bytes harts.new) }
    ensures kept { result ≡ false
        → set_state_of M.bytes harts.new ≡ set_state_of M.bytes harts.old }
    ensures can_step { SetCanStep M.ram harts.new }
{
    match rows.kept_row(place) {
        None => false,
        Some(row) => harts.take_quiet(&row),
    }
}

/// Takes the guess past one row, which reads so; `row` shows what it shows where it is valid.
/// Whether the guess goes on after it: it does not after a refused one.
#[tactic(auto, unfolding(crate::specs::Guesses::guess_after))]
fn pass_reading<M: PhysMem + Drop>(
    harts: &mut Harts<M>,
    reading: Reading,
    row: &Row,
) -> Result<bool, NoMemory>
    requires { SetCanStep M.ram harts.old }
    ensures passes { IfOk result (λ goes_on. PassesReading (set_state_of M.bytes harts.old)
        (reading_of reading (shown_in row.now)) goes_on (set_state_of M.bytes harts.new)) }
    ensures can_step { SetCanStep M.ram harts.new }
{
    match reading {
        Reading::Refused(_) => Ok(false),
        Reading::Invalid => Ok(true),
        Reading::Valid => {
            pass_row(harts, row)?;
            Ok(true)
        }
    }
}

/// Takes the guess past a valid row: a plain one as it shows, any other by a step.
#[tactic(auto, unfolding(crate::specs::Guesses::guess_after_row))]
fn pass_row<M: PhysMem + Drop>(harts: &mut Harts<M>, row: &Row) -> Result<(), NoMemory>
    requires { SetCanStep M.ram harts.old }
    ensures guess { OnOk result (set_state_of M.bytes harts.new
        ≡ guess_after_row (set_state_of M.bytes harts.old) (shown_in row.now)) }
    ensures can_step { SetCanStep M.ram harts.new }
{
    if harts.is_plain(row) {
        harts.take_shown(row)
    } else {
        step_past(harts, row)
    }
}

/// Takes the guess past a row by a step. What a step gives is large, and most rows are plain, so
/// it has a place only here.
#[inline(never)]
fn step_past<M: PhysMem + Drop>(harts: &mut Harts<M>, row: &Row) -> Result<(), NoMemory>
    requires { SetCanStep M.ram harts.old }
    ensures guess { OnOk result (set_state_of M.bytes harts.new
        ≡ set_after_row (set_state_of M.bytes harts.old) (shown_in row.now)) }
    ensures can_step { SetCanStep M.ram harts.new }
{
    harts.step(row)?;
    Ok(())
}
