//! Settling the segments of a part, while those after it are read and taken.

ghost use Rattle.std.specs.Prelude.{◌≡◌, ◌≤◌, ◌<◌, ◌+◌, ◌^◌, [], ◌∷◌, IfOk, IfSome, IsSome, length, string_bytes};
ghost use Rattle.std.specs.List.{flat_map};
ghost use Rattle.hart_step.specs.HartSets.{SetCanStep, set_state_of};
ghost use Rattle.judge_words.specs.Job.{IsLawful, job_view};
ghost use Rattle.outside_ports.specs.Faults.{CountsFault, CountsMiss};
ghost use Rattle.outside_ports.specs.Ports.{IsThere, file_of};
ghost use Rattle.rvfi_rows.specs.Segments.{line_count_of, segment_lines};
ghost use Rattle.trace_lines.specs.Errors.{is_read_fault};
ghost use Rattle.judge_run.specs.Settling.{IsReadPart, IsSettled};
ghost use Rattle.judge_run.specs.Taking.{TakesSegments, TakesAfterWhereKnown, taken_lines};
ghost use Rattle.judge_run.specs.Parts.{CanContinueWith, HoldsAfter, segments_ahead};
ghost use Rattle.judge_run.specs.PartHistories.{CanSettle, IsSettledFrom, part_history};
ghost use Rattle.row_origin.specs.Histories.{Grows, IsKept};

use crate::progress::{Lookahead, Remaining};
use crate::rounds::settle_in_rounds;
use crate::taken::{Asked, Taken, take_after};
use crate::workers::Workers;
use hart_step::Harts;
use hart_words::{NoMemory, PhysMem};
use judge_words::Job;
use outside_ports::{Gate, Shelf};
use row_origin::{History, follow};
use rvfi_rows::{Columns, RowCounts, Segment, read_segments};
use segment_judge::{Judged, judge_from};
use segment_workers::Steps;
use std::alloc::Global;
use std::marker::Brand;
use std::sync::ledger::{Blank, Ledger};
use std::thread::{Threads, join_mut, yield_now};
use trace_lines::{LineError, LineTaker};
use verdict_join::Joined;

/// How many segments a part has at the default window.
const SEGMENTS_OF_A_PART: usize = 9;

/// What a part comes to, and what was taken ahead of it.
#[derive(Drop)]
pub(crate) struct Settled<M> {
    pub joined: Joined<M>,
    pub lookahead: Lookahead,
    pub taker: LineTaker,
}

/// What is known where a part begins: the harts there, how many rows there are before it, and what
/// these did, where it is asked for.
#[derive(Drop)]
pub(crate) struct Reached<M> {
    pub harts: Harts<M>,
    pub counts: RowCounts,
    pub history: Option<History>,
}

/// Settles the part that was read, reads the segments after it, and takes the lines of a further
/// part. Several workers do so at once: one thread alone takes lines, guesses and joins, and the
/// others read rows meanwhile.
#[tactic(auto, using(rvfi_rows::proofs::PortRows::rows_few))]
pub fn settle_and_take<R, G: Gate, H: Shelf, M: PhysMem + Drop + Send + Sync>(
    workers: &Workers<R, G>,
    job: &Job,
    columns: &Columns,
    remaining: Remaining<M>,
    shelf: &mut H,
) -> Result<Settled<M>, LineError>
where
    R: Threads + Sync,
    requires lawful { IsLawful (job_view job.now) }
    requires going { CanContinueWith job.now.sharing.window M.ram remaining }
    requires file_exists { IsThere (H.known_files shelf.old)
        (string_bytes remaining.progress.taker.name) }
    ensures known_files { H.known_files shelf.new ≡ H.known_files shelf.old }
    ensures settled { IfOk result (λ settled. IsSettled M.bytes M.ram columns.now
        remaining.lookahead.part.items (set_state_of M.bytes remaining.progress.harts) settled.joined) }
    ensures history { IfOk result (λ settled. Grows workers.now.origin
        (part_history M.bytes columns.now remaining.lookahead.part.items remaining.progress.harts)
        remaining.progress.counts.rows remaining.progress.history settled.joined.history) }
    ensures read { IfOk result
        (λ settled. IsReadPart columns.now remaining.lookahead.next.items settled.lookahead.part) }
    ensures takes { let file = file_of (H.known_files shelf.old)
        (string_bytes remaining.progress.taker.name) in
        IfOk result (λ settled.
        TakesAfterWhereKnown file remaining.lookahead.ending remaining.progress.taker
        (flat_map segment_lines settled.lookahead.next.items) settled.lookahead.ending
        settled.taker) }
    ensures held { IfOk result (λ settled. HoldsAfter job.now.sharing.window
        remaining.progress.taker remaining.lookahead settled.taker settled.lookahead) }
    ensures faults { CountsFault is_read_fault result (H.faults shelf.old) (H.faults shelf.new) }
    ensures misses { CountsMiss is_read_fault result (H.known_files shelf.old)
        (string_bytes remaining.progress.taker.name) (H.misses shelf.old) (H.misses shelf.new) }
{
    let Remaining {
        progress,
        lookahead,
    } = remaining;
    let asked = asked_after(workers, job, &lookahead);
    let is_unsure = lookahead.is_unsure;
    let Lookahead { part, next, .. } = lookahead;
    let current: &[Segment] = &part;
    let mut unread = Some(next);
    let mut start = Some(Reached {
        harts: progress.harts,
        counts: progress.counts,
        history: progress.history,
    });
    let mut from = Some(progress.taker);
    let mut read = || -> Result<Vec<Segment>, NoMemory>
        requires { IsSome unread }
    { read_from(workers, columns, &mut unread) };
    let mut settle = || -> Result<Joined<M>, NoMemory>
        requires { IsSome start × (IfSome start (CanSettle M.ram columns.now current.now)
            × ((length current.now < 2 ^ 32) × (line_count_of current.now < 2 ^ 60))) }
    { settle_from(workers, columns, current, &mut start) };
    let mut take = || take_from(workers, job, asked, &mut from, shelf);
    let (read, settled, taken) = all_at_once(workers, &mut read, &mut settle, &mut take);
    let (taken, taker) = match taken {
        Ok(taken) => taken,
        Err(error) => return Err(error),
    };
    let Ok(joined) = settled else {
        return Err(LineError::NoMemory);
    };
    let Ok(read) = read else {
        return Err(LineError::NoMemory);
    };
    let is_unsure = 0 < joined.rejudged || is_unsure && part.is_empty();
    let Taken { segments, ending } = taken.in_memory_of(part);
    let lookahead = Lookahead {
        part: read,
        next: segments,
        ending,
        is_unsure,
    };
    Ok(Settled {
        joined,
        lookahead,
        taker,
    })
}

/// How many segments are taken after those that are held: a part, or as many as the window has room
/// for. A part has nine, or an eighth of the window where that is more, and at most a third of it,
/// whatever the number of workers, so that what is held does not grow with them. Where guesses may
/// be wrong it has one a worker, or three where these are fewer: enough for wrong ones to show, and
/// no more, since those after the first wrong one are made in vain. For a single worker it has one:
/// the state before it is known, so that none is guessed.
fn asked_after<R, G>(workers: &Workers<R, G>, job: &Job, lookahead: &Lookahead) -> Asked
    requires lawful { IsLawful (job_view job.now) }
    requires within_window { segments_ahead lookahead.now ≤ job.now.sharing.window }
    ensures within_window { segments_ahead lookahead.now + result.segments
        ≤ job.now.sharing.window }
    ensures asks_one { segments_ahead lookahead.now ≡ 0 → 0 < result.segments }
    ensures ending { result.ending ≡ lookahead.now.ending }
{
    let window = job.sharing.window;
    let whole = (window / 8).max(SEGMENTS_OF_A_PART).min((window + 2) / 3);
    let part = if workers.count == 1 {
        1
    } else if lookahead.is_unsure {
        whole.min((workers.count as usize).max(3))
    } else {
        whole
    };
    let room = window
        .saturating_sub(lookahead.part.len())
        .saturating_sub(lookahead.next.len());
    Asked {
        segments: part.min(room),
        ending: lookahead.ending,
    }
}

/// Calls all three, the first two in threads of their own where there are several workers. The
/// second begins soonest: a thread that is made first often waits on the processor of its maker.
fn all_at_once<R: Threads + Sync, G, E, F, T, A: Send, B: Send, C>(
    workers: &Workers<R, G>,
    first: &mut E,
    second: &mut F,
    third: &mut T,
) -> (A, B, C)
where
    E: FnMut() -> A + Send,
    F: FnMut() -> B + Send,
    T: FnMut() -> C,
    requires { E.pre first.old × (F.pre second.old × T.pre third.old) }
    ensures first { E.step first.old result.0 first.new }
    ensures second { F.step second.old result.1 second.new }
    ensures third { T.step third.old result.2 third.new }
{
    if workers.count == 1 {
        return (first(), second(), third());
    }
    let mut others = || -> (B, C)
        requires { F.pre second.now × T.pre third.now }
        ensures second { F.step second.entry.now result.0 second.exit.now }
        ensures third { T.step third.entry.now result.1 third.exit.now }
    { join_mut(workers.rt, second, third) };
    let (a, (b, c)) = join_mut(workers.rt, first, &mut others);
    (a, b, c)
}

/// Settles a part from what was reached before it, which is taken out of its place.
fn settle_from<R, G: Gate, M: PhysMem + Drop + Send + Sync>(
    workers: &Workers<R, G>,
    columns: &Columns,
    part: &[Segment],
    start: &mut Option<Reached<M>>,
) -> Result<Joined<M>, NoMemory>
where
    R: Threads + Sync,
    requires is_some { IsSome start.old }
    requires can_settle { IfSome start.old (CanSettle M.ram columns.now part.now) }
    requires below_2_to_32 { length part.now < 2 ^ 32 }
    requires lines { line_count_of part.now < 2 ^ 60 }
    ensures { IfSome start.old (λ reached. IfOk result
        (IsSettledFrom workers.now.origin M.bytes M.ram columns.now part.now reached)) }
{
    match start.take() {
        None => unreachable!(),
        Some(reached) => settle_part(workers, reached, columns, part),
    }
}

/// Reads the segments of a part, which are taken out of their place.
fn read_from<R: Threads + Sync, G: Gate>(
    workers: &Workers<R, G>,
    columns: &Columns,
    unread: &mut Option<Vec<Segment>>,
) -> Result<Vec<Segment>, NoMemory>
    requires { IsSome unread.old }
    ensures { IfSome unread.old
        (λ part. IfOk result (IsReadPart columns.now part.items)) }
{
    match unread.take() {
        None => unreachable!(),
        Some(part) => read_part(workers, columns, part),
    }
}

/// Takes segments by a taker, which is taken out of its place. Threads that were made before go
/// first: the one that was made first mostly waits on the processor of its maker.
fn take_from<R, G, H: Shelf>(
    workers: &Workers<R, G>,
    job: &Job,
    asked: Asked,
    from: &mut Option<LineTaker>,
    shelf: &mut H,
) -> Result<(Taken, LineTaker), LineError>
    requires lawful { IsLawful (job_view job.now) }
    requires is_some { IsSome from.old }
    requires file_exists { IfSome from.old
        (λ taker. IsThere (H.known_files shelf.old) (string_bytes taker.name)) }
    ensures known_files { H.known_files shelf.new ≡ H.known_files shelf.old }
    ensures takes { IfSome from.old (λ taker.
        let file = file_of (H.known_files shelf.old) (string_bytes taker.name) in
        IfOk result (λ taken. TakesAfterWhereKnown file asked.ending taker (taken_lines taken.0)
        taken.0.ending taken.1)) }
    ensures taken { IfSome from.old (λ taker. IfOk result
        (λ taken. TakesSegments asked taker taken.0.segments.items taken.0.ending taken.1)) }
    ensures faults { CountsFault is_read_fault result (H.faults shelf.old) (H.faults shelf.new) }
    ensures misses { IfSome from.old (λ taker.
        CountsMiss is_read_fault result (H.known_files shelf.old) (string_bytes taker.name)
        (H.misses shelf.old) (H.misses shelf.new)) }
{
    if workers.count != 1 {
        yield_now();
    }
    match from.take() {
        None => unreachable!(),
        Some(taker) => take_after(workers.alloc, job, asked, taker, shelf),
    }
}

/// Reads the segments of a part, in a quarter fewer threads than there are workers: another part is
/// settled meanwhile, and a thread more would mostly wait for a processor.
fn read_part<R: Threads + Sync, G: Gate>(
    workers: &Workers<R, G>,
    columns: &Columns,
    part: Vec<Segment>,
) -> Result<Vec<Segment>, NoMemory>
    ensures { IfOk result (IsReadPart columns.now part.items) }
{
    let count = (workers.count - workers.count / 4) as usize;
    let mut part = part;
    read_segments(workers.rt, workers.alloc, count, columns, &mut part)?;
    Ok(part)
}

/// Settles a part from what was reached before it.
fn settle_part<R, G: Gate, M: PhysMem + Drop + Send + Sync>(
    workers: &Workers<R, G>,
    reached: Reached<M>,
    columns: &Columns,
    part: &[Segment],
) -> Result<Joined<M>, NoMemory>
where
    R: Threads + Sync,
    requires can_settle { CanSettle M.ram columns.now part.now reached }
    requires below_2_to_32 { length part.now < 2 ^ 32 }
    requires lines { line_count_of part.now < 2 ^ 60 }
    ensures { IfOk result
        (IsSettledFrom workers.now.origin M.bytes M.ram columns.now part.now reached) }
{
    let Reached {
        harts,
        counts,
        mut history,
    } = reached;
    let mut joined = settle_by_workers(workers, harts, columns, part)?;
    follow(&mut history, &joined.history, counts.rows)?;
    joined.history = history;
    Ok(joined)
}

/// Settles a part from the harts before it by these workers. Nobody asks how often they were sent
/// out.
fn settle_by_workers<R, G: Gate, M: PhysMem + Drop + Send + Sync>(
    workers: &Workers<R, G>,
    start: Harts<M>,
    columns: &Columns,
    part: &[Segment],
) -> Result<Joined<M>, NoMemory>
where
    R: Threads + Sync,
    requires can_step { SetCanStep M.ram start }
    requires below_2_to_32 { length part.now < 2 ^ 32 }
    requires lines { line_count_of part.now < 2 ^ 60 }
    ensures settled { IfOk result
        (IsSettled M.bytes M.ram columns.now part.now (set_state_of M.bytes start)) }
    ensures history { IfOk result (λ joined. IsKept workers.now.origin
        (part_history M.bytes columns.now part.now start) joined.history) }
{
    match part {
        [segment] if workers.count == 1 => judge_alone(workers, start, columns, segment),
        _ => {
            let blank = Blank::new(1);
            settle_from_blank::<R, G, M, Brand>(workers, start, columns, part, blank)
        }
    }
}

/// Judges the one segment of a part from the harts before it, for a single worker: these are known,
/// so that there is no guess to make, to meet or to move a verdict from.
fn judge_alone<R, G: Gate, M: PhysMem + Drop>(
    workers: &Workers<R, G>,
    start: Harts<M>,
    columns: &Columns,
    segment: &Segment,
) -> Result<Joined<M>, NoMemory>
    requires can_step { SetCanStep M.ram start }
    ensures settled { IfOk result (IsSettled M.bytes M.ram columns.now
        (segment.now ∷ []) (set_state_of M.bytes start)) }
    ensures history { IfOk result (λ joined. IsKept workers.now.origin
        (part_history M.bytes columns.now (segment.now ∷ []) start) joined.history) }
{
    let Judged {
        verdict,
        end,
        history,
        ..
    } = judge_from(workers.alloc, start, columns, segment, workers.origin)?;
    Ok(Joined {
        verdict,
        end,
        rejudged: 0,
        history,
    })
}

/// Settles a part from the harts before it, with rounds counted from a blank.
fn settle_from_blank<R, G: Gate, M: PhysMem + Drop + Send + Sync, L: Ledger>(
    workers: &Workers<R, G>,
    start: Harts<M>,
    columns: &Columns,
    part: &[Segment],
    blank: Blank,
) -> Result<Joined<M>, NoMemory>
where
    R: Threads + Sync,
    requires can_step { SetCanStep M.ram start }
    requires below_2_to_32 { length part.now < 2 ^ 32 }
    requires lines { line_count_of part.now < 2 ^ 60 }
    requires name { blank.name ≡ L.name }
    requires parts { blank.parts ≡ L.parts }
    requires nonempty { 0 < blank.parts }
    ensures settled { IfOk result
        (IsSettled M.bytes M.ram columns.now part.now (set_state_of M.bytes start)) }
    ensures history { IfOk result (λ joined. IsKept workers.now.origin
        (part_history M.bytes columns.now part.now start) joined.history) }
{
    let mut steps = Steps::<L>::new(blank);
    settle_in_rounds(workers, start, columns, part, &mut steps)
}
