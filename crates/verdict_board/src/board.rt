//! The board.

ghost use Rattle.std.specs.Prelude.{◌≡◌};

use crate::rule::{Cut, Draw, Glue, Learn, Order, Put, See, Setup};
use crate::seat::Seat;
use crate::view::View;
use atomic_table::Table;
use hart_words::NoMemory;
use std::alloc::Global;

/// The board. Its first word counts the numbers drawn, the second is the least segment posted, and
/// the number of segments where none was.
#[derive(Drop)]
pub struct Board {
    table: Table<(), View, Setup, Order, Global>,
    segments: u32,
    ghost two_words: { table.shared.table_id.words ≡ 2 },
    ghost no_slots: { table.shared.table_id.slots ≡ 0 },
    ghost same: { table.shared.key.segments ≡ segments },
}

impl Board {
    ghost use Rattle.std.specs.Prelude.{◌<◌, ◌≤◌, ℕ, IfNone, IfOk, IfSome, [], length, vec_capacity};
    ghost use Rattle.board_core.specs.Bags.{Has, Names};
    ghost use Rattle.board_core.specs.Sound.{IsLeast};
    ghost use Rattle.verdict_board.specs.Views.{DrewBelow, IsExact, IsFresh, IsWhole, cut_first, cut_rest, fresh_view, joined_views, view_after_look, numbers_below};
    ghost use Rattle.verdict_board.specs.Seats.{AreOpened, DrawsNext, IsAt, FindsNone, IsSameSeat, LeavesAll, Posts, view_of};

    /// A board for n segments, and its seats in the order of their numbers.
    pub fn open(alloc: Global, n: u32, seats: u32) -> Result<(Board, Vec<Seat>), NoMemory>
        requires at_least_1 { 1 ≤ seats }
        requires at_most_64 { seats ≤ 64 }
        ensures { IfOk result (λ opened. AreOpened n seats opened.0 opened.1.items) }
    {
        let dealt = Vec::with_capacity(alloc, seats as usize)?;
        let setup = Setup { segments: n, seats };
        let (table, place) = Table::of_words(alloc, &[0, u64::from(n)], &setup)?;
        let board = Board { table, segments: n };
        let all = Seat { place, done: false };
        let dealt = board.deal_all(all, dealt, seats);
        Ok((board, dealt))
    }

    /// Deals a seat of each number from one that stands for all of them.
    fn deal_all(&self, all: Seat, mut dealt: Vec<Seat>, seats: u32) -> Vec<Seat>
        requires at { IsAt self.now all }
        requires fresh { view_of all ≡ fresh_view self.now.segments seats (numbers_below seats) }
        requires at_least_1 { 1 ≤ seats }
        requires none { dealt.items ≡ [] }
        requires room { seats ≤ vec_capacity dealt }
        ensures { AreOpened self.now.segments seats self.now result.items }
    {
        let mut rest = all;
        'dealing: while dealt.len() + 1 < seats as usize {
            let first = self.deal(&mut rest);
            dealt.push_reserved(first);
        }
        dealt.push_reserved(rest);
        dealt
    }

    /// Deals a seat of the first number of one that has done nothing.
    fn deal(&self, rest: &mut Seat) -> Seat
        requires at { IsAt self.now rest.old }
        requires several { 1 < length (view_of rest.old).numbers }
        requires fresh { IsFresh (view_of rest.old) }
        ensures at { IsAt self.now rest.new }
        ensures dealt_at { IsAt self.now result }
        ensures first { view_of result ≡ cut_first (view_of rest.old) }
        ensures rest { view_of rest.new ≡ cut_rest (view_of rest.old) }
    {
        let place = self.table.shared.split_seat::<Cut>(&mut rest.place);
        Seat { place, done: false }
    }

    /// Draws the next number: the segment of that number, or none where no segment is left. A seat
    /// that has found none left draws no more.
    pub fn claim(&self, seat: &mut Seat) -> Option<u32>
        requires at { IsAt self.now seat.old }
        ensures at { IsAt self.now seat.new }
        ensures drawn { IfSome result (λ segment. (segment < self.now.segments)
            × DrawsNext segment (view_of seat.old) (view_of seat.new)) }
        ensures none { IfNone result (FindsNone (view_of seat.old) (view_of seat.new)) }
        ensures same { IsSameSeat (view_of seat.old) (view_of seat.new) }
        ensures exact { IsWhole (view_of seat.new) → IsExact (view_of seat.new) }
    {
        if seat.done {
            return None;
        }
        let number = self.table.shared.fetch_add::<Draw>(&mut seat.place, 0, 1);
        if number < u64::from(self.segments) {
            Some(number as u32)
        } else {
            seat.done = true;
            None
        }
    }

    /// Looks at the least segment that was posted, or the number of segments where none was.
    pub fn look(&self, seat: &mut Seat) -> u32
        requires at { IsAt self.now seat.old }
        ensures at { IsAt self.now seat.new }
        ensures same { IsSameSeat (view_of seat.old) (view_of seat.new) }
        ensures looked { view_of seat.new ≡ view_after_look (view_of seat.old) result }
        ensures within { result ≤ self.now.segments }
        ensures falls { result ≤ (view_of seat.old).least }
        ensures posts { (post : ℕ × ℕ) → Has (view_of seat.old).posts post → result ≤ post.1 }
        ensures exact { IsWhole (view_of seat.new) → IsExact (view_of seat.new) }
    {
        self.table.shared.load::<See>(&mut seat.place, 1) as u32
    }

    /// Posts a segment that this seat drew. The seat has then seen the least post as it became: at
    /// most the segment, and at most what it had seen.
    pub fn post(&self, seat: &mut Seat, segment: u32)
        requires at { IsAt self.now seat.old }
        requires within { segment < self.now.segments }
        requires drawn { Names (view_of seat.old).draws segment }
        ensures at { IsAt self.now seat.new }
        ensures same { IsSameSeat (view_of seat.old) (view_of seat.new) }
        ensures posted { Posts segment (view_of seat.old) (view_of seat.new) }
        ensures within { (view_of seat.new).least ≤ segment }
        ensures falls { (view_of seat.new).least ≤ (view_of seat.old).least }
        ensures exact { IsWhole (view_of seat.new) → IsExact (view_of seat.new) }
    {
        self.table
            .shared
            .fetch_min::<Put>(&mut seat.place, 1, u64::from(segment));
    }

    /// Joins another seat to this one.
    pub fn join(&self, seat: &mut Seat, other: Seat)
        requires at { IsAt self.now seat.old }
        requires other { IsAt self.now other }
        ensures at { IsAt self.now seat.new }
        ensures joined { view_of seat.new ≡ joined_views (view_of seat.old) (view_of other) }
        ensures exact { IsWhole (view_of seat.new) → IsExact (view_of seat.new) }
    {
        let Seat { place, done } = other;
        self.table.shared.join_seat::<Glue>(&mut seat.place, place);
        seat.done = seat.done || done;
        self.table.shared.load::<Learn>(&mut seat.place, 0);
    }

    /// Closes the board by the seat that stands for all of its seats: how many numbers were drawn,
    /// and the least segment that was posted, or the number of segments where none was.
    pub fn close(self, seat: Seat) -> (u64, u32)
        requires at { IsAt self seat }
        requires whole { IsWhole (view_of seat) }
        ensures drawn { DrewBelow result.0 (view_of seat).draws }
        ensures least { IsLeast self.segments (view_of seat).posts result.1 }
        ensures leaves { LeavesAll self.segments (view_of seat) result.0 result.1 }
    {
        let Board { table, segments: _ } = self;
        let Seat { place, done: _ } = seat;
        let closed = table.close_with(place);
        let drawn = closed.word(0);
        let least = closed.word(1);
        closed.free();
        (drawn, least as u32)
    }
}
