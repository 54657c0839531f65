//! The machine's state.

ghost use Rattle.std.specs.Prelude.{◌≡◌, ◌↔◌, OnErr, OnOk, IfOk};
ghost use Rattle.board_core.specs.Machine.{IsSilent, machine_after_event, answer_of, has_drawn, has_none_left, machine_at_start};
ghost use Rattle.board_core.specs.declared.event.Answer.TheVariants.{Nothing};
ghost use Rattle.board_core.specs.declared.event.Event.TheVariants.{Claim, Post};

use crate::event::{Answer, Event};
use hart_words::NoMemory;
use std::alloc::Global;
use std::marker::Model;

/// The machine. Contracts see it as the record of its parts.
#[derive(Drop)]
pub struct CoreState {
    segments: u32,
    /// The number that is drawn next. Each that was drawn is held, so it never comes near 2^64.
    next: u64,
    least: u32,
    /// Pairs of a worker and the number that it drew, in order.
    draws: Vec<(u32, u64)>,
    /// Pairs of a worker and the segment that it posted, in order.
    posts: Vec<(u32, u32)>,
}

impl Model for CoreState {
    ghost use Rattle.std.specs.Prelude.{◌≡◌, length};
    ghost use Rattle.board_core.specs.Machine.{Machine};

    ghost Value = { Machine };

    ghost view = { λ state. record {
      segments = state.segments;
      next = state.next;
      least = state.least;
      draws = state.draws.items;
      posts = state.posts.items;
    } };

    ghost invariant = { λ state. state.next ≡ length state.draws.items };
}

impl CoreState {
    /// The machine for so many segments, before any event. It takes no memory yet.
    pub fn open(alloc: Global, n: u32) -> CoreState
        ensures { result ≡ machine_at_start n }
    {
        CoreState {
            segments: n,
            next: 0,
            least: n,
            draws: Vec::new(alloc),
            posts: Vec::new(alloc),
        }
    }

    /// Takes one event. Where memory is refused nothing changes.
    #[tactic(auto, unfolding(crate::specs::Machine::machine_after_event))]
    pub fn apply(&mut self, event: Event) -> Result<Answer, NoMemory>
        ensures state { OnOk result (self.new ≡ machine_after_event self.old event) }
        ensures answer { IfOk result (λ answer. answer ≡ answer_of self.old event) }
        ensures silent { IfOk result (λ answer. (answer ≡ Nothing) ↔ IsSilent self.old event) }
        ensures kept { OnErr result (self.new ≡ self.old) }
    {
        match event {
            Event::Claim { worker } => self.claim(worker),
            Event::Look { .. } => Ok(Answer::Least(self.least)),
            Event::Post { worker, segment } => self.post(worker, segment),
        }
    }

    #[tactic(auto, unfolding(crate::specs::Machine::machine_after_event))]
    fn claim(&mut self, worker: u32) -> Result<Answer, NoMemory>
        ensures state { OnOk result (self.new ≡ machine_after_event self.old (Claim worker)) }
        ensures answer { IfOk result (λ answer. answer ≡ answer_of self.old (Claim worker)) }
        ensures silent { IfOk result
            (λ answer. (answer ≡ Nothing) ↔ IsSilent self.old (Claim worker)) }
        ensures kept { OnErr result (self.new ≡ self.old) }
    {
        if self.has_none_left(worker) {
            return Ok(Answer::Nothing);
        }
        let number = self.next;
        self.draws.push((worker, number))?;
        self.next += 1;
        Ok(Answer::Drew(number))
    }

    #[tactic(auto, unfolding(crate::specs::Machine::machine_after_event))]
    fn post(&mut self, worker: u32, segment: u32) -> Result<Answer, NoMemory>
        ensures state { OnOk result
            (self.new ≡ machine_after_event self.old (Post worker segment)) }
        ensures answer { IfOk result (λ answer. answer ≡ Nothing) }
        ensures kept { OnErr result (self.new ≡ self.old) }
    {
        if segment < self.segments && self.has_drawn(worker, segment) {
            self.posts.push((worker, segment))?;
            self.least = self.least.min(segment);
        }
        Ok(Answer::Nothing)
    }

    /// Whether the worker has drawn a number that is no segment's.
    fn has_none_left(&self, worker: u32) -> bool
        ensures { result ≡ has_none_left self.now worker }
    {
        let segments = u64::from(self.segments);
        self.draws.iter().any(|(drawer, number)| *drawer == worker && *number >= segments)
    }

    /// Whether the worker has drawn the segment.
    fn has_drawn(&self, worker: u32, segment: u32) -> bool
        ensures { result ≡ has_drawn self.now worker segment }
    {
        let segment = u64::from(segment);
        self.draws
            .iter()
            .any(|(drawer, number)| *drawer == worker && *number == segment)
    }
}
