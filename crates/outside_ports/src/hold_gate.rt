//! A gate for tests that holds segment 1 until segment 2 is done.

use crate::gate::Gate;
use std::hint::spin_loop;
use std::sync::atomic::Ordering::SeqCst;
use std::sync::atomic::{AtomicBool, AtomicU64};
use std::thread::yield_now;

/// How often a held worker looks whether it may go on.
const MOST_TURNS: u32 = 10_000_000;

/// After so many looks it lets another thread run: there may be more threads than processors.
const TURNS_A_SPIN: u32 = 20_000;

/// A gate at which segment 1 waits until some worker has looked at segment 2, or until it looked in
/// vain `MOST_TURNS` times. A worker that gives up goes on, and the gate notes it.
///
/// No clause speaks of the counts and the note, since any thread may change them at any time; tests
/// alone hold them.
#[derive(Drop)]
pub struct HoldGate {
    befores: AtomicU64,
    afters: AtomicU64,
    is_open: AtomicBool,
    gave_up: AtomicBool,
}

impl HoldGate {
    /// A gate that nobody has passed yet.
    pub fn new() -> Self {
        HoldGate {
            befores: AtomicU64::new(0),
            afters: AtomicU64::new(0),
            is_open: AtomicBool::new(false),
            gave_up: AtomicBool::new(false),
        }
    }

    /// How often `before` was called, the calls that still wait among them.
    pub fn befores(&self) -> u64 {
        self.befores.load(SeqCst)
    }

    /// How often `after` was called.
    pub fn afters(&self) -> u64 {
        self.afters.load(SeqCst)
    }

    /// Whether some worker went on without segment 2.
    pub fn gave_up(&self) -> bool {
        self.gave_up.load(SeqCst)
    }
}

impl Gate for HoldGate {
    fn before(&self, _worker: u32, seg: u32) {
        self.befores.fetch_add(1, SeqCst);
        if seg != 1 {
            return;
        }
        for turn in 0..MOST_TURNS {
            if self.is_open.load(SeqCst) {
                return;
            }
            if turn % TURNS_A_SPIN == 0 {
                yield_now();
            } else {
                spin_loop();
            }
        }
        self.gave_up.store(true, SeqCst);
    }

    fn after(&self, _worker: u32, seg: u32) {
        self.afters.fetch_add(1, SeqCst);
        if seg == 2 {
            self.is_open.store(true, SeqCst);
        }
    }
}
