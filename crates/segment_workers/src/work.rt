//! A worker, before and after its work.

use segment_judge::{Found, Judged};
use verdict_board::Seat;

/// A worker, by its number from 0, and its seat.
#[derive(Drop)]
pub(crate) struct Worker {
    pub number: u32,
    pub seat: Seat,
}

/// What a worker found, or several workers whose seats were joined.
#[derive(Drop)]
pub(crate) struct Work<M> {
    pub founds: Vec<Found<Judged<M>>>,
    pub seat: Seat,
}
