use crate::sitting::Sitting;
use pit_board::Session;
use pit_share::{PlannerLog, Seat};
use std::alloc::Allocator;
use std::marker::Model;

/// The seats of planners, what those leave who sat down, and room for it.
#[derive(Drop)]
pub(crate) struct Seating<S: Session, A: Allocator + Copy + Drop> {
    pub(crate) seats: Vec<Seat<S, A>, A>,
    pub(crate) logs: Vec<PlannerLog<S, A>, A>,
    pub(crate) sittings: Vec<Sitting, A>,
    /// In the file, for entries. Bytes.
    pub(crate) room: u64,
}

impl<S: Session, A: Allocator + Copy + Drop> Model for Seating<S, A> {
    ghost use Rattle.std.specs.Prelude.{vec_capacity};
    ghost use Rattle.pit_live.specs.Inside.Threads.{SeatingState};

    ghost Value = { SeatingState };

    ghost view = { λ s. record {
      seats = s.seats.items;
      logs = s.logs.items;
      sittings = s.sittings.items;
      logs_room = vec_capacity s.logs;
      sittings_room = vec_capacity s.sittings;
    } };
}
