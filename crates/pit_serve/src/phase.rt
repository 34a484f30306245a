use pit_board::Session;
use pit_share::{Planner, Transaction};
use std::alloc::Allocator;
use std::sync::Wait;

/// A planner between two transactions, or in one. It can't be dropped.
pub enum Phase<'a, S: Session, R: Wait + Drop, A: Allocator + Copy + Drop> {
    Idle(Planner<'a, S, R, A>),
    Open(Transaction<'a, S, R, A>),
}

impl<'a, S: Session, R: Wait + Drop, A: Allocator + Copy + Drop> Phase<'a, S, R, A> {
    ghost use Rattle.std.specs.Prelude.{◌≡◌};
    ghost use Rattle.pit_serve.specs.Phases.{phase_of, is_open};

    /// Whether a transaction is open.
    pub fn is_open(&self) -> bool
        ensures { result ≡ is_open (phase_of self.now) }
    {
        match self {
            Phase::Idle(_) => false,
            Phase::Open(_) => true,
        }
    }
}
