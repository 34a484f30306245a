ghost use Rattle.std.specs.Prelude.{◌≡◌};
ghost use Rattle.pit_opening.specs.Openings.{started, resumed, is_resumed};

use pit_desk::Entry;
use pit_step::Input;
use std::alloc::Allocator;
use std::marker::Model;

/// What the text of a beginning stands for: a schedule, or the entries of a history.
#[derive(Drop)]
pub struct Opening<A: Allocator + Drop> {
    pub(crate) kind: OpeningKind<A>,
}

#[derive(Drop)]
pub(crate) enum OpeningKind<A: Allocator + Drop> {
    /// Blocks that rise, each with its period.
    Start(Vec<(u32, u32), A>),
    /// Of the input that faults name.
    Resumed(Input, Vec<Entry<A>, A>),
}

impl<A: Allocator + Drop> Model for Opening<A> {
    ghost use Rattle.pit_opening.specs.Openings.{Opened};
    ghost use Rattle.pit_opening.specs.Inside.Views.{opened_by};

    ghost Value = { Opened };

    ghost view = { λ o. opened_by o.kind };
}

impl<A: Allocator + Drop> Opening<A> {
    /// A schedule: blocks that rise, each with its period.
    pub fn start(schedule: Vec<(u32, u32), A>) -> Opening<A>
        ensures { result ≡ started schedule.items }
    {
        Opening {
            kind: OpeningKind::Start(schedule),
        }
    }

    /// The entries of a history, of the input that faults name.
    pub fn resumed(file: Input, entries: Vec<Entry<A>, A>) -> Opening<A>
        ensures { result ≡ resumed file entries.items }
    {
        Opening {
            kind: OpeningKind::Resumed(file, entries),
        }
    }

    /// Whether it is a history.
    pub fn is_resumed(&self) -> bool
        ensures { result ≡ is_resumed self.now }
    {
        match &self.kind {
            OpeningKind::Start(_) => false,
            OpeningKind::Resumed(_, _) => true,
        }
    }
}
