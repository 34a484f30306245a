//! What the board takes in.
ghost use Rattle.std.specs.Prelude.{◌≡◌, ◌++◌, ◌∷◌, [], None, Some};
ghost use Rattle.pit_desk.specs.History.{commits_of};

use crate::changes::Changes;
use crate::prefix::Prefix;
use crate::session::Session;
use std::alloc::{Allocator, Global};
use std::marker::{Brand, Model};

/// A commit whose entry stands in the list: its changes, and the prefixes before it and with it. Contracts see both prefixes.
#[derive(Drop)]
pub struct Publication<S: Session, A: Allocator + Copy + Drop> {
    pub(crate) changes: Changes<A>,
    pub(crate) before: Prefix<S>,
    pub(crate) after: Prefix<S>,
}

impl<S: Session, A: Allocator + Copy + Drop> Model for Publication<S, A> {
    ghost use Rattle.std.specs.Prelude.{◌≡◌, ◌++◌, ◌∷◌, []};
    ghost use Rattle.pit_desk.specs.History.{commits_of};
    ghost use Rattle.pit_board.specs.Inside.Boards.{Publishing};

    ghost Value = { Publishing };

    ghost view = { λ p. record { before = p.before; after = p.after } };

    ghost invariant = { λ p. commits_of p.after ≡ commits_of p.before ++ p.changes ∷ [] };
}

impl<S: Session, A: Allocator + Copy + Drop> Publication<S, A> {
    pub(crate) fn new(changes: Changes<A>, before: Prefix<S>, after: Prefix<S>) -> Publication<S, A>
        requires { commits_of after ≡ commits_of before ++ changes ∷ [] }
        ensures { result ≡ record { before = before; after = after } }
    {
        Publication {
            changes,
            before,
            after,
        }
    }
}

/// An operation of the board: a commit whose entry stands in the list; or nothing, which takes as much room. The writer appends that one before the commit
/// is entered.
#[derive(Drop)]
pub struct Operation<S: Session, A: Allocator + Copy + Drop> {
    pub(crate) publication: Option<Publication<S, A>>,
}

impl<S: Session, A: Allocator + Copy + Drop> Model for Operation<S, A> {
    ghost use Rattle.std.specs.Prelude.{Option};
    ghost use Rattle.pit_board.specs.Inside.Boards.{Publishing};

    ghost Value = { Option Publishing };

    ghost view = { λ o. o.publication };
}

// The queue in which the writer keeps operations has first room for four, where each takes at most so many bytes.
const _: () = prove!(size_of::<Operation<Brand, Global>>() <= 1024);

impl<S: Session, A: Allocator + Copy + Drop> Operation<S, A> {
    pub(crate) fn nothing() -> Operation<S, A>
        ensures { result ≡ None }
    {
        Operation { publication: None }
    }

    pub(crate) fn commit(publication: Publication<S, A>) -> Operation<S, A>
        ensures { result ≡ Some publication }
    {
        Operation {
            publication: Some(publication),
        }
    }
}
