//! The rule of the board, by which what is published begins with whatever anybody has seen. It is there for proofs alone.

use crate::board::Board;
use crate::changes::Changes;
use crate::session::Session;
use atomic_table::{Join, Split};
use crossbeam_utils::rule::{Outcome, Protocol};
use std::alloc::{Allocator, Global};

/// What a place at the board has seen: a list of commits, of any length. No value of it is made.
pub(crate) type Commits = [Changes<Global>; 0];

/// What is published begins with the opening commits, which a new place has seen, and with whatever any place has seen.
pub(crate) struct BoardRule;

impl<S: Session, A: Allocator + Copy + Drop> Protocol<Board<S, A>, Commits> for BoardRule {
    ghost use Rattle.pit_desk.specs.History.{commits_of};
    ghost use Rattle.pit_board.specs.Inside.BoardRule.{BeginsWithSeen};

    ghost holds = { λ board views. BeginsWithSeen (commits_of S.opening) (commits_of board) views };

    ghost first = { commits_of S.opening };
}

/// Of a reader that enters, and of the writer that publishes: what it had seen begins what was published before, and it sees what is published then.
pub(crate) struct Sees;

impl<S: Session, A: Allocator + Copy + Drop> Outcome<Board<S, A>, Commits> for Sees {
    ghost use Rattle.std.specs.Prelude.{◌≡◌};
    ghost use mathlib.Core.List.{IsPrefix};
    ghost use Rattle.pit_desk.specs.History.{commits_of};

    ghost then = { λ seen before after sees. IsPrefix seen (commits_of before) × (sees ≡ commits_of after) };
}

/// The writer's note says what the writer sees.
pub(crate) struct Told;

impl Split<Commits> for Told {
    ghost left = { λ seen. seen };

    ghost right = { λ seen. seen };
}

/// A reader whose place is new sees what the note says. The note is spent.
pub(crate) struct Learnt;

impl Join<Commits> for Learnt {
    ghost use Rattle.std.specs.Prelude.{[]};

    ghost both = { λ seen told. told };

    ghost spent = { [] };
}
