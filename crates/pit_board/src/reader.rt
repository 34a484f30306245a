//! A reader of the board.
ghost use Rattle.std.specs.Prelude.{◌≡◌, ◌<◌, IfSome, IfNone};
ghost use mathlib.Core.List.{IsPrefix};
ghost use Rattle.left_right.specs.Sides.{view as seen_by};
ghost use Rattle.pit_desk.specs.History.{commits_of};
ghost use Rattle.pit_board.specs.Boards.{slot_of};

use crate::board::Board;
use crate::board_rule::{BoardRule, Commits, Sees};
use crate::prefix::Prefix;
use crate::session::Session;
use crate::slot::Slot;
use left_right::reader::Reader;
use std::alloc::Allocator;
use std::marker::Model;

pub(crate) type RuledReader<S, A> = Reader<Board<S, A>, Commits, BoardRule, A>;

/// A reader's place at the board. Contracts see the commits that it has seen: each board that it enters from then on begins with them.
#[derive(Drop)]
pub(crate) struct BoardReader<S: Session, A: Allocator + Copy + Drop> {
    reader: RuledReader<S, A>,
}

impl<S: Session, A: Allocator + Copy + Drop> Model for BoardReader<S, A> {
    ghost use Rattle.std.specs.Prelude.{List};
    ghost use Rattle.left_right.specs.Sides.{view as seen_by};
    ghost use Rattle.pit_plan.specs.Schedule.{Commit};

    ghost Value = { List Commit };

    ghost view = { λ r. seen_by r.reader.place };
}

impl<S: Session, A: Allocator + Copy + Drop> BoardReader<S, A> {
    pub(crate) fn new(reader: RuledReader<S, A>) -> BoardReader<S, A>
        ensures { result ≡ seen_by reader.place }
    {
        BoardReader { reader }
    }

    /// Enters the board, takes over what it shows, looks a block up, if the board has a slot for it, and leaves. Where the reader isn't let in, nothing
    /// changes. Takes no memory, and waits for nobody.
    pub(crate) fn look(
        self,
        prefix: &mut Prefix<S>,
        block: u32,
    ) -> (BoardReader<S, A>, Option<Slot>)
        requires { self ≡ commits_of prefix.old }
        ensures reader { result.0 ≡ commits_of prefix.new }
        ensures slot { IfSome result.1 (λ slot. slot ≡ slot_of (commits_of prefix.new) block) }
        ensures seen { IsPrefix prefix.old prefix.new }
        ensures none { block < S.instance.blocks → IfNone result.1 (prefix.new ≡ prefix.old) }
    {
        let BoardReader { reader } = self;
        match reader.enter_as::<Sees>() {
            Ok(reading) => {
                let slot = shown(reading.get(), prefix, block);
                (BoardReader::new(reading.leave()), slot)
            }
            Err(reader) => (BoardReader::new(reader), None),
        }
    }
}

/// Takes over what a board shows, which begins with the commits seen, and looks a block up, if the board has a slot for it.
fn shown<S: Session, A: Allocator + Copy + Drop>(
    board: &Board<S, A>,
    prefix: &mut Prefix<S>,
    block: u32,
) -> Option<Slot>
    requires { IsPrefix (commits_of prefix.old) (commits_of board.now) }
    ensures board { commits_of prefix.new ≡ commits_of board.now }
    ensures slot { IfSome result (λ slot. slot ≡ slot_of (commits_of prefix.new) block) }
    ensures seen { IsPrefix prefix.old prefix.new }
    ensures due { block < S.instance.blocks → IfNone result ⊥ }
{
    prefix.catch_up(board.prefix());
    let slots = board.slots();
    let at = block as usize;
    if at < slots.len() {
        return Some(slots[at].slot());
    }
    None
}
