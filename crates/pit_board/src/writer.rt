//! The writer of the board.
ghost use Rattle.std.specs.Prelude.{◌≡◌, ◌<◌, ◌^◌, ◌++◌, ◌∷◌, [], fold, IfOk, IfSome, MatchResult};
ghost use mathlib.Core.List.{IsPrefix};
ghost use Rattle.left_right.specs.Sides.{view as seen_by};
ghost use Rattle.pit_desk.specs.History.{commits_of};
ghost use Rattle.pit_board.specs.Inside.Boards.{taken_in};

use crate::board::Board;
use crate::board_rule::{BoardRule, Commits, Learnt, Sees, Told};
use crate::prefix::Prefix;
use crate::publication::Operation;
use crate::reader::{BoardReader, RuledReader};
use crate::session::Session;
use crate::write_handle::RuledWriteHandle;
use left_right::Absorb;
use left_right::writer::Writer;
use pit_num::NoMemory;
use std::alloc::Allocator;
use std::marker::Model;
use std::sync::Wait;

type RuledWriter<S, A> = Writer<Board<S, A>, Operation<S, A>, Commits, BoardRule, A>;

/// The writer of the board, which sees just the commits that are published. Contracts see the prefix that is published, and what isn't yet.
#[derive(Drop)]
pub(crate) struct BoardWriter<S: Session, R: Wait + Drop, A: Allocator + Copy + Drop>
where
    Board<S, A>: Absorb<Operation<S, A>, State = Prefix<S>>,
{
    handle: RuledWriteHandle<Board<S, A>, Operation<S, A>, Commits, BoardRule, R, A>,
}

impl<S: Session, R: Wait + Drop, A: Allocator + Copy + Drop> Model for BoardWriter<S, R, A>
where
    Board<S, A>: Absorb<Operation<S, A>, State = Prefix<S>>,
{
    ghost use Rattle.std.specs.Prelude.{◌≡◌, drop};
    ghost use Rattle.left_right.specs.Sides.{view as seen_by};
    ghost use Rattle.pit_desk.specs.History.{commits_of};
    ghost use Rattle.pit_board.specs.Inside.Boards.{WriterState};

    ghost Value = { WriterState };

    ghost view = { λ w. record { published = w.handle.writer.desk.shown.value; pending = drop w.handle.writer.behind w.handle.writer.log.items } };

    ghost invariant = { λ w. seen_by w.handle.writer.desk.place ≡ commits_of w.handle.writer.desk.shown.value };
}

impl<S: Session, R: Wait + Drop, A: Allocator + Copy + Drop> BoardWriter<S, R, A> {
    /// The writer of two boards that show the opening history, with places for so many readers. It keeps the handle, since it waits for readers when it
    /// is dropped.
    pub(crate) fn new(
        rt: R,
        alloc: A,
        first: Board<S, A>,
        second: Board<S, A>,
        readers: usize,
    ) -> Result<BoardWriter<S, R, A>, NoMemory>
        requires some { 0 < readers }
        requires few { readers < 2 ^ 32 }
        requires first { first ≡ S.opening }
        requires second { second ≡ S.opening }
        ensures { IfOk result (λ writer. writer ≡ record { published = S.opening; pending = [] }) }
    {
        let writer = Writer::new(alloc, first, second, readers)?;
        let handle = RuledWriteHandle { writer, rt };
        Ok(BoardWriter { handle })
    }

    /// Appends an operation. It is handed back where there is no memory.
    pub(crate) fn append(&mut self, operation: Operation<S, A>) -> Result<(), Operation<S, A>>
        ensures published { self.new.published ≡ self.old.published }
        ensures pending { MatchResult result (λ _. self.new.pending ≡ self.old.pending ++ operation ∷ [])
            (λ back. (back ≡ operation) × (self.new.pending ≡ self.old.pending)) }
    {
        self.handle.writer.append(operation)
    }

    /// Publishes what is pending, by which the published commits may only grow. Waits for the readers that still look at the board from before.
    pub(crate) fn publish(self) -> BoardWriter<S, R, A>
        requires { IsPrefix (commits_of self.published) (commits_of (fold taken_in self.published self.pending)) }
        ensures { result ≡ record { published = fold taken_in self.published self.pending; pending = [] } }
    {
        let BoardWriter { handle } = self;
        let (writer, rt) = handle.into_parts();
        let (writer, _published) = writer.publish_as::<Sees, R>(&rt);
        let handle = RuledWriteHandle { writer, rt };
        BoardWriter { handle }
    }

    /// A reader that has seen what is published, if there is a place for it.
    pub(crate) fn reader(&mut self) -> Option<BoardReader<S, A>>
        ensures writer { self.new ≡ self.old }
        ensures seen { IfSome result (λ reader. reader ≡ commits_of self.old.published) }
    {
        let Ok(reader) = self.handle.writer.factory().reader() else {
            return None;
        };
        Some(told_by(reader, &mut self.handle.writer))
    }

    /// As `reader`, but waits for a place. Only who has the writer takes places, and `View::learn` has just given one back: so the first turn of the loop
    /// finds one. That isn't proved: a turn that finds none is followed by another.
    pub(crate) fn placed_reader<W: Wait>(&mut self, rt: &W) -> BoardReader<S, A>
        ensures writer { self.new ≡ self.old }
        ensures seen { result ≡ commits_of self.old.published }
    {
        for _ in rt.forever() {
            if let Some(reader) = self.reader() {
                return reader;
            }
        }
        unreachable!()
    }
}

/// A reader that has learnt what the writer of its board tells it. Its place has to be new: once a reader has entered a board, no clause of the library
/// says that it is still one of the same writer's.
fn told_by<S: Session, A: Allocator + Copy + Drop>(
    mut reader: RuledReader<S, A>,
    writer: &mut RuledWriter<S, A>,
) -> BoardReader<S, A>
    requires { reader.place.table_id ≡ writer.old.desk.place.table_id }
    ensures kept { (writer.new.desk.shown ≡ writer.old.desk.shown) × (writer.new.log ≡ writer.old.log) × (writer.new.behind ≡ writer.old.behind)
        × (seen_by writer.new.desk.place ≡ seen_by writer.old.desk.place) }
    ensures told { result ≡ seen_by writer.old.desk.place }
{
    let note = writer.tell::<Told>();
    reader.learn::<Learnt>(note);
    BoardReader::new(reader)
}
