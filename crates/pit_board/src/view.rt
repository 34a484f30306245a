//! What one planner sees without a lock.
ghost use Rattle.std.specs.Prelude.{◌≡◌, ◌+◌, ◌<◌, length, MatchOption, IfSome, IfNone};
ghost use mathlib.Core.List.{IsPrefix};
ghost use Rattle.pit_desk.specs.History.{commits_of};
ghost use Rattle.pit_board.specs.Boards.{slot_of};
ghost use Rattle.pit_board.specs.Prefixes.{AreLawful};

use crate::prefix::Prefix;
use crate::reader::BoardReader;
use crate::session::Session;
use crate::slot::Slot;
use crate::writer::BoardWriter;
use std::alloc::Allocator;
use std::marker::Model;
use std::sync::Wait;
use std::sync::ledger::{Book, Share};

/// A planner's place at the board, the entries that it has seen, whose commits its reader has seen too, and its share of the count of entries. Contracts
/// see the entries and the share's amount.
#[derive(Drop)]
pub struct View<S: Session, A: Allocator + Copy + Drop> {
    // it is there between any two calls
    reader: Option<BoardReader<S, A>>,
    prefix: Prefix<S>,
    share: Share<S>,
}

impl<S: Session, A: Allocator + Copy + Drop> Model for View<S, A> {
    ghost use Rattle.std.specs.Prelude.{◌≡◌, IsSomeAnd};
    ghost use Rattle.pit_desk.specs.History.{commits_of};
    ghost use Rattle.pit_board.specs.Views.{Sight};

    ghost Value = { Sight };

    ghost view = { λ v. record { seen = v.prefix; amount = v.share.amount } };

    ghost invariant = { λ v. (v.share.parts ≡ 1) × IsSomeAnd v.reader (λ reader. reader ≡ commits_of v.prefix) };
}

impl<S: Session, A: Allocator + Copy + Drop> View<S, A> {
    pub(crate) fn new(reader: BoardReader<S, A>, prefix: Prefix<S>, share: Share<S>) -> View<S, A>
        requires part { share.parts ≡ 1 }
        requires seen { reader ≡ commits_of prefix }
        ensures { result ≡ record { seen = prefix; amount = share.amount } }
    {
        View {
            reader: Some(reader),
            prefix,
            share,
        }
    }

    /// Gives the place back. What was seen and the share are left.
    pub fn into_parts(self) -> (Prefix<S>, Share<S>)
        ensures seen { result.0 ≡ self.seen }
        ensures part { result.1.parts ≡ 1 }
        ensures amount { result.1.amount ≡ self.amount }
    {
        let View {
            reader: _reader,
            prefix,
            share,
        } = self;
        (prefix, share)
    }

    /// The entries that the planner has seen.
    pub fn prefix(&self) -> &Prefix<S>
        ensures seen { result.now ≡ self.now.seen }
        ensures lawful { AreLawful S.instance (commits_of self.now.seen) }
    {
        let prefix = &self.prefix;
        prefix.shows_lawful();
        prefix
    }

    /// Counts one entry, in the total and in the share.
    pub fn count_entry(&mut self, total: &mut Book<S>)
        ensures seen { self.new.seen ≡ self.old.seen }
        ensures amount { self.new.amount ≡ self.old.amount + 1 }
        ensures total { total.new.total ≡ total.old.total + 1 }
    {
        total.add(&mut self.share, 1);
    }

    /// From now on the planner has seen this too, whose commits the writer has published. Where some of them are new to it, it looks at the board. Where it
    /// isn't let in, its reader gives its place back, and another takes one and is told of them. Waits for that place.
    pub(crate) fn learn<R: Wait + Drop, W: Wait>(
        &mut self,
        rt: &W,
        prefix: &Prefix<S>,
        writer: &mut BoardWriter<S, R, A>,
    )
        requires { commits_of writer.old.published ≡ commits_of prefix.now }
        ensures writer { writer.new ≡ writer.old }
        ensures old { IsPrefix self.old.seen self.new.seen }
        ensures learnt { IsPrefix prefix.now self.new.seen }
        ensures amount { self.new.amount ≡ self.old.amount }
    {
        if !self.prefix.has_commits_of(prefix) {
            let _slot = self.look(u32::MAX);
        }
        if !self.prefix.begins(prefix) {
            return;
        }
        if !self.prefix.has_commits_of(prefix) {
            drop(self.reader.take());
            self.reader = Some(writer.placed_reader(rt));
        }
        self.prefix = prefix.copy();
    }

    /// Looks at the board, and answers how many commits the planner has then seen. Where the reader isn't let in, it answers how many it had seen
    /// before. Takes no memory, and waits for nobody.
    pub fn begin(&mut self) -> u32
        ensures seen { IsPrefix self.old.seen self.new.seen }
        ensures start { result ≡ length (commits_of self.new.seen) }
        ensures lawful { AreLawful S.instance (commits_of self.new.seen) }
        ensures amount { self.new.amount ≡ self.old.amount }
    {
        // no board has a slot for it
        let _slot = self.look(u32::MAX);
        self.prefix.count()
    }

    /// Looks a block up at the board, after which the planner has seen what the board shows. Where the reader isn't let in, `None` is the answer, and
    /// nothing changes. Takes no memory, and waits for nobody.
    pub fn read(&mut self, block: u32) -> Option<Slot>
        requires { block < S.instance.blocks }
        ensures slot { IfSome result (λ slot. slot ≡ slot_of (commits_of self.new.seen) block) }
        ensures seen { MatchOption result (self.new.seen ≡ self.old.seen) (λ slot. IsPrefix self.old.seen self.new.seen) }
        ensures lawful { AreLawful S.instance (commits_of self.new.seen) }
        ensures amount { self.new.amount ≡ self.old.amount }
    {
        let slot = self.look(block);
        self.prefix.shows_lawful();
        slot
    }

    /// Takes over what the board shows, and looks a block up, if the board has a slot for it. Where the reader isn't let in, nothing changes. `begin`
    /// and `read` both go through here, so that a reader's steps are compiled once, and inlined.
    fn look(&mut self, block: u32) -> Option<Slot>
        ensures slot { IfSome result (λ slot. slot ≡ slot_of (commits_of self.new.seen) block) }
        ensures seen { IsPrefix self.old.seen self.new.seen }
        ensures none { block < S.instance.blocks → IfNone result (self.new.seen ≡ self.old.seen) }
        ensures amount { self.new.amount ≡ self.old.amount }
    {
        let Some(reader) = self.reader.take() else {
            unreachable!()
        };
        let (reader, slot) = reader.look(&mut self.prefix, block);
        self.reader = Some(reader);
        slot
    }
}
