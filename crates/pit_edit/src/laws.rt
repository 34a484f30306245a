//! Laws of the definitions, each as the contract of a function that does nothing.
ghost use Rattle.std.specs.Prelude.{◌≡◌, ◌≢◌, ◌↔◌, ◌≤◌, ◌<◌, ◌||◌, ℕ, Bool, List, [], ◌∷◌, ◌++◌, length, Contains, true, Option, Some};
ghost use Rattle.pit_model.specs.Pit.{Pit};
ghost use Rattle.pit_plan.specs.Schedule.{held_period, last_number};
ghost use Rattle.pit_desk.specs.History.{Answered, commits_of};
ghost use Rattle.pit_desk.specs.Replies.{IsReply};
ghost use Rattle.pit_desk.specs.declared.reply.EntryReply.{EntryReply};
ghost use Rattle.pit_desk.specs.declared.reply.EntryReply.TheVariants.{Committed as committed};
ghost use Rattle.pit_edit.specs.Changes.{Edit as EditState, base_of, changes_of, late_of, wanted_of};
ghost use Rattle.pit_edit.specs.declared.conflicts.TheConstants.{CONFLICTS_SHOWN};
ghost use Rattle.pit_edit.specs.Calls.{edit_call, edit_entry};
ghost use Rattle.pit_edit.specs.EditText.{was_moved, reported_of};
ghost use Rattle.pit_edit.specs.LaidOver.{laid_over};

/// A law of edits. One that begins no later than now is refused as moved exactly where one of the blocks that it writes has been written by a commit
/// behind its base. So an edit whose changes meet nobody else's is never moved.
pub fn late_edits()
    ensures { (pit : Pit) (before : List Answered) (edit : EditState) (blocks : List ℕ) (reply : EntryReply) → edit.start ≤ length (commits_of before)
        → IsReply pit (commits_of before) (edit_call edit blocks) reply
        → (was_moved (Some reply) ≡ true) ↔ (late_of edit.start (last_number (commits_of before)) blocks ≢ []) }
{}

/// A law of edits: right after one that was committed, each block that it writes has the period that it writes, and each other block has what it had.
pub fn edit_writes()
    ensures written { (before : List Answered) (edit : EditState) (blocks : List ℕ) (number b : ℕ) → Contains blocks b
        → held_period (commits_of (before ++ edit_entry edit blocks (committed number) ∷ [])) b ≡ wanted_of edit b }
    ensures others { (before : List Answered) (edit : EditState) (blocks : List ℕ) (number b : ℕ) → (Contains blocks b → ⊥)
        → held_period (commits_of (before ++ edit_entry edit blocks (committed number) ∷ [])) b ≡ held_period (commits_of before) b }
{}

/// A law of entries: what a block has behind several is what it had before them, with the writes of those that were committed laid over, in order.
pub fn laid_over_in_order()
    ensures { (b : ℕ) (before entries : List Answered)
        → held_period (commits_of (before ++ entries)) b ≡ laid_over b (held_period (commits_of before) b) entries }
{}

/// A law of conflicts: each that is reported is a change of a block that a commit behind the base has written. They are reported where changes may be
/// left out, or where the edit was refused as moved; then each such change is among them. The first 1,000 have a line.
pub fn reported_conflicts()
    ensures reported { (is_partial : Bool) (reply : Option EntryReply) (start : ℕ) (version : ℕ → ℕ) (changes : List ℕ) (b : ℕ)
        → Contains (reported_of is_partial reply (late_of start version changes)) b → Contains changes b × (start < version b) }
    ensures none_left { (is_partial : Bool) (reply : Option EntryReply) (start : ℕ) (version : ℕ → ℕ) (changes : List ℕ) (b : ℕ)
        → (is_partial || was_moved reply) ≡ true → Contains changes b → start < version b → Contains (reported_of is_partial reply (late_of start version changes)) b }
    ensures shown { CONFLICTS_SHOWN ≡ 1000 }
{}

/// A law of edits: one that has for each block what its base has, changes nothing, whatever is held.
pub fn unchanged_edits()
    ensures { (blocks : ℕ) (edit : EditState) (held : ℕ → Option ℕ)
        → ((b : ℕ) → b < blocks → wanted_of edit b ≡ base_of edit b) → changes_of blocks edit held ≡ [] }
{}
