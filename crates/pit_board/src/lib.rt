//! The board: what planners see of the commits without a lock.
//!
//! The entries of a session are one list. A `Prefix` is a prefix of it that somebody has seen; of any two prefixes one is a prefix of the other. The
//! `Publisher` has the desk enter a commit, adds it to the list, and publishes it; it stands behind the lock. Each planner has a `View`: a place at the
//! board, and the prefix that it has seen, which only grows. A view shows a block as the whole of what it has seen leaves it, and waits for nobody.
//! By the rule of the board (`board_rule`) what is published begins with all that any place has seen, so no board that a view enters is behind
//! what that view has seen.
//! The type of a prefix keeps that each prefix of it leaves a good schedule under the limits then in force.
#![tactic(auto)]

mod board;
mod board_rule;
mod changes;
mod list;
mod list_rule;
mod prefix;
mod publication;
mod publisher;
mod reader;
mod session;
mod slot;
mod view;
mod write_handle;
mod writer;

pub use changes::Changes;
pub use list::EmptyList;
pub use prefix::Prefix;
pub use publisher::Publisher;
pub use session::Session;
pub use slot::Slot;
pub use view::View;
