//! What callers of `raw_bson` and `raw_shelf` write, each with the contract that a user would want.
//!
//! Begin at the module closest to your task: `filter.rt` and `path.rt` look things up, `update.rt` and
//! `without.rt` copy with changes, `tally.rt` and `dump.rt` go through a dump, `op_msg.rt` reads and writes
//! messages, `user.rt` checks a document against a schema.
//!
//! Each module has its definitions in `specs/` and its proofs in `proofs/`; `README.md` lists the lemmas that they
//! cite.
//!
//! Nothing rests on this crate: it is here to be copied, and it notices if a contract or a lemma of a lower crate
//! becomes too weak for callers.
#![tactic(auto)]

mod compare;
mod dump;
mod filter;
mod items;
mod kept;
mod op_msg;
mod outside;
mod path;
mod tally;
mod update;
mod user;
mod without;

pub use compare::{are_equal, normalised_twice};
pub use dump::{Dump, split_dump};
pub use filter::{Operator, Unmet, matches};
pub use items::count_nulls;
pub use kept::keep;
pub use op_msg::{Message, MessageError, Section, message_of, read_message};
pub use outside::{MOST, received};
pub use path::find_path;
pub use tally::{Tally, TallyError, tally_of};
pub use update::set_path;
pub use user::{Field, Fields, NotUser, check_user};
pub use without::copy_without;
