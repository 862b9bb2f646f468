//! The values of BSON as trees: `Bson`, `Document` and the types of single values. It reads and writes no
//! bytes.
//!
//! Begin at `Bson` and `Document` in `bson.rt`. `pairs.rt`, `parts.rt` and `keys.rt` say how a document holds
//! its pairs; `drops.rt` drops deep values without recursion.
//!
//! `specs/Tree.antt` defines the tree of a value, which the contracts of all crates above speak of.
//! `specs/Proper.antt` says which trees survive being written and read.
//!
//! All crates that read or write BSON rest on this one, so they are all proved again after a changed contract. A
//! new kind of value also needs a line in `Kind.antt` of `raw_view`. `proofs/Face.antt` has the lemmas that
//! crates above may cite; any other lemma may change.
#![tactic(auto, using(crate::proofs::Trees::tree_laws))]

mod binaries;
mod bson;
mod drops;
mod errors;
mod keys;
pub mod laws;
mod numbers;
mod object_id;
mod pairs;
mod pairs_iter;
mod parts;
mod ranges;
mod regexes;
mod times;

pub use binaries::{Binary, BinarySubtype};
pub use bson::{Bson, Document, JavaScriptCodeWithScope};
pub use errors::NoMemory;
pub use numbers::{Decimal128, DoubleBits};
pub use object_id::{DbPointer, ObjectId};
pub use pairs_iter::DocumentIter;
pub use regexes::{Regex, do_options_ascend};
pub use times::{DateTime, Timestamp};
