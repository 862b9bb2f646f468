//! Borrowed views of raw BSON documents. Values borrow from the document, and damage is found only where a
//! call looks.
//!
//! Begin at `RawDocument` in `document.rt`, and at `Elements::next` in `elements.rt`, which every look-up and
//! iterator calls. `front/` cuts elements off the bytes; `value.rt` and `value/` read their payloads.
//!
//! In `specs/`, `Frame/Format.antt` has the productions of BSON 1.1, `Frame.antt` reads them from bytes,
//! `Meaning.antt` says what a payload means, and `LookUp.antt` what a look-up finds.
//!
//! All crates that read bytes rest on this one: `raw_tree` first, then `raw_form`, `raw_bson` and the
//! programs. After a change of a body or a contract they are all proved again. `proofs/Face.antt` has the
//! lemmas that they may cite; any other lemma may change.
#![tactic(auto)]

mod access;
mod array;
mod bson_ref;
mod document;
mod element;
mod element_type;
mod elements;
mod error;
mod first_document;
mod front;
mod hex_digits;
mod iter;
pub mod laws;
mod level;
mod value;

pub use access::{ValueAccessError, ValueAccessErrorKind, ValueAccessResult};
pub use array::RawArray;
pub use bson_ref::{
    RawBinaryRef, RawBsonRef, RawDbPointerRef, RawJavaScriptCodeWithScopeRef, RawRegexRef,
};
pub use document::RawDocument;
pub use element::RawElement;
pub use element_type::ElementType;
pub use elements::Elements;
pub use error::{BorrowedError, Error, ErrorKind, Reason, Result};
pub use first_document::NoDocument;
pub use hex_digits::HexDigits;
pub use iter::{Iter, RawArrayIter, RawIter};
pub use level::{Holder, RawLevel};
