//! BSON for users: documents and values that own their bytes, views of them, and their trees. It passes on the
//! public items of the crates below.
//!
//! Begin at `RawDocumentBuf` in `document_buf.rt`, at `append_value` in `appending.rt`, which writes, and at
//! `canonical_bytes` in `canonical.rt`. `conversions.rt` goes between owned values and trees.
//!
//! In `specs/`, `Append.antt` says what an append does, `Conversion.antt` and `Copies.antt` what conversions and
//! copies return. `EachItem.antt`, `Folds.antt`, `Rows.antt` and `Copying.antt` are for loops of callers.
//!
//! `raw_shelf`, `bson_from_json`, `bsonraw`, `bsonraw_c` and the callers in `bson_uses` rest on this crate. Its
//! contracts and `proofs/Face.antt` are what users prove with, so neither may become weaker.
#![tactic(auto)]

mod accessors;
mod any_error;
mod appending;
mod array_buf;
mod bson;
mod canonical;
mod conversions;
mod copies;
mod cow;
mod document_buf;
mod document_readers;
mod from;
pub mod laws;

pub use any_error::AnyError;
pub use array_buf::RawArrayBuf;
pub use bson::{RawBson, RawJavaScriptCodeWithScope};
pub use bson_model::{
    Binary, BinarySubtype, Bson, DateTime, DbPointer, Decimal128, Document, DocumentIter,
    DoubleBits, JavaScriptCodeWithScope, NoMemory, ObjectId, Regex, Timestamp,
};
pub use canonical::canonical_bytes;
pub use copies::{ToRawArrayBuf, ToRawBson, ToRawDocumentBuf};
pub use cow::{CowRawArray, CowRawDocument};
pub use document_buf::RawDocumentBuf;
pub use raw_tree::{
    Breach, Cause, Limits, Steps, bson_from_element, bson_from_raw, document_from_raw,
    document_from_raw_counted, document_from_raw_within, encode, encode_list, list_from_raw,
    total_len, validate,
};
pub use raw_view::{
    BorrowedError, ElementType, Error, ErrorKind, Holder, Iter, NoDocument, RawArray, RawArrayIter,
    RawBinaryRef, RawBsonRef, RawDbPointerRef, RawDocument, RawElement, RawIter,
    RawJavaScriptCodeWithScopeRef, RawLevel, RawRegexRef, Reason, Result, ValueAccessError,
    ValueAccessErrorKind, ValueAccessResult,
};
