//! Input and output of `bsonraw-dump`: how dumps and texts are read, and how the lines are written that say what is found.
//!
//! - `input` reads: a window on a reader (`Window`), the next document by its length (`look_ahead`), the portion that is asked for
//!   (`Portion`), where documents go on after damage (`pass_over`), and the text of a document (`Scan`) with its line and column (`Position`).
//! - `lines` writes: what is found in a document (`find`), in words (`text`) or as an object of JSON (`object`), by `put`.
//!
//! Begin at `look_ahead` in `input/window.rt`, and at `find` in `lines/find.rt`. To change a line, change its definition first. That of what is
//! found in a document is in `specs/lines/Told.antt`, and `lines/text.rt` and `lines/object.rt` write it; that of a place where no document
//! begins is in `specs/input/Endings.antt`, and `input/rest.rt` writes it. `input/resync.rt` reads on and asks `raw_resync`, which defines
//! what may be passed over of a damaged dump. No file is opened here, and no command is known.
#![tactic(auto)]

pub mod input;
pub mod lines;
