//! The library for C: what `c/bsonraw.h` declares. Bytes cross as a pointer and a length; a call returns its status, and fills
//! structs and rooms of the caller. No call keeps anything after it returns.
#![tactic(auto)]

mod answers;
mod build;
mod build_adds;
mod build_bytes;
mod build_numbers;
mod build_parts;
mod canonical;
mod check;
mod codes;
mod comparing;
mod fault;
mod fault_texts;
mod finds;
mod first_fault;
mod flatten;
mod from_json;
mod iter;
mod json;
mod json_fault_texts;
mod many;
mod moves;
mod object_id;
mod overwriting;
mod path_texts;
mod path_values;
mod paths;
mod plain_bytes;
mod quoting;
mod reader;
mod report;
mod resync;
mod room;
mod text_room;
mod texts;
mod value;
mod version;
mod view;
