//! The accessors of values, borrowed and owned.

use crate::failure::Failure;
use crate::put::put;
use raw_bson::{RawBson, RawBsonRef};

type Done = Result<(), Failure>;

/// The accessors of values without text.
macro_rules! numbers {
    ($out:ident, $call:ident, $value:ident) => {
        match $call {
            "as_f64" => put($out, $value.as_f64()),
            "as_object_id" => put($out, $value.as_object_id()),
            "as_bool" => put($out, $value.as_bool()),
            "as_datetime" => put($out, $value.as_datetime()),
            "as_null" => put($out, $value.as_null()),
            "as_timestamp" => put($out, $value.as_timestamp()),
            "as_i32" => put($out, $value.as_i32()),
            "as_i64" => put($out, $value.as_i64()),
            _ => Err(Failure::Unknown),
        }
    };
}

/// The accessors of values that are borrowed.
macro_rules! borrowed {
    ($out:ident, $call:ident, $value:ident, $others:ident) => {
        match $call {
            "as_str" => put($out, $value.as_str()),
            "as_document" => put($out, $value.as_document()),
            "as_array" => put($out, $value.as_array()),
            "as_binary" => put($out, $value.as_binary()),
            "as_regex" => put($out, $value.as_regex()),
            "as_symbol" => put($out, $value.as_symbol()),
            "as_javascript" => put($out, $value.as_javascript()),
            "as_javascript_with_scope" => put($out, $value.as_javascript_with_scope()),
            "as_db_pointer" => put($out, $value.as_db_pointer()),
            _ => $others($value, $call, $out),
        }
    };
}

fn ref_number(value: RawBsonRef<'_>, call: &str, out: &mut String) -> Done {
    numbers!(out, call, value)
}

/// Runs an accessor of a value that is borrowed.
pub fn of_ref(value: RawBsonRef<'_>, call: &str, out: &mut String) -> Done {
    borrowed!(out, call, value, ref_number)
}

fn owned_number(value: &RawBson, call: &str, out: &mut String) -> Done {
    numbers!(out, call, value)
}

/// Runs an accessor of a value that owns its parts.
pub fn of_owned(value: &RawBson, call: &str, out: &mut String) -> Done {
    borrowed!(out, call, value, owned_number)
}
