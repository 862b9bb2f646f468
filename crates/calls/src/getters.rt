//! The typed getters of views and buffers.

use crate::failure::Failure;
use crate::put::put;
use raw_bson::{RawArray, RawArrayBuf, RawDocument, RawDocumentBuf};
use std::alloc::Global;

/// The getters of values without text.
macro_rules! numbers {
    ($out:ident, $call:ident, $from:ident, $($argument:ident),*) => {
        match $call {
            "get_f64" => put($out, $from.get_f64($($argument),*)),
            "get_object_id" => put($out, $from.get_object_id($($argument),*)),
            "get_bool" => put($out, $from.get_bool($($argument),*)),
            "get_datetime" => put($out, $from.get_datetime($($argument),*)),
            "get_timestamp" => put($out, $from.get_timestamp($($argument),*)),
            "get_i32" => put($out, $from.get_i32($($argument),*)),
            "get_i64" => put($out, $from.get_i64($($argument),*)),
            _ => Err(Failure::Unknown),
        }
    };
}

/// The getters of values that are borrowed.
macro_rules! borrowed {
    ($out:ident, $call:ident, $from:ident, $others:ident, $($argument:ident),*) => {
        match $call {
            "get_str" => put($out, $from.get_str($($argument),*)),
            "get_document" => put($out, $from.get_document($($argument),*)),
            "get_array" => put($out, $from.get_array($($argument),*)),
            "get_binary" => put($out, $from.get_binary($($argument),*)),
            "get_regex" => put($out, $from.get_regex($($argument),*)),
            _ => $others($from, $call, $out, $($argument),*),
        }
    };
}

type Done = Result<(), Failure>;

fn view_number(
    view: RawDocument<'_>,
    call: &str,
    out: &mut String,
    alloc: Global,
    key: &str,
) -> Done {
    numbers!(out, call, view, alloc, key)
}

/// Runs a getter of a view of a document.
pub fn of_view(
    view: RawDocument<'_>,
    call: &str,
    out: &mut String,
    alloc: Global,
    key: &str,
) -> Done {
    borrowed!(out, call, view, view_number, alloc, key)
}

fn array_view_number(
    view: RawArray<'_>,
    call: &str,
    out: &mut String,
    alloc: Global,
    index: usize,
) -> Done {
    numbers!(out, call, view, alloc, index)
}

/// Runs a getter of a view of an array.
pub fn of_array_view(
    view: RawArray<'_>,
    call: &str,
    out: &mut String,
    alloc: Global,
    index: usize,
) -> Done {
    borrowed!(out, call, view, array_view_number, alloc, index)
}

fn document_number(document: &RawDocumentBuf, call: &str, out: &mut String, key: &str) -> Done {
    numbers!(out, call, document, key)
}

/// Runs a getter of a document.
pub fn of_document(document: &RawDocumentBuf, call: &str, out: &mut String, key: &str) -> Done {
    borrowed!(out, call, document, document_number, key)
}

fn array_number(array: &RawArrayBuf, call: &str, out: &mut String, index: usize) -> Done {
    numbers!(out, call, array, index)
}

/// Runs a getter of an array.
pub fn of_array(array: &RawArrayBuf, call: &str, out: &mut String, index: usize) -> Done {
    borrowed!(out, call, array, array_number, index)
}
