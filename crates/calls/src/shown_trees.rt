//! The written forms of trees. A document is its pairs between braces, a list its values between brackets.

use crate::shown::Shown;
use crate::shown_values::show_named;
use raw_bson::{Bson, Document, JavaScriptCodeWithScope};
use std::alloc::AllocError;

/// This many levels of a tree are written.
const LEVELS: usize = 10;

#[cycle(shown_trees)]
fn show_document(levels: usize, document: &Document, out: &mut String) -> Result<(), AllocError> {
    if levels == 0 {
        return out.push_str("..");
    }
    out.push_str("{ ")?;
    for (key, value) in document.iter() {
        key.show(out)?;
        out.push_str(" ")?;
        show_tree(levels - 1, value, out)?;
        out.push_str(" ")?;
    }
    out.push_str("}")
}

#[cycle(shown_trees)]
fn show_list(levels: usize, values: &[Bson], out: &mut String) -> Result<(), AllocError> {
    if levels == 0 {
        return out.push_str("..");
    }
    out.push_str("[ ")?;
    for value in values {
        show_tree(levels - 1, value, out)?;
        out.push_str(" ")?;
    }
    out.push_str("]")
}

#[cycle(shown_trees)]
fn show_code(
    levels: usize,
    code: &JavaScriptCodeWithScope,
    out: &mut String,
) -> Result<(), AllocError> {
    show_named("JavaScriptCodeWithScope", &code.code, out)?;
    out.push_str(" ")?;
    show_document(levels, &code.scope, out)
}

#[cycle(shown_trees)]
fn show_tree(levels: usize, value: &Bson, out: &mut String) -> Result<(), AllocError> {
    match value {
        Bson::Document(x) => {
            out.push_str("Document ")?;
            show_document(levels, x, out)
        }
        Bson::Array(x) => {
            out.push_str("Array ")?;
            show_list(levels, x, out)
        }
        Bson::JavaScriptCodeWithScope(x) => show_code(levels, x, out),
        _ => show_leaf(value, out),
    }
}

fn show_leaf(value: &Bson, out: &mut String) -> Result<(), AllocError> {
    match value {
        Bson::String(x) => show_named("String", x, out),
        Bson::RegularExpression(x) => show_named("RegularExpression", x, out),
        Bson::JavaScriptCode(x) => show_named("JavaScriptCode", x, out),
        Bson::Binary(x) => show_named("Binary", x, out),
        Bson::Symbol(x) => show_named("Symbol", x, out),
        Bson::DbPointer(x) => show_named("DbPointer", x, out),
        Bson::Null => out.push_str("Null"),
        Bson::Undefined => out.push_str("Undefined"),
        Bson::MaxKey => out.push_str("MaxKey"),
        Bson::MinKey => out.push_str("MinKey"),
        _ => show_number(value, out),
    }
}

fn show_number(value: &Bson, out: &mut String) -> Result<(), AllocError> {
    match value {
        Bson::Double(x) => show_named("Double", x, out),
        Bson::Boolean(x) => show_named("Boolean", x, out),
        Bson::Int32(x) => show_named("Int32", x, out),
        Bson::Int64(x) => show_named("Int64", x, out),
        Bson::Timestamp(x) => show_named("Timestamp", x, out),
        Bson::ObjectId(x) => show_named("ObjectId", x, out),
        Bson::DateTime(x) => show_named("DateTime", x, out),
        Bson::Decimal128(x) => show_named("Decimal128", x, out),
        _ => Ok(()),
    }
}

impl Shown for Bson {
    fn show(&self, out: &mut String) -> Result<(), AllocError> {
        show_tree(LEVELS, self, out)
    }
}

impl Shown for &Bson {
    fn show(&self, out: &mut String) -> Result<(), AllocError> {
        show_tree(LEVELS, self, out)
    }
}

impl Shown for Document {
    fn show(&self, out: &mut String) -> Result<(), AllocError> {
        show_document(LEVELS, self, out)
    }
}

impl Shown for Vec<Bson> {
    fn show(&self, out: &mut String) -> Result<(), AllocError> {
        show_list(LEVELS, self, out)
    }
}
