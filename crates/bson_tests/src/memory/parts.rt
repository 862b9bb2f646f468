//! The parts of the tree that `trees` reads and writes.

use raw_bson::{Bson, Document, JavaScriptCodeWithScope, Regex};

fn is_null_document(document: &Document) -> bool {
    document.len() == 1 && matches!(document.get(""), Some(Bson::Null))
}

/// Whether the list is one null.
fn is_one_null(list: &[Bson]) -> bool {
    list.len() == 1 && matches!(list.first(), Some(Bson::Null))
}

fn is_regex(regex: &Regex) -> bool {
    regex.pattern.as_str() == "p" && regex.options.as_str() == "im"
}

fn is_code(code: &JavaScriptCodeWithScope) -> bool {
    code.code.as_str() == "g" && code.scope.is_empty()
}

/// Whether this is the value under this key.
pub(crate) fn is_part(key: &str, value: &Bson) -> bool {
    match value {
        Bson::Document(x) => key == "d" && is_null_document(x),
        Bson::Array(x) => key == "l" && is_one_null(x),
        Bson::String(x) => key == "t" && x.as_str() == "s",
        Bson::RegularExpression(x) => key == "r" && is_regex(x),
        Bson::JavaScriptCodeWithScope(x) => key == "c" && is_code(x),
        _ => false,
    }
}
