//! Which kinds have memory of their own.
use raw_bson::ElementType;

/// Whether an owned value of this kind has memory of its own: texts, documents, arrays and binaries, and the kinds that
/// hold them.
pub(crate) fn has_memory(kind: ElementType) -> bool {
    matches!(
        kind,
        ElementType::String
            | ElementType::EmbeddedDocument
            | ElementType::Array
            | ElementType::Binary
            | ElementType::RegularExpression
            | ElementType::DbPointer
            | ElementType::JavaScriptCode
            | ElementType::Symbol
            | ElementType::JavaScriptCodeWithScope
    )
}
