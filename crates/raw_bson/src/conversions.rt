//! Owned values as trees, and trees as owned values.
#![tactic(auto, using(std::proofs::lemmas::Grind::common_steps, bson_model::proofs::Face::tree_laws))]

ghost use Rattle.std.specs.Prelude.{◌≡◌, length, IfOk, IfErr};
ghost use Rattle.std.specs.String.{string_bytes};
ghost use Rattle.bson_model.specs.Tree.{tree_of, tree_of_document, tree_of_list, code_with_scope, entries, with_trees, pairs_of};
ghost use Rattle.raw_tree.specs.CanonicalForm.{AllAreSpelledOneWay, DocumentsComeBack};
ghost use Rattle.raw_tree.specs.Encoding.{IsEncoded, IsRefused};
ghost use Rattle.raw_tree.specs.WithinLimits.{AllAreAnsweredOneWay, AllHaveOneDepth, ReadsWithin, TellsFirstBarrier};
ghost use Rattle.raw_tree.specs.Reading.{AllAreReadOneWay, Reads, TellsFirstFault, as_document};
ghost use Rattle.raw_bson.specs.Conversion.{BecomesBson, BecomesOneTree, BecomesRawBson};
ghost use Rattle.raw_bson.specs.Owned.{owned_value};

use crate::array_buf::RawArrayBuf;
use crate::bson::{RawBson, RawJavaScriptCodeWithScope};
use crate::document_buf::RawDocumentBuf;
use crate::laws::attest_one_tree;
use bson_model::{Binary, Bson, DbPointer, Document, JavaScriptCodeWithScope, Regex};
use raw_tree::{
    Limits, document_from_raw, document_from_raw_within, encode, encode_list, list_from_raw,
};
use raw_view::Result;
use std::alloc::Global;
use std::mem;

impl RawDocumentBuf {
    /// The bytes of a document. It fails, without a key, for the first of these reasons: a key, a pattern or
    /// options at any depth contain a 0; the bytes would be more than 2147483647; memory runs out. What `encode`
    /// says of trees that are read back holds here too. BSON 1.1, `document`.
    /// ```
    /// let mut tree = Document::new(alloc);
    /// tree.put(String::from_str(alloc, "a")?, Bson::Int32(1))?;
    /// assert_eq!(rt; RawDocumentBuf::from_document(alloc, &tree)?.get_i32("a")?, 1);
    /// ```
    pub fn from_document(alloc: Global, document: &Document) -> Result<RawDocumentBuf>
        ensures ok { IfOk result (λ d. IsEncoded (tree_of_document document.now) d) }
        ensures comes_back { DocumentsComeBack }
        ensures err { IfErr result (IsRefused (tree_of_document document.now)) }
    {
        RawDocumentBuf::from_bytes(encode(alloc, document)?)
    }

    /// The same as `from_document`.
    pub fn try_from_document(alloc: Global, document: &Document) -> Result<RawDocumentBuf>
        ensures ok { IfOk result (λ d. IsEncoded (tree_of_document document.now) d) }
        ensures comes_back { DocumentsComeBack }
        ensures err { IfErr result (IsRefused (tree_of_document document.now)) }
    {
        RawDocumentBuf::from_document(alloc, document)
    }

    /// The tree of the document, as `document_from_raw` returns it.
    /// ```
    /// let mut document = RawDocumentBuf::new(alloc)?;
    /// document.append("a", RawBson::from(1))?;
    /// assert_eq!(rt; document.to_document()?.get("a"), Some(&Bson::Int32(1)));
    /// ```
    pub fn to_document(&self) -> Result<Document>
        ensures tree { IfOk result (λ d. Reads self.now (tree_of_document d)) }
        ensures fault { IfErr result (TellsFirstFault self.now) }
        ensures one_reading { AllAreReadOneWay as_document }
        ensures one_spelling { AllAreSpelledOneWay as_document }
    {
        document_from_raw(self.alloc(), self.as_ref())
    }

    /// The tree of the document within limits, as `document_from_raw_within` returns it.
    /// ```
    /// let document = RawDocumentBuf::new(alloc)?;
    /// assert!(rt; document.to_document_within(Limits { bytes: 1000, depth: 10 })?.is_empty());
    /// ```
    pub fn to_document_within(&self, limits: Limits) -> Result<Document>
        ensures tree { IfOk result (λ d. ReadsWithin limits self.now (tree_of_document d)) }
        ensures fault { IfErr result (TellsFirstBarrier limits self.now) }
        ensures one_answer { AllAreAnsweredOneWay limits }
        ensures one_reading { AllAreReadOneWay as_document }
        ensures one_spelling { AllAreSpelledOneWay as_document }
        ensures one_depth { AllHaveOneDepth }
    {
        document_from_raw_within(self.alloc(), self.as_ref(), limits)
    }

    /// The tree of the document, as `document_from_raw` returns it. The buffer is dropped.
    pub fn into_document(self) -> Result<Document>
        ensures tree { IfOk result (λ d. Reads self (tree_of_document d)) }
        ensures fault { IfErr result (TellsFirstFault self) }
        ensures one_reading { AllAreReadOneWay as_document }
        ensures one_spelling { AllAreSpelledOneWay as_document }
    {
        self.to_document()
    }
}

/// The array of a list. Its keys are the decimals from 0, and its count is the length of the list.
fn array_of(alloc: Global, values: &[Bson]) -> Result<RawArrayBuf>
    ensures ok { IfOk result (λ a. IsEncoded (tree_of_list values.now) a.bytes) }
    ensures count { IfOk result (λ a. a.count ≡ length values.now) }
    ensures err { IfErr result (IsRefused (tree_of_list values.now)) }
{
    let bytes = encode_list(alloc, values)?;
    let document = RawDocumentBuf::from_bytes(bytes)?;
    Ok(RawArrayBuf::counted(document, values.len()))
}

/// The array of a list.
fn owned_array(alloc: Global, values: &[Bson]) -> Result<RawBson>
    ensures { BecomesRawBson (tree_of_list values.now) result }
{
    Ok(RawBson::Array(array_of(alloc, values)?))
}

/// The bytes of a document.
fn owned_document(alloc: Global, document: &Document) -> Result<RawBson>
    ensures { BecomesRawBson (tree_of_document document.now) result }
{
    Ok(RawBson::Document(RawDocumentBuf::from_document(alloc, document)?))
}

/// The text, which is replaced by an empty one. It takes no memory.
fn taken(alloc: Global, text: &mut String) -> String
    ensures { result ≡ text.old }
{
    mem::replace(text, String::new(alloc))
}

/// The code, which is replaced by an empty one, with the bytes of its scope.
fn owned_code(alloc: Global, code: &mut JavaScriptCodeWithScope) -> Result<RawBson>
    ensures { BecomesRawBson
        (code_with_scope (string_bytes code.old.code)
        (entries (with_trees (pairs_of code.old.scope))))
        result }
{
    let scope = RawDocumentBuf::from_document(alloc, &code.scope)?;
    let code = taken(alloc, &mut code.code);
    Ok(RawBson::JavaScriptCodeWithScope(RawJavaScriptCodeWithScope { code, scope }))
}

impl RawBson {
    /// The value as a tree. A nested document, an array and a scope are read as by `document_from_raw` and
    /// `list_from_raw`; if that fails, with their first fault or out of memory, the value is dropped. Every other
    /// value is moved as it is, even the options of a regular expression, and takes no memory. The value has
    /// exactly one tree or exactly one first fault.
    /// ```
    /// assert_eq!(rt; RawBson::from(7).into_bson(alloc)?, Bson::Int32(7));
    /// ```
    pub fn into_bson(self, alloc: Global) -> Result<Bson>
        ensures becomes { BecomesBson (owned_value self) result }
        ensures one_reading { BecomesOneTree (owned_value self) }
    {
        attest_one_tree(&self);
        match self {
            RawBson::Double(x) => Ok(Bson::Double(x)),
            RawBson::String(x) => Ok(Bson::String(x)),
            RawBson::Array(x) => Ok(Bson::Array(list_from_raw(alloc, x.as_ref())?)),
            RawBson::Document(x) => Ok(Bson::Document(x.into_document()?)),
            RawBson::Boolean(x) => Ok(Bson::Boolean(x)),
            RawBson::Null => Ok(Bson::Null),
            RawBson::RegularExpression(x) => Ok(Bson::RegularExpression(x)),
            RawBson::JavaScriptCode(x) => Ok(Bson::JavaScriptCode(x)),
            RawBson::JavaScriptCodeWithScope(x) => {
                let scope = x.scope.into_document()?;
                let code = x.code;
                Ok(Bson::JavaScriptCodeWithScope(JavaScriptCodeWithScope { code, scope }))
            }
            RawBson::Int32(x) => Ok(Bson::Int32(x)),
            RawBson::Int64(x) => Ok(Bson::Int64(x)),
            RawBson::Timestamp(x) => Ok(Bson::Timestamp(x)),
            RawBson::Binary(x) => Ok(Bson::Binary(x)),
            RawBson::ObjectId(x) => Ok(Bson::ObjectId(x)),
            RawBson::DateTime(x) => Ok(Bson::DateTime(x)),
            RawBson::Symbol(x) => Ok(Bson::Symbol(x)),
            RawBson::Decimal128(x) => Ok(Bson::Decimal128(x)),
            RawBson::Undefined => Ok(Bson::Undefined),
            RawBson::MaxKey => Ok(Bson::MaxKey),
            RawBson::MinKey => Ok(Bson::MinKey),
            RawBson::DbPointer(x) => Ok(Bson::DbPointer(x)),
        }
    }

    /// A tree as a value that owns its bytes. A document, a list and a scope are written as by `encode`; if that
    /// fails, the value is dropped. The count of an array is the length of the list. Every other value is moved as
    /// it is and takes no memory.
    pub fn try_from_bson(alloc: Global, mut value: Bson) -> Result<RawBson>
        ensures { BecomesRawBson (tree_of value) result }
    {
        match &mut value {
            Bson::Double(x) => Ok(RawBson::Double(*x)),
            Bson::String(x) => Ok(RawBson::String(taken(alloc, x))),
            Bson::Array(x) => owned_array(alloc, x),
            Bson::Document(x) => owned_document(alloc, x),
            Bson::Boolean(x) => Ok(RawBson::Boolean(*x)),
            Bson::Null => Ok(RawBson::Null),
            Bson::RegularExpression(x) => Ok(RawBson::RegularExpression(Regex {
                pattern: taken(alloc, &mut x.pattern),
                options: taken(alloc, &mut x.options),
            })),
            Bson::JavaScriptCode(x) => Ok(RawBson::JavaScriptCode(taken(alloc, x))),
            Bson::JavaScriptCodeWithScope(x) => owned_code(alloc, x),
            Bson::Int32(x) => Ok(RawBson::Int32(*x)),
            Bson::Int64(x) => Ok(RawBson::Int64(*x)),
            Bson::Timestamp(x) => Ok(RawBson::Timestamp(*x)),
            Bson::Binary(x) => Ok(RawBson::Binary(Binary {
                subtype: x.subtype,
                bytes: mem::replace(&mut x.bytes, Vec::new(alloc)),
            })),
            Bson::ObjectId(x) => Ok(RawBson::ObjectId(*x)),
            Bson::DateTime(x) => Ok(RawBson::DateTime(*x)),
            Bson::Symbol(x) => Ok(RawBson::Symbol(taken(alloc, x))),
            Bson::Decimal128(x) => Ok(RawBson::Decimal128(*x)),
            Bson::Undefined => Ok(RawBson::Undefined),
            Bson::MaxKey => Ok(RawBson::MaxKey),
            Bson::MinKey => Ok(RawBson::MinKey),
            Bson::DbPointer(x) => Ok(RawBson::DbPointer(DbPointer {
                namespace: taken(alloc, &mut x.namespace),
                id: x.id,
            })),
        }
    }
}
