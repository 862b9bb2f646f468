//! Trees from bytes.
#![tactic(auto, using(std::proofs::lemmas::Grind::common_steps, bson_model::proofs::Face::tree_laws))]

ghost use Rattle.std.specs.Prelude.{◌≡◌, ◌≤◌, ◌-◌, ◌/◌, length, IfOk, IfErr};
ghost use Rattle.bson_model.specs.Tree.{tree_of, tree_of_document, tree_of_list};
ghost use Rattle.raw_tree.specs.CanonicalForm.{AllAreSpelledOneWay};
ghost use Rattle.raw_tree.specs.reader.FrameCount.{AllAreCountedOneWay, AllHaveOneFrameCount, TellsFrames};
ghost use Rattle.raw_tree.specs.reader.Levels.{AreRead, TellsReading};
ghost use Rattle.raw_tree.specs.reader.Reading.{as_array, as_document, AllAreReadOneWay, FrameStandsFor, IsFrameReadOneWay, IsValueReadOneWay, Reads, ReadsAs, StandsFor, TellsFirstFault, TellsFirstFaultOfFrame, TellsFirstFaultOfValue};
ghost use Rattle.raw_view.specs.Document.{bytes_of};
ghost use Rattle.raw_view.specs.Frame.ElementSteps.{frame_of};
ghost use Rattle.raw_view.specs.Meaning.Value.{array_bytes_of, value_of};

pub(crate) mod levels;
pub(crate) mod limits;
pub(crate) mod steps;

use crate::reader::levels::{
    Contents, Draft, Waiting, begin, close, copied, finish, put_copied, put_ended,
};
use crate::reader::steps::Steps;
use crate::walk::depth::MostWaiting;
use crate::walk::level::Next;
use bson_model::{Bson, Document};
use raw_view::{
    Error, Holder, RawArray, RawBsonRef, RawDocument, RawElement, RawLevel, Reason, Result,
};
use std::alloc::Global;

/// The content of the bytes of `nested`. The bytes nested in them are read as levels of their own, each of
/// which is handed to the level that waits for it. A level deeper than `depth` isn't entered, and no memory
/// is requested for it.
pub(crate) fn read<'a>(
    alloc: Global,
    nested: RawLevel<'a>,
    depth: usize,
    steps: &mut Steps,
) -> Result<Contents<'a>>
    requires fresh { steps.old ≡ 0 }
    ensures { TellsReading depth nested.entry result steps.new }
{
    let Some(most_waiting) = MostWaiting::of(depth) else {
        return Err(Error::malformed(Reason::TooDeep));
    };
    let mut waiting: Vec<Waiting<'a>> = Vec::new(alloc);
    let mut spare = Draft::new(alloc);
    let mut level = begin(alloc, nested);
    'levels: loop {
        match steps.look(&mut level.elements) {
            Next::Fault(_, fault) => return Err(fault.into_error(alloc)),
            Next::End => {
                let Some(mut outer) = waiting.pop() else {
                    return finish(alloc, level.holder, &mut level.draft);
                };
                put_ended(alloc, level, &mut outer, &mut spare)?;
                level = outer.level;
            }
            Next::Inside(element, inner) => {
                if most_waiting.is_reached(waiting.len()) {
                    return Err(Error::malformed(Reason::TooDeep));
                }
                let key = element.key();
                waiting.push(Waiting { level, key })?;
                level = begin(alloc, inner);
            }
            Next::Whole(element, value) => {
                put_copied(alloc, &mut level, element.key(), value, &mut spare)?;
            }
        }
    }
}

/// The content of the bytes of `nested`, however deep they are: no document has `usize::MAX` levels.
fn read_all<'a>(alloc: Global, nested: RawLevel<'a>, steps: &mut Steps) -> Result<Contents<'a>>
    requires fresh { steps.old ≡ 0 }
    ensures tree { IfOk result (AreRead nested.entry.holder (bytes_of nested.entry.document)) }
    ensures fault { IfErr result (TellsFirstFault (bytes_of nested.entry.document)) }
    ensures count { TellsFrames (bytes_of nested.entry.document) result steps.new }
{
    read(alloc, nested, usize::MAX, steps)
}

/// The tree of a document: its pairs in order, a repeated key in its first place with its last value. It
/// fails if and only if there is a fault at any level, even in a value that a later one would replace, or if
/// memory runs out. The error is the first fault, depth first in byte order, with the key that this fault
/// itself has. Every document has exactly one tree or exactly one first fault. Its tree is written back as
/// its own bytes if and only if the document is canonical. BSON 1.1, `document`.
/// ```
/// let document = RawDocument::from_bytes(b"\x13\0\0\0\x10a\0\x01\0\0\0\x10a\0\x02\0\0\0\0")?;
/// let tree = document_from_raw(alloc, document)?;
/// assert_eq!(rt; tree.get("a"), Some(&Bson::Int32(2)));
/// ```
pub fn document_from_raw(alloc: Global, document: RawDocument<'_>) -> Result<Document>
    ensures tree { IfOk result (λ d. Reads (bytes_of document.entry) (tree_of_document d)) }
    ensures fault { IfErr result (TellsFirstFault (bytes_of document.entry)) }
    ensures one_reading { AllAreReadOneWay as_document }
    ensures one_spelling { AllAreSpelledOneWay as_document }
{
    let (tree, _) = document_from_raw_counted(alloc, document);
    tree
}

/// The result of `document_from_raw`, and how many elements were read for it at all levels. If it succeeds,
/// these are all elements of the document. At a fault these are the elements before it and the element that
/// has it, unless the fault is a stop. If memory ran out, these are no more than those. For n bytes the
/// number is at most (n - 4) / 2. BSON 1.1, `document`.
/// ```
/// let document = RawDocument::from_bytes(b"\x0C\0\0\0\x10a\0\x01\0\0\0\0")?;
/// let (tree, steps) = document_from_raw_counted(alloc, document);
/// assert!(rt; tree.is_ok() && steps.count() == 1);
/// ```
#[tactic(auto, using(std::proofs::lemmas::Grind::common_steps, bson_model::proofs::Face::tree_laws, crate::proofs::Laws::documents_read, crate::proofs::Forms::bytes_spelled_one_way, crate::proofs::reader::OneWay::counted_one_way, crate::proofs::reader::FrameCounts::one_frame_count, crate::proofs::reader::LevelSteps::tells_half))]
pub fn document_from_raw_counted(
    alloc: Global,
    document: RawDocument<'_>,
) -> (Result<Document>, Steps)
    ensures tree { IfOk result.0 (λ d. Reads (bytes_of document.entry) (tree_of_document d)) }
    ensures fault { IfErr result.0 (TellsFirstFault (bytes_of document.entry)) }
    ensures one_reading { AllAreReadOneWay as_document }
    ensures one_spelling { AllAreSpelledOneWay as_document }
    ensures count { TellsFrames (bytes_of document.entry) result.0 result.1 }
    ensures one_frame_count { AllHaveOneFrameCount }
    ensures one_count { AllAreCountedOneWay }
    ensures bound { result.1 ≤ (length (bytes_of document.entry) - 4) / 2 }
{
    let mut steps = Steps::new();
    let nested = RawLevel {
        document,
        holder: Holder::Document,
    };
    let tree = match read_all(alloc, nested, &mut steps) {
        Ok(Contents::Document(_, tree)) => Ok(tree),
        Ok(Contents::Array(_)) => unreachable!(),
        Err(error) => Err(error),
    };
    (tree, steps)
}

/// The values of an array in order, without its keys. It fails as `document_from_raw` does, and what holds of
/// every document there holds of every array here. BSON 1.1, `array`.
/// ```
/// let array = RawArray::from_doc(RawDocument::from_bytes(b"\x13\0\0\0\x10a\0\x01\0\0\0\x10b\0\x02\0\0\0\0")?);
/// let list = list_from_raw(alloc, array)?;
/// assert_eq!(rt; list.as_slice(), [Bson::Int32(1), Bson::Int32(2)].as_slice());
/// ```
#[tactic(auto, using(std::proofs::lemmas::Grind::common_steps, bson_model::proofs::Face::tree_laws, crate::proofs::Laws::arrays_read, crate::proofs::Forms::bytes_spelled_one_way))]
pub fn list_from_raw(alloc: Global, array: RawArray<'_>) -> Result<Vec<Bson>>
    ensures tree { IfOk result
        (λ list. ReadsAs as_array (array_bytes_of array.entry) (tree_of_list list.items)) }
    ensures fault { IfErr result (TellsFirstFault (array_bytes_of array.entry)) }
    ensures one_reading { AllAreReadOneWay as_array }
    ensures one_spelling { AllAreSpelledOneWay as_array }
{
    let nested = RawLevel {
        document: array.as_doc(),
        holder: Holder::Array,
    };
    match read_all(alloc, nested, &mut Steps::new())? {
        Contents::Array(list) => Ok(list),
        Contents::Document(..) => unreachable!(),
    }
}

/// A value that owns its parts: for a nested document, an array or a scope the tree of its bytes; for a
/// regular expression one with its options in ascending order. The error is the first fault of the nested
/// bytes, with the key that this fault itself has, or out of memory.
/// ```
/// assert_eq!(rt; bson_from_raw(alloc, RawBsonRef::Int32(7))?, Bson::Int32(7));
/// ```
#[tactic(auto, using(std::proofs::lemmas::Grind::common_steps, bson_model::proofs::Face::tree_laws, crate::proofs::reader::Loops::value_read))]
pub fn bson_from_raw(alloc: Global, value: RawBsonRef<'_>) -> Result<Bson>
    ensures tree { IfOk result (λ t. StandsFor ReadsAs (value_of value.entry) (tree_of t)) }
    ensures fault { IfErr result (TellsFirstFaultOfValue (value_of value.entry)) }
    ensures one_reading { IsValueReadOneWay (value_of value.entry) }
{
    match value.level() {
        None => copied(alloc, value),
        Some(nested) => close(alloc, read_all(alloc, nested, &mut Steps::new())?),
    }
}

/// The value of an element, with parts of its own, as `bson_from_raw` returns it. A fault of the payload
/// itself comes before any fault inside.
pub fn bson_from_element(alloc: Global, element: RawElement<'_>) -> Result<Bson>
    ensures tree { IfOk result (λ t. FrameStandsFor (frame_of element.entry) (tree_of t)) }
    ensures fault { IfErr result (TellsFirstFaultOfFrame (frame_of element.entry)) }
    ensures one_reading { IsFrameReadOneWay (frame_of element.entry) }
{
    let value = element.value(alloc)?;
    bson_from_raw(alloc, value)
}
