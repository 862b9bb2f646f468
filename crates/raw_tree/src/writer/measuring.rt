//! Measures a tree before it is written: whether a C string in it contains a 0, and how many bytes it takes.
#![tactic(auto, using(std::proofs::lemmas::Grind::common_steps, bson_model::proofs::Face::tree_laws))]

ghost use Rattle.std.specs.Prelude.{◌≡◌, ◌+◌};
ghost use Rattle.bson_model.specs.Leaf.{Leaf};
ghost use Rattle.bson_model.specs.Tree.{leaf};
ghost use Rattle.raw_tree.specs.writer.Encoding.{Measures};
ghost use Rattle.raw_tree.specs.writer.Members.{opening_len, tree_of_container};
ghost use Rattle.raw_view.specs.Meaning.{single};
ghost use Rattle.raw_view.specs.Meaning.Value.{value_of};

use crate::put::payload::{is_value_nul_free, payload_len};
use crate::writer::members::{Container, Members, Shown, key_len, show};
use raw_view::RawBsonRef;
use std::alloc::Global;

/// The length of the payload of the value, or `None` if its pattern or options contain a 0.
#[inline(always)]
fn measure_leaf(value: RawBsonRef<'_>) -> Option<usize>
    ensures { (l : Leaf) → value_of value.entry ≡ single l → Measures (leaf l) result }
{
    if !is_value_nul_free(value) {
        return None;
    }
    Some(payload_len(value))
}

/// The length of the payload of the container without its members.
#[inline(always)]
fn frame_len(container: Container<'_>) -> usize
    ensures { result ≡ opening_len (tree_of_container container.entry) + 1 }
{
    match container {
        Container::Document(_) | Container::Array(_) => 5,
        Container::Code(code) => code.code.len() + 14,
    }
}

/// The length of the payload of the container, or the greatest `usize` if it is more. `None` if and only if a
/// key, a pattern or options in it contain a 0. The containers around the one that is being measured wait in
/// memory. If there is no memory for one more, it is measured by a call of its own, with all the memory that
/// is left. So running out of memory changes no result.
pub(crate) fn measure(alloc: Global, container: Container<'_>) -> Option<usize>
    ensures { Measures (tree_of_container container.entry) result }
{
    let mut waiting: Vec<Members<'_>> = Vec::new(alloc);
    let mut members = Members::of(container);
    let mut total = frame_len(container);
    'members: loop {
        let Some((key, value)) = members.next() else {
            let Some(outer) = waiting.pop() else {
                return Some(total);
            };
            members = outer;
            continue 'members;
        };
        let key_len = key_len(key)?;
        let len = match show(value) {
            Shown::Leaf(leaf) => measure_leaf(leaf)?,
            Shown::Container(inner) => {
                if waiting.push(members).is_ok() {
                    members = Members::of(inner);
                    frame_len(inner)
                } else {
                    measure(alloc, inner)?
                }
            }
        };
        total = total
            .saturating_add(2)
            .saturating_add(key_len)
            .saturating_add(len);
    }
}
