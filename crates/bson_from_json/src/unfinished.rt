//! A document with open levels, whose lengths have their places among its bytes.
ghost use Rattle.std.specs.Prelude.{◌≤◌, length};
ghost use Rattle.raw_view.specs.Frame.Number.{max_length};
ghost use Rattle.bson_from_json.specs.Placed.{ArePlaced};

use crate::levels::Level;
use raw_tree::Limits;

/// The bytes of a document that isn't complete yet.
#[derive(Drop)]
pub(crate) struct Unfinished<'a> {
    pub(crate) bytes: Vec<u8>,
    pub(crate) levels: Vec<Level<'a>>,
    pub(crate) limits: Limits,
    ghost placed: { ArePlaced (length bytes.items) levels.items },
    ghost few: { length bytes.items ≤ limits.bytes },
    ghost fits: { limits.bytes ≤ max_length },
}
