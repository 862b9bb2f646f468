//! JSON numbers.
#![tactic(auto)]

ghost use Rattle.std.specs.Prelude.{◌≡◌, IfErr, OnOk};
ghost use Rattle.bson_model.specs.Leaf.{Leaf};
ghost use Rattle.bson_from_json.specs.Levels.{Puts};
ghost use Rattle.values_from_json.specs.Numbers.{IsPlain, is_fractional};
ghost use Rattle.bson_from_json.specs.Ends.{StopsPlain};
ghost use Rattle.raw_view.specs.Meaning.{single};

use crate::reading::Reader;
use bson_model::DoubleBits;
use raw_view::RawBsonRef;
use values_from_json::{JsonReason, double_of, integer_of};

/// Whether a JSON number has a fraction or an exponent.
fn is_fractional(text: &[u8]) -> bool
    ensures { result ≡ is_fractional text.now }
{
    text.iter()
        .any(|byte| *byte == b'.' || *byte == b'e' || *byte == b'E')
}

impl Reader<'_> {
    /// Puts a number without a wrapper under a key: an integer if it has no fraction and no exponent, otherwise a
    /// double.
    pub(crate) fn number(&mut self, key: &str, text: &str) -> Result<(), JsonReason>
        ensures source { self.new.source ≡ self.old.source }
        ensures puts { OnOk result ((l : Leaf) × IsPlain text.now l × Puts self.old self.new key.now (single l)) }
        ensures stops { IfErr result (StopsPlain self.old text.now key.now) }
    {
        if is_fractional(text.as_bytes()) {
            return match double_of(text) {
                Some(bits) => self.put(key, RawBsonRef::Double(DoubleBits(bits))),
                None => Err(JsonReason::NumberTooLarge),
            };
        }
        let Some(integer) = integer_of(text.as_bytes()) else {
            return Err(JsonReason::IntegerTooLarge);
        };
        match i32::try_from(integer) {
            Ok(small) => self.put(key, RawBsonRef::Int32(small)),
            Err(_) => self.put(key, RawBsonRef::Int64(integer)),
        }
    }
}
