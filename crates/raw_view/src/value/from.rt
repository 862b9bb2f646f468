//! Borrowed values from their parts.
ghost use Rattle.std.specs.Prelude.{◌≡◌};
ghost use Rattle.raw_view.specs.declared.bson_ref.RawBsonRef.TheVariants as ref;

use crate::array::RawArray;
use crate::bson_ref::{RawBinaryRef, RawBsonRef, RawJavaScriptCodeWithScopeRef, RawRegexRef};
use crate::document::RawDocument;
use bson_model::{Binary, DateTime, Decimal128, DoubleBits, ObjectId, Timestamp};

impl<'a> From<i32> for RawBsonRef<'a> {
    ghost from_gives = { λ x r. r ≡ ref.Int32 x };

    fn from(value: i32) -> RawBsonRef<'a> {
        RawBsonRef::Int32(value)
    }
}

impl<'a> From<i64> for RawBsonRef<'a> {
    ghost from_gives = { λ x r. r ≡ ref.Int64 x };

    fn from(value: i64) -> RawBsonRef<'a> {
        RawBsonRef::Int64(value)
    }
}

impl<'a> From<&'a str> for RawBsonRef<'a> {
    ghost from_gives = { λ x r. r ≡ ref.String x };

    fn from(value: &'a str) -> RawBsonRef<'a> {
        RawBsonRef::String(value)
    }
}

impl<'a> From<bool> for RawBsonRef<'a> {
    ghost from_gives = { λ x r. r ≡ ref.Boolean x };

    fn from(value: bool) -> RawBsonRef<'a> {
        RawBsonRef::Boolean(value)
    }
}

impl<'a> From<DoubleBits> for RawBsonRef<'a> {
    ghost from_gives = { λ x r. r ≡ ref.Double x };

    fn from(value: DoubleBits) -> RawBsonRef<'a> {
        RawBsonRef::Double(value)
    }
}

impl<'a> From<DateTime> for RawBsonRef<'a> {
    ghost from_gives = { λ x r. r ≡ ref.DateTime x };

    fn from(value: DateTime) -> RawBsonRef<'a> {
        RawBsonRef::DateTime(value)
    }
}

impl<'a> From<Timestamp> for RawBsonRef<'a> {
    ghost from_gives = { λ x r. r ≡ ref.Timestamp x };

    fn from(value: Timestamp) -> RawBsonRef<'a> {
        RawBsonRef::Timestamp(value)
    }
}

impl<'a> From<ObjectId> for RawBsonRef<'a> {
    ghost from_gives = { λ x r. r ≡ ref.ObjectId x };

    fn from(value: ObjectId) -> RawBsonRef<'a> {
        RawBsonRef::ObjectId(value)
    }
}

impl<'a> From<Decimal128> for RawBsonRef<'a> {
    ghost from_gives = { λ x r. r ≡ ref.Decimal128 x };

    fn from(value: Decimal128) -> RawBsonRef<'a> {
        RawBsonRef::Decimal128(value)
    }
}

impl<'a> From<RawDocument<'a>> for RawBsonRef<'a> {
    ghost from_gives = { λ x r. r ≡ ref.Document x };

    fn from(value: RawDocument<'a>) -> RawBsonRef<'a> {
        RawBsonRef::Document(value)
    }
}

impl<'a> From<RawArray<'a>> for RawBsonRef<'a> {
    ghost from_gives = { λ x r. r ≡ ref.Array x };

    fn from(value: RawArray<'a>) -> RawBsonRef<'a> {
        RawBsonRef::Array(value)
    }
}

impl<'a> From<RawBinaryRef<'a>> for RawBsonRef<'a> {
    ghost from_gives = { λ x r. r ≡ ref.Binary x };

    fn from(value: RawBinaryRef<'a>) -> RawBsonRef<'a> {
        RawBsonRef::Binary(value)
    }
}

impl<'a> From<RawRegexRef<'a>> for RawBsonRef<'a> {
    ghost from_gives = { λ x r. r ≡ ref.RegularExpression x };

    fn from(value: RawRegexRef<'a>) -> RawBsonRef<'a> {
        RawBsonRef::RegularExpression(value)
    }
}

impl<'a> From<RawJavaScriptCodeWithScopeRef<'a>> for RawBsonRef<'a> {
    ghost from_gives = { λ x r. r ≡ ref.JavaScriptCodeWithScope x };

    fn from(value: RawJavaScriptCodeWithScopeRef<'a>) -> RawBsonRef<'a> {
        RawBsonRef::JavaScriptCodeWithScope(value)
    }
}

impl<'a> From<&'a Binary> for RawBsonRef<'a> {
    ghost use Rattle.raw_view.specs.Meaning.{single};
    ghost use Rattle.raw_view.specs.Meaning.Value.{value_of};
    ghost use Rattle.bson_model.specs.Leaf.{binary};

    ghost from_gives = { λ x r. value_of r ≡ single (binary x.now.subtype x.now.bytes.items) };

    fn from(value: &'a Binary) -> RawBsonRef<'a> {
        RawBsonRef::Binary(RawBinaryRef {
            subtype: value.subtype,
            bytes: &value.bytes,
        })
    }
}
