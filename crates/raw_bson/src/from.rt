//! Owned values from their parts.
ghost use Rattle.std.specs.Prelude.{◌≡◌};
ghost use Rattle.raw_bson.specs.declared.bson.RawBson.TheVariants as own;

use crate::array_buf::RawArrayBuf;
use crate::bson::{RawBson, RawJavaScriptCodeWithScope};
use crate::document_buf::RawDocumentBuf;
use bson_model::{Binary, DateTime, DbPointer, Decimal128, DoubleBits, ObjectId, Regex, Timestamp};

impl From<i32> for RawBson {
    ghost from_gives = { λ x r. r ≡ own.Int32 x };

    fn from(value: i32) -> RawBson {
        RawBson::Int32(value)
    }
}

impl From<i64> for RawBson {
    ghost from_gives = { λ x r. r ≡ own.Int64 x };

    fn from(value: i64) -> RawBson {
        RawBson::Int64(value)
    }
}

impl From<String> for RawBson {
    ghost from_gives = { λ x r. r ≡ own.String x };

    fn from(value: String) -> RawBson {
        RawBson::String(value)
    }
}

impl From<DoubleBits> for RawBson {
    ghost from_gives = { λ x r. r ≡ own.Double x };

    fn from(value: DoubleBits) -> RawBson {
        RawBson::Double(value)
    }
}

impl From<bool> for RawBson {
    ghost from_gives = { λ x r. r ≡ own.Boolean x };

    fn from(value: bool) -> RawBson {
        RawBson::Boolean(value)
    }
}

impl From<RawDocumentBuf> for RawBson {
    ghost from_gives = { λ x r. r ≡ own.Document x };

    fn from(value: RawDocumentBuf) -> RawBson {
        RawBson::Document(value)
    }
}

impl From<RawArrayBuf> for RawBson {
    ghost from_gives = { λ x r. r ≡ own.Array x };

    fn from(value: RawArrayBuf) -> RawBson {
        RawBson::Array(value)
    }
}

impl From<DateTime> for RawBson {
    ghost from_gives = { λ x r. r ≡ own.DateTime x };

    fn from(value: DateTime) -> RawBson {
        RawBson::DateTime(value)
    }
}

impl From<Timestamp> for RawBson {
    ghost from_gives = { λ x r. r ≡ own.Timestamp x };

    fn from(value: Timestamp) -> RawBson {
        RawBson::Timestamp(value)
    }
}

impl From<ObjectId> for RawBson {
    ghost from_gives = { λ x r. r ≡ own.ObjectId x };

    fn from(value: ObjectId) -> RawBson {
        RawBson::ObjectId(value)
    }
}

impl From<Decimal128> for RawBson {
    ghost from_gives = { λ x r. r ≡ own.Decimal128 x };

    fn from(value: Decimal128) -> RawBson {
        RawBson::Decimal128(value)
    }
}

impl From<RawJavaScriptCodeWithScope> for RawBson {
    ghost from_gives = { λ x r. r ≡ own.JavaScriptCodeWithScope x };

    fn from(value: RawJavaScriptCodeWithScope) -> RawBson {
        RawBson::JavaScriptCodeWithScope(value)
    }
}

impl From<Binary> for RawBson {
    ghost from_gives = { λ x r. r ≡ own.Binary x };

    fn from(value: Binary) -> RawBson {
        RawBson::Binary(value)
    }
}

impl From<Regex> for RawBson {
    ghost from_gives = { λ x r. r ≡ own.RegularExpression x };

    fn from(value: Regex) -> RawBson {
        RawBson::RegularExpression(value)
    }
}

impl From<DbPointer> for RawBson {
    ghost from_gives = { λ x r. r ≡ own.DbPointer x };

    fn from(value: DbPointer) -> RawBson {
        RawBson::DbPointer(value)
    }
}
