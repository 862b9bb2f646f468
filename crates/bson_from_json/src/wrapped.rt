//! The values of wrappers, each after its first key, as bytes of the document.
#![tactic(auto, using(crate::proofs::Left::one_taken, crate::proofs::Left::some_taken, crate::proofs::Left::leaf_less))]

ghost use Rattle.std.specs.Prelude.{◌≡◌, ◌≢◌, ◌≤◌, ◌∷◌, [], IfErr, OnOk, codes};
ghost use Rattle.bson_model.specs.Leaf.{binary};
ghost use Rattle.bson_model.specs.Subtype.{subtype_of};
ghost use Rattle.raw_view.specs.Meaning.{single};
ghost use Rattle.json.specs.Token.{begin_object, key as key_token, string};
ghost use Rattle.bson_from_json.specs.Ends.{KeepsValue, RefusesValue, StopsLeaf, StopsValue};
ghost use Rattle.bson_from_json.specs.Left.{left_of};
ghost use Rattle.bson_from_json.specs.Levels.{Puts, TakesLeaf, TakesValue};
ghost use Rattle.values_from_json.specs.Keys.{wrapper_key};
ghost use Rattle.values_from_json.specs.declared.wrapper.Wrapper.TheVariants.{Binary, Code, Scope};

use crate::levels::Holder;
use crate::reading::Reader;
use bson_model::{BinarySubtype, DateTime, Decimal128, DoubleBits, ObjectId, Regex, Timestamp};
use json::Token;
use raw_view::{RawBinaryRef, RawBsonRef, RawDbPointerRef, RawRegexRef};
use values_from_json::{JsonReason, Wanted, Wrapper};

impl Reader<'_> {
    /// Takes the value of a wrapper and its brace, or the beginning of one that is a level, and puts it under a key.
    pub(crate) fn wrapped(&mut self, wrapper: Wrapper, key: &str) -> Result<(), JsonReason>
        ensures less { OnOk result (left_of self.new ≤ left_of self.old) }
        ensures rest { OnOk result (TakesValue self.old self.new key.now (begin_object ∷ key_token (wrapper_key wrapper) ∷ [])) }
        ensures keeps { OnOk result (KeepsValue self.old self.new key.now (begin_object ∷ key_token (wrapper_key wrapper) ∷ [])) }
        ensures stops { IfErr result (StopsValue self.old key.now (begin_object ∷ key_token (wrapper_key wrapper) ∷ [])) }
    {
        match wrapper {
            Wrapper::Code => return self.code(key),
            Wrapper::Scope => return self.scope_before_code(key),
            Wrapper::Binary => return self.binary(key),
            _ => self.leaf(wrapper, key)?,
        }
        self.source.end(wrapper)
    }

    /// Takes the value of a wrapper that holds no others, and puts it under a key.
    fn leaf(&mut self, wrapper: Wrapper, key: &str) -> Result<(), JsonReason>
        requires no_code { wrapper ≢ Code }
        requires no_scope { wrapper ≢ Scope }
        requires no_binary { wrapper ≢ Binary }
        ensures some { OnOk result (TakesLeaf self.old self.new (wrapper_key wrapper) key.now) }
        ensures stops { IfErr result (StopsLeaf self.old (wrapper_key wrapper) key.now) }
    {
        match wrapper {
            Wrapper::Oid => self.oid(key),
            Wrapper::NumberInt => self.int32(key),
            Wrapper::NumberLong => self.int64(key),
            Wrapper::NumberDouble => self.double(key),
            Wrapper::NumberDecimal => self.decimal(key),
            Wrapper::Uuid => self.uuid(key),
            Wrapper::Date => self.date(key),
            Wrapper::RegularExpression => self.regular_expression(key),
            Wrapper::Timestamp => self.timestamp(key),
            Wrapper::DbPointer => self.db_pointer(key),
            Wrapper::Symbol => self.symbol(key),
            Wrapper::Undefined => self.undefined(key),
            Wrapper::MinKey => self.min_key(key),
            Wrapper::MaxKey => self.max_key(key),
            Wrapper::Code | Wrapper::Scope | Wrapper::Binary => unreachable!(),
        }
    }

    fn oid(&mut self, key: &str) -> Result<(), JsonReason>
        ensures some { OnOk result (TakesLeaf self.old self.new (codes "$oid") key.now) }
        ensures stops { IfErr result (StopsLeaf self.old (codes "$oid") key.now) }
    {
        let id = self.source.id()?;
        self.put(key, RawBsonRef::ObjectId(ObjectId::from_bytes(id)))
    }

    fn int32(&mut self, key: &str) -> Result<(), JsonReason>
        ensures some { OnOk result (TakesLeaf self.old self.new (codes "$numberInt") key.now) }
        ensures stops { IfErr result (StopsLeaf self.old (codes "$numberInt") key.now) }
    {
        let value = self.source.int32()?;
        self.put(key, RawBsonRef::Int32(value))
    }

    fn int64(&mut self, key: &str) -> Result<(), JsonReason>
        ensures some { OnOk result (TakesLeaf self.old self.new (codes "$numberLong") key.now) }
        ensures stops { IfErr result (StopsLeaf self.old (codes "$numberLong") key.now) }
    {
        let value = self.source.int64()?;
        self.put(key, RawBsonRef::Int64(value))
    }

    fn double(&mut self, key: &str) -> Result<(), JsonReason>
        ensures some { OnOk result (TakesLeaf self.old self.new (codes "$numberDouble") key.now) }
        ensures stops { IfErr result (StopsLeaf self.old (codes "$numberDouble") key.now) }
    {
        let bits = self.source.double()?;
        self.put(key, RawBsonRef::Double(DoubleBits(bits)))
    }

    fn decimal(&mut self, key: &str) -> Result<(), JsonReason>
        ensures some { OnOk result (TakesLeaf self.old self.new (codes "$numberDecimal") key.now) }
        ensures stops { IfErr result (StopsLeaf self.old (codes "$numberDecimal") key.now) }
    {
        let bytes = self.source.decimal()?;
        self.put(key, RawBsonRef::Decimal128(Decimal128::from_bytes(bytes)))
    }

    fn uuid(&mut self, key: &str) -> Result<(), JsonReason>
        ensures some { OnOk result (TakesLeaf self.old self.new (codes "$uuid") key.now) }
        ensures stops { IfErr result (StopsLeaf self.old (codes "$uuid") key.now) }
    {
        let bytes = self.source.uuid()?;
        let binary = RawBinaryRef {
            subtype: BinarySubtype::Uuid,
            bytes: &bytes,
        };
        self.put(key, RawBsonRef::Binary(binary))
    }

    fn date(&mut self, key: &str) -> Result<(), JsonReason>
        ensures some { OnOk result (TakesLeaf self.old self.new (codes "$date") key.now) }
        ensures stops { IfErr result (StopsLeaf self.old (codes "$date") key.now) }
    {
        let millis = self.source.date()?;
        self.put(key, RawBsonRef::DateTime(DateTime::from_millis(millis)))
    }

    fn undefined(&mut self, key: &str) -> Result<(), JsonReason>
        ensures some { OnOk result (TakesLeaf self.old self.new (codes "$undefined") key.now) }
        ensures stops { IfErr result (StopsLeaf self.old (codes "$undefined") key.now) }
    {
        self.source.undefined()?;
        self.put(key, RawBsonRef::Undefined)
    }

    fn min_key(&mut self, key: &str) -> Result<(), JsonReason>
        ensures some { OnOk result (TakesLeaf self.old self.new (codes "$minKey") key.now) }
        ensures stops { IfErr result (StopsLeaf self.old (codes "$minKey") key.now) }
    {
        self.source.one(Wrapper::MinKey)?;
        self.put(key, RawBsonRef::MinKey)
    }

    fn max_key(&mut self, key: &str) -> Result<(), JsonReason>
        ensures some { OnOk result (TakesLeaf self.old self.new (codes "$maxKey") key.now) }
        ensures stops { IfErr result (StopsLeaf self.old (codes "$maxKey") key.now) }
    {
        self.source.one(Wrapper::MaxKey)?;
        self.put(key, RawBsonRef::MaxKey)
    }

    fn symbol(&mut self, key: &str) -> Result<(), JsonReason>
        ensures some { OnOk result (TakesLeaf self.old self.new (codes "$symbol") key.now) }
        ensures stops { IfErr result (StopsLeaf self.old (codes "$symbol") key.now) }
    {
        let text = self.source.text(Wrapper::Symbol)?;
        self.put(key, RawBsonRef::Symbol(text))
    }

    fn timestamp(&mut self, key: &str) -> Result<(), JsonReason>
        ensures some { OnOk result (TakesLeaf self.old self.new (codes "$timestamp") key.now) }
        ensures stops { IfErr result (StopsLeaf self.old (codes "$timestamp") key.now) }
    {
        let (time, increment) = self.source.timestamp()?;
        self.put(key, RawBsonRef::Timestamp(Timestamp { time, increment }))
    }

    /// Takes what follows the key `$binary`, the first of an object, and puts the binary under a key.
    fn binary(&mut self, key: &str) -> Result<(), JsonReason>
        ensures less { OnOk result (left_of self.new ≤ left_of self.old) }
        ensures rest { OnOk result (TakesValue self.old self.new key.now (begin_object ∷ key_token (codes "$binary") ∷ [])) }
        ensures keeps { OnOk result (KeepsValue self.old self.new key.now (begin_object ∷ key_token (codes "$binary") ∷ [])) }
        ensures stops { IfErr result (StopsValue self.old key.now (begin_object ∷ key_token (codes "$binary") ∷ [])) }
    {
        let (bytes, subtype) = self.source.binary(self.alloc)?;
        self.put_binary(key, &bytes, subtype)
    }

    /// Takes what follows the key `$binary`, the second of an object after `$type` and these digits, and puts the
    /// binary under a key.
    pub(crate) fn binary_behind_type(&mut self, key: &str, digits: &str) -> Result<(), JsonReason>
        ensures less { OnOk result (left_of self.new ≤ left_of self.old) }
        ensures rest { OnOk result (TakesValue self.old self.new key.now (begin_object ∷ key_token (codes "$type") ∷ string digits.now ∷ key_token (codes "$binary") ∷ [])) }
        ensures keeps { OnOk result (KeepsValue self.old self.new key.now (begin_object ∷ key_token (codes "$type") ∷ string digits.now ∷ key_token (codes "$binary") ∷ [])) }
        ensures stops { IfErr result (StopsValue self.old key.now (begin_object ∷ key_token (codes "$type") ∷ string digits.now ∷ key_token (codes "$binary") ∷ [])) }
    {
        let (bytes, subtype) = self.source.binary_behind_type(self.alloc, digits)?;
        self.put_binary(key, &bytes, subtype)
    }

    /// Puts a binary under a key.
    fn put_binary(&mut self, key: &str, bytes: &[u8], subtype: u8) -> Result<(), JsonReason>
        ensures source { self.new.source ≡ self.old.source }
        ensures puts { OnOk result (Puts self.old self.new key.now (single (binary (subtype_of subtype) bytes.now))) }
        ensures refused { IfErr result (RefusesValue self.old.document key.now (single (binary (subtype_of subtype) bytes.now))) }
    {
        let binary = RawBinaryRef {
            subtype: BinarySubtype::from_u8(subtype),
            bytes,
        };
        self.put(key, RawBsonRef::Binary(binary))
    }

    /// Takes a pattern and options, and puts the options in order.
    fn regular_expression(&mut self, key: &str) -> Result<(), JsonReason>
        ensures some { OnOk result (TakesLeaf self.old self.new (codes "$regularExpression") key.now) }
        ensures stops { IfErr result (StopsLeaf self.old (codes "$regularExpression") key.now) }
    {
        let (pattern, options) = self.source.regular_expression()?;
        let Ok(regex) = Regex::new(self.alloc, pattern, options) else {
            return Err(JsonReason::OutOfMemory);
        };
        let regex = RawRegexRef {
            pattern: regex.pattern.as_str(),
            options: regex.options.as_str(),
        };
        self.put(key, RawBsonRef::RegularExpression(regex))
    }

    fn db_pointer(&mut self, key: &str) -> Result<(), JsonReason>
        ensures some { OnOk result (TakesLeaf self.old self.new (codes "$dbPointer") key.now) }
        ensures stops { IfErr result (StopsLeaf self.old (codes "$dbPointer") key.now) }
    {
        let (namespace, id) = self.source.db_pointer()?;
        let pointer = RawDbPointerRef::new(namespace, ObjectId::from_bytes(id));
        self.put(key, RawBsonRef::DbPointer(pointer))
    }

    /// Takes a code, and the opening brace of its scope if that comes after it.
    fn code(&mut self, key: &str) -> Result<(), JsonReason>
        ensures less { OnOk result (left_of self.new ≤ left_of self.old) }
        ensures rest { OnOk result (TakesValue self.old self.new key.now (begin_object ∷ key_token (codes "$code") ∷ [])) }
        ensures keeps { OnOk result (KeepsValue self.old self.new key.now (begin_object ∷ key_token (codes "$code") ∷ [])) }
        ensures stops { IfErr result (StopsValue self.old key.now (begin_object ∷ key_token (codes "$code") ∷ [])) }
    {
        let wrapper = Wrapper::Code;
        let code = self.source.text(wrapper)?;
        match self.source.token(Wanted::Part(wrapper))? {
            Token::EndObject => self.put(key, RawBsonRef::JavaScriptCode(code)),
            Token::Key("$scope") => self.scope_behind_code(key, code),
            Token::String(_) => Err(self.source.fault(Wanted::End(wrapper))),
            _ => Err(JsonReason::Malformed(wrapper)),
        }
    }

    /// Takes the opening brace of a scope after its code and its key.
    fn scope_behind_code(&mut self, key: &str, code: &str) -> Result<(), JsonReason>
        ensures less { OnOk result (left_of self.new ≤ left_of self.old) }
        ensures rest { OnOk result (TakesValue self.old self.new key.now (begin_object ∷ key_token (codes "$code") ∷ string code.now ∷ key_token (codes "$scope") ∷ [])) }
        ensures keeps { OnOk result (KeepsValue self.old self.new key.now (begin_object ∷ key_token (codes "$code") ∷ string code.now ∷ key_token (codes "$scope") ∷ [])) }
        ensures stops { IfErr result (StopsValue self.old key.now (begin_object ∷ key_token (codes "$code") ∷ string code.now ∷ key_token (codes "$scope") ∷ [])) }
    {
        self.source.begin(Wrapper::Code)?;
        let start = self.document.put_code_head(key)?;
        self.document.put_string(code)?;
        self.document.open(Holder::Scope(start))
    }

    /// Takes the opening brace of a scope whose code comes after it.
    fn scope_before_code(&mut self, key: &str) -> Result<(), JsonReason>
        ensures less { OnOk result (left_of self.new ≤ left_of self.old) }
        ensures rest { OnOk result (TakesValue self.old self.new key.now (begin_object ∷ key_token (codes "$scope") ∷ [])) }
        ensures keeps { OnOk result (KeepsValue self.old self.new key.now (begin_object ∷ key_token (codes "$scope") ∷ [])) }
        ensures stops { IfErr result (StopsValue self.old key.now (begin_object ∷ key_token (codes "$scope") ∷ [])) }
    {
        self.source.begin(Wrapper::Scope)?;
        let start = self.document.put_code_head(key)?;
        self.document.open(Holder::ScopeBeforeCode(start))
    }
}
