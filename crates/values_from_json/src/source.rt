//! The tokens of a text, and the values of wrappers that hold no others.
ghost use Rattle.std.specs.Prelude.{◌≡◌, ◌≢◌, ◌↔◌, IsTrue, ◌∷◌, [], ℕ, ℤ, List, Bool, Ok, IfOk, OnErr, OnOk, if◌then◌else◌, codes, ◌++◌, FitsSigned};
ghost use Rattle.hex.specs.Hex.{decode_sized};
ghost use Rattle.json.specs.Json.{string as JsonString};
ghost use Rattle.json.specs.Reads.{token_of};
ghost use Rattle.json.specs.Tree.{json_tokens};
ghost use Rattle.std.specs.Int.{w64};
ghost use Rattle.std.specs.Str.{IsUtf8};
ghost use Rattle.json.specs.Token.{Token as Taken, begin_object, end_object, key, string, number, boolean};
ghost use Rattle.bson_model.specs.Leaf.{binary, date_time, db_pointer, decimal128, double, int32, int64, timestamp};
ghost use Rattle.bson_model.specs.declared.binaries.BinarySubtype.TheVariants.{Uuid as UuidSubtype};
ghost use Rattle.values_from_json.specs.DecimalTexts.{IsQuotedDecimal};
ghost use Rattle.values_from_json.specs.Numbers.{WritesQuotedInteger, IsQuotedInt32, IsQuotedInt64, IsQuotedDouble};
ghost use Rattle.values_from_json.specs.Taken.{Takes, TakesToken, TakesTwo, LacksJson, LacksToken, NoToken, TakesNone, TakesNoTwo, pointed};
ghost use Rattle.values_from_json.specs.Wrapped.{InString, IsDate, IsDbPointer, IsTimestamp, IsUuid, WritesUnsigned};
ghost use Rattle.bson_model.specs.Bytes.{NulFree};

use crate::date::millis_of;
use crate::decimal::decimal_of;
use crate::error::JsonReason;
use crate::fault::{Wanted, fault_at};
use crate::leaves::{integer_of, oid_of, quoted_double_of, quoted_integer_of, uuid_of};
use crate::wrapper::Wrapper;
use json::{Reader as Tokens, Token};

/// A text whose tokens are read.
#[derive(Drop)]
pub struct Source<'a> {
    text: &'a [u8],
    /// the remaining tokens
    pub tokens: Tokens<'a>,
    /// where the last token begins, or what an error is about
    pub place: usize,
}

/// Whether a text contains no U+0000.
pub fn is_nul_free(text: &str) -> bool
    ensures text { IsUtf8 text.now }
    ensures nul_free { IsTrue result ↔ NulFree text.now }
{
    !text.as_bytes().contains(&0)
}

impl<'a> Source<'a> {
    pub fn new(text: &'a str, tokens: Tokens<'a>) -> Source<'a>
        ensures { result.tokens ≡ tokens.entry }
    {
        Source {
            text: text.as_bytes(),
            tokens,
            place: 0,
        }
    }

    /// Takes a token. Otherwise the error says what is there instead of what was wanted.
    pub fn token(&mut self, wanted: Wanted) -> Result<Token<'a>, JsonReason>
        ensures some { IfOk result (λ token. TakesToken self.old.tokens self.new.tokens (token_of token)) }
        ensures none { OnErr result (NoToken self.old.tokens) }
    {
        self.place = self.tokens.offset();
        match self.tokens.next() {
            None | Some(Token::Bad) => Err(self.fault(wanted)),
            Some(token) => Ok(token),
        }
    }

    /// Why what is at the place isn't what was wanted. The place is moved to what is wrong.
    #[cold]
    pub fn fault(&mut self, wanted: Wanted) -> JsonReason
        ensures { self.new.tokens ≡ self.old.tokens }
    {
        let fault = fault_at(self.text, self.place, wanted);
        self.place = self.text.len().saturating_sub(fault.left);
        fault.reason
    }

    /// Ok if no token is left, otherwise the error.
    pub fn end_of_text(&mut self) -> Result<(), JsonReason>
        ensures some { OnOk result (self.old.tokens ≡ []) }
        ensures none { OnErr result (self.old.tokens ≢ []) }
    {
        match self.tokens.next() {
            None => Ok(()),
            Some(_) => Err(self.fault(Wanted::EndOfText)),
        }
    }

    /// Takes the closing brace of a wrapper's object.
    pub fn end(&mut self, wrapper: Wrapper) -> Result<(), JsonReason>
        ensures some { OnOk result (TakesToken self.old.tokens self.new.tokens end_object) }
        ensures none { OnErr result (LacksToken self.old.tokens end_object) }
    {
        let place = self.tokens.offset();
        match self.tokens.next() {
            Some(Token::EndObject) => {
                self.place = place;
                Ok(())
            }
            _ => Err(self.fault(Wanted::End(wrapper))),
        }
    }

    /// The error for a token that a wrapper doesn't have there. A token before a colon is a key.
    #[cold]
    pub(crate) fn other(&mut self, wrapper: Wrapper, token: Token<'a>, is_key: bool) -> JsonReason
        ensures { self.new.tokens ≡ self.old.tokens }
    {
        match token {
            Token::Key(_) if !is_key => self.fault(Wanted::End(wrapper)),
            Token::String(_) if is_key => self.fault(Wanted::End(wrapper)),
            _ => JsonReason::Malformed(wrapper),
        }
    }

    /// Takes the opening brace of an object that is a wrapper's value.
    pub fn begin(&mut self, wrapper: Wrapper) -> Result<(), JsonReason>
        ensures some { OnOk result (TakesToken self.old.tokens self.new.tokens begin_object) }
        ensures none { OnErr result (LacksToken self.old.tokens begin_object) }
    {
        match self.token(Wanted::Part(wrapper))? {
            Token::BeginObject => Ok(()),
            token => Err(self.other(wrapper, token, false)),
        }
    }

    /// Takes a string of a wrapper.
    pub fn text(&mut self, wrapper: Wrapper) -> Result<&'a str, JsonReason>
        ensures some { IfOk result (λ text. TakesToken self.old.tokens self.new.tokens (string text.now)) }
        ensures none { OnErr result ((s : List ℕ) → LacksToken self.old.tokens (string s)) }
    {
        match self.token(Wanted::Part(wrapper))? {
            Token::String(text) => Ok(text),
            token => Err(self.other(wrapper, token, false)),
        }
    }

    /// Takes a number of a wrapper.
    fn number(&mut self, wrapper: Wrapper) -> Result<&'a str, JsonReason>
        ensures some { IfOk result (λ text. TakesToken self.old.tokens self.new.tokens (number text.now)) }
        ensures none { OnErr result ((s : List ℕ) → LacksToken self.old.tokens (number s)) }
    {
        match self.token(Wanted::Part(wrapper))? {
            Token::Number(text) => Ok(text),
            token => Err(self.other(wrapper, token, false)),
        }
    }

    /// Takes a key of a wrapper.
    fn key(&mut self, wrapper: Wrapper) -> Result<&'a str, JsonReason>
        ensures some { IfOk result (λ text. TakesToken self.old.tokens self.new.tokens (key text.now)) }
        ensures none { OnErr result ((s : List ℕ) → LacksToken self.old.tokens (key s)) }
    {
        match self.token(Wanted::Part(wrapper))? {
            Token::Key(text) => Ok(text),
            token => Err(self.other(wrapper, token, true)),
        }
    }

    /// Takes the key `name` of a wrapper.
    pub(crate) fn named(&mut self, wrapper: Wrapper, name: &str) -> Result<(), JsonReason>
        ensures some { OnOk result (TakesToken self.old.tokens self.new.tokens (key name.now)) }
        ensures none { OnErr result (LacksToken self.old.tokens (key name.now)) }
    {
        let found = self.key(wrapper)?;
        if found == name {
            Ok(())
        } else {
            Err(JsonReason::Malformed(wrapper))
        }
    }

    /// Takes the first of two keys of a wrapper. Returns whether it is the second of these.
    pub(crate) fn is_swapped(
        &mut self,
        wrapper: Wrapper,
        first: &str,
        second: &str,
    ) -> Result<bool, JsonReason>
        ensures some { IfOk result (λ is_swapped. TakesToken self.old.tokens self.new.tokens (key (if is_swapped then second.now else first.now))) }
        ensures none { OnErr result (LacksToken self.old.tokens (key first.now) × LacksToken self.old.tokens (key second.now)) }
    {
        let found = self.key(wrapper)?;
        if found == first {
            Ok(false)
        } else if found == second {
            Ok(true)
        } else {
            Err(JsonReason::Malformed(wrapper))
        }
    }

    /// Takes the code after a scope, and the closing brace of both.
    pub fn code(&mut self) -> Result<&'a str, JsonReason>
        ensures some { IfOk result (λ code. self.old.tokens ≡ key (codes "$code") ∷ string code.now ∷ end_object ∷ self.new.tokens) }
        ensures none { OnErr result ((s : List ℕ) (rest : List Taken) → self.old.tokens ≢ key (codes "$code") ∷ string s ∷ end_object ∷ rest) }
    {
        let wrapper = Wrapper::Scope;
        self.named(wrapper, "$code")?;
        let code = self.text(wrapper)?;
        self.end(wrapper)?;
        Ok(code)
    }

    /// Takes the digits of an object id.
    pub fn id(&mut self) -> Result<[u8; 12], JsonReason>
        ensures some { IfOk result (λ id. (s : List ℕ) × TakesToken self.old.tokens self.new.tokens (string s) × (decode_sized s 12 ≡ Ok id)) }
        ensures none { OnErr result ((s id : List ℕ) → decode_sized s 12 ≡ Ok id → LacksToken self.old.tokens (string s)) }
    {
        let text = self.text(Wrapper::Oid)?;
        match oid_of(text.as_bytes()) {
            Some(id) => Ok(id),
            None => Err(JsonReason::Malformed(Wrapper::Oid)),
        }
    }

    /// Takes an integer in quotes.
    fn integer(&mut self, wrapper: Wrapper) -> Result<i64, JsonReason>
        ensures some { IfOk result (λ z. (s : List ℕ) × TakesToken self.old.tokens self.new.tokens (string s) × WritesQuotedInteger s z × FitsSigned w64 z) }
        ensures none { OnErr result ((s : List ℕ) (z : ℤ) → FitsSigned w64 z → WritesQuotedInteger s z → LacksToken self.old.tokens (string s)) }
    {
        let text = self.text(wrapper)?;
        match quoted_integer_of(text.as_bytes()) {
            Some(value) => Ok(value),
            None => Err(JsonReason::Malformed(wrapper)),
        }
    }

    /// Takes the value of `$numberInt`.
    pub fn int32(&mut self) -> Result<i32, JsonReason>
        ensures some { IfOk result (λ z. Takes (InString IsQuotedInt32) self.old.tokens self.new.tokens (int32 z)) }
        ensures none { OnErr result (TakesNone (InString IsQuotedInt32) self.old.tokens) }
    {
        let wide = self.integer(Wrapper::NumberInt)?;
        match i32::try_from(wide) {
            Ok(value) => Ok(value),
            Err(_) => Err(JsonReason::Malformed(Wrapper::NumberInt)),
        }
    }

    /// Takes the value of `$numberLong`.
    pub fn int64(&mut self) -> Result<i64, JsonReason>
        ensures some { IfOk result (λ z. Takes (InString IsQuotedInt64) self.old.tokens self.new.tokens (int64 z)) }
        ensures none { OnErr result (TakesNone (InString IsQuotedInt64) self.old.tokens) }
    {
        let value = self.integer(Wrapper::NumberLong)?;
        Ok(value)
    }

    /// Takes the value of `$numberDouble`, as bits.
    pub fn double(&mut self) -> Result<u64, JsonReason>
        ensures some { IfOk result (λ bits. Takes (InString IsQuotedDouble) self.old.tokens self.new.tokens (double bits)) }
        ensures none { OnErr result (TakesNone (InString IsQuotedDouble) self.old.tokens) }
    {
        let text = self.text(Wrapper::NumberDouble)?;
        match quoted_double_of(text.as_bytes()) {
            Some(bits) => Ok(bits),
            None => Err(JsonReason::Malformed(Wrapper::NumberDouble)),
        }
    }

    /// Takes the value of `$numberDecimal`, as bytes.
    pub fn decimal(&mut self) -> Result<[u8; 16], JsonReason>
        ensures some { IfOk result (λ bytes. Takes (InString IsQuotedDecimal) self.old.tokens self.new.tokens (decimal128 bytes)) }
        ensures none { OnErr result (TakesNone (InString IsQuotedDecimal) self.old.tokens) }
    {
        let text = self.text(Wrapper::NumberDecimal)?;
        let bytes = decimal_of(text.as_bytes())?;
        Ok(bytes)
    }

    /// Takes the value of `$date`, as milliseconds.
    pub fn date(&mut self) -> Result<i64, JsonReason>
        ensures some { IfOk result (λ z. Takes IsDate self.old.tokens self.new.tokens (date_time z)) }
        ensures none { OnErr result (TakesNone IsDate self.old.tokens) }
    {
        let wrapper = Wrapper::Date;
        match self.token(Wanted::Part(wrapper))? {
            Token::String(text) => match millis_of(text.as_bytes()) {
                Some(millis) => Ok(millis),
                None => Err(JsonReason::Malformed(wrapper)),
            },
            Token::Number(text) => match integer_of(text.as_bytes()) {
                Some(millis) => Ok(millis),
                None => Err(JsonReason::Malformed(wrapper)),
            },
            Token::BeginObject => {
                self.named(wrapper, "$numberLong")?;
                let millis = self.integer(Wrapper::NumberLong)?;
                self.end(wrapper)?;
                Ok(millis)
            }
            token => Err(self.other(wrapper, token, false)),
        }
    }

    /// Takes the value of `$uuid`.
    pub fn uuid(&mut self) -> Result<[u8; 16], JsonReason>
        ensures some { IfOk result (λ b. Takes IsUuid self.old.tokens self.new.tokens (binary UuidSubtype b)) }
        ensures none { OnErr result (TakesNone IsUuid self.old.tokens) }
    {
        let text = self.text(Wrapper::Uuid)?;
        match uuid_of(text) {
            Some(bytes) => Ok(bytes),
            None => Err(JsonReason::Malformed(Wrapper::Uuid)),
        }
    }

    /// Takes a pattern or options.
    fn c_string(&mut self) -> Result<&'a str, JsonReason>
        ensures some { IfOk result (λ text. TakesToken self.old.tokens self.new.tokens (string text.now)) }
        ensures text { IfOk result (λ text. IsUtf8 text.now) }
        ensures nul_free { IfOk result (λ text. NulFree text.now) }
        ensures none { OnErr result ((s : List ℕ) → NulFree s → LacksToken self.old.tokens (string s)) }
    {
        let text = self.text(Wrapper::RegularExpression)?;
        if is_nul_free(text) {
            Ok(text)
        } else {
            Err(JsonReason::InteriorNul)
        }
    }

    /// Takes the value of `$regularExpression`: its pattern and its options.
    pub fn regular_expression(&mut self) -> Result<(&'a str, &'a str), JsonReason>
        ensures some { IfOk result (λ p. TakesTwo self.old.tokens self.new.tokens (codes "pattern") (JsonString p.0.now) (codes "options") (JsonString p.1.now)) }
        ensures texts { IfOk result (λ p. IsUtf8 p.0.now × IsUtf8 p.1.now) }
        ensures nul_free { IfOk result (λ p. NulFree p.0.now × NulFree p.1.now) }
        ensures none { OnErr result ((pattern options : List ℕ) → NulFree pattern → NulFree options
            → TakesNoTwo self.old.tokens (codes "pattern") (JsonString pattern) (codes "options") (JsonString options)) }
    {
        let wrapper = Wrapper::RegularExpression;
        self.begin(wrapper)?;
        let is_swapped = self.is_swapped(wrapper, "pattern", "options")?;
        if is_swapped {
            let options = self.c_string()?;
            self.named(wrapper, "pattern")?;
            let pattern = self.c_string()?;
            self.end(wrapper)?;
            Ok((pattern, options))
        } else {
            let pattern = self.c_string()?;
            self.named(wrapper, "options")?;
            let options = self.c_string()?;
            self.end(wrapper)?;
            Ok((pattern, options))
        }
    }

    /// Takes an unsigned number of 32 bits.
    fn unsigned(&mut self) -> Result<u32, JsonReason>
        ensures some { IfOk result (λ n. (s : List ℕ) × TakesToken self.old.tokens self.new.tokens (number s) × WritesUnsigned s n) }
        ensures none { OnErr result ((s : List ℕ) (n : ℕ) → WritesUnsigned s n → LacksToken self.old.tokens (number s)) }
    {
        let text = self.number(Wrapper::Timestamp)?;
        let bad = JsonReason::Malformed(Wrapper::Timestamp);
        let Some(value) = integer_of(text.as_bytes()) else {
            return Err(bad);
        };
        match u32::try_from(value) {
            Ok(value) => Ok(value),
            Err(_) => Err(bad),
        }
    }

    /// Takes the value of `$timestamp`: its time and its increment.
    pub fn timestamp(&mut self) -> Result<(u32, u32), JsonReason>
        ensures some { IfOk result (λ p. Takes IsTimestamp self.old.tokens self.new.tokens (timestamp p.0 p.1)) }
        ensures none { OnErr result (TakesNone IsTimestamp self.old.tokens) }
    {
        let wrapper = Wrapper::Timestamp;
        self.begin(wrapper)?;
        let is_swapped = self.is_swapped(wrapper, "t", "i")?;
        if is_swapped {
            let increment = self.unsigned()?;
            self.named(wrapper, "t")?;
            let time = self.unsigned()?;
            self.end(wrapper)?;
            Ok((time, increment))
        } else {
            let time = self.unsigned()?;
            self.named(wrapper, "i")?;
            let increment = self.unsigned()?;
            self.end(wrapper)?;
            Ok((time, increment))
        }
    }

    /// Takes `{"$oid": digits}`.
    fn pointed_id(&mut self) -> Result<[u8; 12], JsonReason>
        ensures some { IfOk result (λ id. (s : List ℕ) × (self.old.tokens ≡ json_tokens (pointed s) ++ self.new.tokens) × (decode_sized s 12 ≡ Ok id)) }
        ensures none { OnErr result ((s id : List ℕ) → decode_sized s 12 ≡ Ok id → LacksJson self.old.tokens (pointed s)) }
    {
        let wrapper = Wrapper::DbPointer;
        self.begin(wrapper)?;
        self.named(wrapper, "$oid")?;
        let id = self.id()?;
        self.end(wrapper)?;
        Ok(id)
    }

    /// Takes the value of `$dbPointer`: its namespace and its id.
    pub fn db_pointer(&mut self) -> Result<(&'a str, [u8; 12]), JsonReason>
        ensures some { IfOk result (λ p. Takes IsDbPointer self.old.tokens self.new.tokens (db_pointer p.0.now p.1)) }
        ensures none { OnErr result (TakesNone IsDbPointer self.old.tokens) }
    {
        let wrapper = Wrapper::DbPointer;
        self.begin(wrapper)?;
        let is_swapped = self.is_swapped(wrapper, "$ref", "$id")?;
        if is_swapped {
            let id = self.pointed_id()?;
            self.named(wrapper, "$ref")?;
            let namespace = self.text(wrapper)?;
            self.end(wrapper)?;
            Ok((namespace, id))
        } else {
            let namespace = self.text(wrapper)?;
            self.named(wrapper, "$id")?;
            let id = self.pointed_id()?;
            self.end(wrapper)?;
            Ok((namespace, id))
        }
    }

    /// Takes `true`, the value of `$undefined`; other programs take `false`, too.
    pub fn undefined(&mut self) -> Result<(), JsonReason>
        ensures some { OnOk result ((b : Bool) × TakesToken self.old.tokens self.new.tokens (boolean b)) }
        ensures none { OnErr result ((b : Bool) → LacksToken self.old.tokens (boolean b)) }
    {
        match self.token(Wanted::Part(Wrapper::Undefined))? {
            Token::Bool(_) => Ok(()),
            token => Err(self.other(Wrapper::Undefined, token, false)),
        }
    }

    /// Takes a 1, the value of `$minKey` and of `$maxKey`.
    pub fn one(&mut self, wrapper: Wrapper) -> Result<(), JsonReason>
        ensures some { OnOk result (TakesToken self.old.tokens self.new.tokens (number (codes "1"))) }
        ensures none { OnErr result (LacksToken self.old.tokens (number (codes "1"))) }
    {
        let text = self.number(wrapper)?;
        if text == "1" {
            Ok(())
        } else {
            Err(JsonReason::Malformed(wrapper))
        }
    }
}
