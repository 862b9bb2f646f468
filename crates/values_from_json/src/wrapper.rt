//! The objects that write a value for which JSON has no notation.
ghost use Rattle.std.specs.Prelude.{◌≡◌, false, MatchOption};
ghost use Rattle.values_from_json.specs.Keys.{wrapper_key};
ghost use Rattle.values_from_json.specs.Meaning.{is_wrapper_key};
ghost use Rattle.values_from_json.specs.Reasons.{wrapper_words};

/// What an object is, by its keys, if it isn't a document: one value.
#[derive(Clone, Copy, Debug, PartialEq, Eq)]
pub enum Wrapper {
    /// `{"$oid": 24 hex digits}`
    Oid,
    /// `{"$numberInt": an integer, as a string}`
    NumberInt,
    /// `{"$numberLong": an integer, as a string}`
    NumberLong,
    /// `{"$numberDouble": a number, Infinity, -Infinity or NaN, as a string}`
    NumberDouble,
    /// `{"$numberDecimal": a decimal, as a string}`
    NumberDecimal,
    /// `{"$binary": {"base64": text, "subType": one or two hex digits}}`, or in version 1
    /// `{"$binary": text, "$type": one or two hex digits}`
    Binary,
    /// `{"$uuid": hex digits with hyphens}`
    Uuid,
    /// `{"$date": a time in ISO 8601}`, or `{"$date": {"$numberLong": milliseconds}}`
    Date,
    /// `{"$regularExpression": {"pattern": text, "options": text}}`
    RegularExpression,
    /// `{"$timestamp": {"t": seconds, "i": increment}}`
    Timestamp,
    /// `{"$code": text}`, or with `"$scope": document`
    Code,
    /// the same, with the scope first
    Scope,
    /// `{"$dbPointer": {"$ref": text, "$id": an object id}}`
    DbPointer,
    /// `{"$symbol": text}`
    Symbol,
    /// `{"$undefined": true}`
    Undefined,
    /// `{"$minKey": 1}`
    MinKey,
    /// `{"$maxKey": 1}`
    MaxKey,
}

/// The wrapper that has this key, if one has it.
pub fn wrapper_of_key(key: &str) -> Option<Wrapper>
    ensures { MatchOption result (is_wrapper_key key.now ≡ false) (λ wrapper. key.now ≡ wrapper_key wrapper) }
{
    match key.as_bytes() {
        [b'$', ..] => Wrapper::with_dollar(key),
        _ => None,
    }
}

impl Wrapper {
    /// The wrapper with this key, which begins with a dollar, if there is one.
    fn with_dollar(key: &str) -> Option<Wrapper>
        ensures { MatchOption result (is_wrapper_key key.now ≡ false) (λ wrapper. key.now ≡ wrapper_key wrapper) }
    {
        match key {
            "$oid" => Some(Wrapper::Oid),
            "$numberInt" => Some(Wrapper::NumberInt),
            "$numberLong" => Some(Wrapper::NumberLong),
            "$numberDouble" => Some(Wrapper::NumberDouble),
            "$numberDecimal" => Some(Wrapper::NumberDecimal),
            "$binary" => Some(Wrapper::Binary),
            "$uuid" => Some(Wrapper::Uuid),
            "$date" => Some(Wrapper::Date),
            "$regularExpression" => Some(Wrapper::RegularExpression),
            "$timestamp" => Some(Wrapper::Timestamp),
            "$code" => Some(Wrapper::Code),
            "$scope" => Some(Wrapper::Scope),
            "$dbPointer" => Some(Wrapper::DbPointer),
            "$symbol" => Some(Wrapper::Symbol),
            "$undefined" => Some(Wrapper::Undefined),
            "$minKey" => Some(Wrapper::MinKey),
            "$maxKey" => Some(Wrapper::MaxKey),
            _ => None,
        }
    }

    /// A message that an object isn't such a wrapper.
    pub(crate) fn words(self) -> &'static str
        ensures { result.now ≡ wrapper_words self }
    {
        match self {
            Wrapper::Oid => "this is not {\"$oid\": 24 hex digits}",
            Wrapper::NumberInt => "this is not {\"$numberInt\": a 32-bit integer as a string}",
            Wrapper::NumberLong => "this is not {\"$numberLong\": a 64-bit integer as a string}",
            Wrapper::NumberDouble => "this is not {\"$numberDouble\": a double as a string}",
            Wrapper::NumberDecimal => "this is not {\"$numberDecimal\": a decimal as a string}",
            Wrapper::Binary => {
                "this is not {\"$binary\": {\"base64\": a string, \"subType\": hex digits}}"
            }
            Wrapper::Uuid => "this is not {\"$uuid\": hex digits with hyphens}",
            Wrapper::Date => {
                "this is not {\"$date\": an ISO 8601 time or {\"$numberLong\": milliseconds}}"
            }
            Wrapper::RegularExpression => {
                "this is not {\"$regularExpression\": {\"pattern\": a string, \"options\": a string}}"
            }
            Wrapper::Timestamp => {
                "this is not {\"$timestamp\": {\"t\": seconds, \"i\": increment}}"
            }
            Wrapper::Code | Wrapper::Scope => {
                "this is not {\"$code\": a string} or with \"$scope\": a document"
            }
            Wrapper::DbPointer => {
                "this is not {\"$dbPointer\": {\"$ref\": a string, \"$id\": an object id}}"
            }
            Wrapper::Symbol => "this is not {\"$symbol\": a string}",
            Wrapper::Undefined => "this is not {\"$undefined\": true}",
            Wrapper::MinKey => "this is not {\"$minKey\": 1}",
            Wrapper::MaxKey => "this is not {\"$maxKey\": 1}",
        }
    }
}
