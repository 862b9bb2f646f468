//! The values of `$binary`.
ghost use Rattle.std.specs.Prelude.{◌≡◌, ◌⊎◌, ◌∷◌, [], ℕ, List, Ok, IfErr, IfOk, MatchOption, OnErr, codes};
ghost use Rattle.base64.specs.Engines.{standard};
ghost use Rattle.base64.specs.GeneralPurpose.{decode_of};
ghost use Rattle.hex.specs.Hex.{decode_sized};
ghost use Rattle.json.specs.Token.{begin_object, key, string};
ghost use Rattle.bson_model.specs.Leaf.{binary};
ghost use Rattle.bson_model.specs.Subtype.{subtype_of};
ghost use Rattle.values_from_json.specs.Spaces.{trimmed, without_spaces};
ghost use Rattle.values_from_json.specs.Taken.{Takes, TakesRest, TakesToken, LacksToken, TakesNone, TakesNoRest};
ghost use Rattle.values_from_json.specs.Wrapped.{IsBinary, two_hex_digits};
ghost use Rattle.values_from_json.specs.declared.error.JsonReason.TheVariants.{OutOfMemory};

use crate::error::JsonReason;
use crate::fault::Wanted;
use crate::leaves::{base64_of, subtype_of_digits};
use crate::source::Source;
use crate::space::trim;
use crate::wrapper::Wrapper;
use json::Token;
use std::alloc::Global;

impl<'a> Source<'a> {
    /// Takes text in base64.
    fn base64(&mut self, alloc: Global) -> Result<Vec<u8>, JsonReason>
        ensures some { IfOk result (λ bytes. (s : List ℕ) × TakesToken self.old.tokens self.new.tokens (string s) × (decode_of standard (without_spaces s) ≡ Ok bytes.items)) }
        ensures none { IfErr result (λ reason. (reason ≡ OutOfMemory) ⊎ ((s bytes : List ℕ) → decode_of standard (without_spaces s) ≡ Ok bytes → LacksToken self.old.tokens (string s))) }
    {
        let text = self.text(Wrapper::Binary)?;
        let bytes = base64_of(alloc, text.as_bytes())?;
        Ok(bytes)
    }

    /// Takes the digits of a subtype.
    fn subtype(&mut self) -> Result<u8, JsonReason>
        ensures some { IfOk result (λ b. (s : List ℕ) × TakesToken self.old.tokens self.new.tokens (string s) × (decode_sized (two_hex_digits s) 1 ≡ Ok (b ∷ []))) }
        ensures none { OnErr result ((s b : List ℕ) → decode_sized (two_hex_digits s) 1 ≡ Ok b → LacksToken self.old.tokens (string s)) }
    {
        let text = self.text(Wrapper::Binary)?;
        match subtype_of_digits(text.as_bytes()) {
            Some(subtype) => Ok(subtype),
            None => Err(JsonReason::Malformed(Wrapper::Binary)),
        }
    }

    /// Takes the digits of a subtype under `$type`, perhaps with white space around them.
    fn old_subtype(&mut self) -> Result<u8, JsonReason>
        ensures some { IfOk result (λ b. (s : List ℕ) × TakesToken self.old.tokens self.new.tokens (string s) × (decode_sized (two_hex_digits (trimmed s)) 1 ≡ Ok (b ∷ []))) }
        ensures none { OnErr result ((s b : List ℕ) → decode_sized (two_hex_digits (trimmed s)) 1 ≡ Ok b → LacksToken self.old.tokens (string s)) }
    {
        let text = self.text(Wrapper::Binary)?;
        match subtype_of_digits(trim(text.as_bytes())) {
            Some(subtype) => Ok(subtype),
            None => Err(JsonReason::Malformed(Wrapper::Binary)),
        }
    }

    /// Takes what follows the opening brace of the object under `$binary`: its bytes and its subtype.
    fn binary_object(&mut self, alloc: Global) -> Result<(Vec<u8>, u8), JsonReason>
        ensures some { IfOk result (λ p. Takes IsBinary (begin_object ∷ self.old.tokens) self.new.tokens (binary (subtype_of p.1) p.0.items)) }
        ensures none { IfErr result (λ reason. (reason ≡ OutOfMemory) ⊎ TakesNone IsBinary (begin_object ∷ self.old.tokens)) }
    {
        let wrapper = Wrapper::Binary;
        let is_swapped = self.is_swapped(wrapper, "base64", "subType")?;
        if is_swapped {
            let subtype = self.subtype()?;
            self.named(wrapper, "base64")?;
            let bytes = self.base64(alloc)?;
            self.end(wrapper)?;
            Ok((bytes, subtype))
        } else {
            let bytes = self.base64(alloc)?;
            self.named(wrapper, "subType")?;
            let subtype = self.subtype()?;
            self.end(wrapper)?;
            Ok((bytes, subtype))
        }
    }

    /// Takes the opening brace of an object that is a wrapper's value, or a string.
    fn brace_or_text(&mut self, wrapper: Wrapper) -> Result<Option<&'a str>, JsonReason>
        ensures some { IfOk result (λ text. MatchOption text (TakesToken self.old.tokens self.new.tokens begin_object)
            (λ s. TakesToken self.old.tokens self.new.tokens (string s.now))) }
        ensures none { OnErr result (LacksToken self.old.tokens begin_object × ((s : List ℕ) → LacksToken self.old.tokens (string s))) }
    {
        match self.token(Wanted::Part(wrapper))? {
            Token::BeginObject => Ok(None),
            Token::String(text) => Ok(Some(text)),
            token => Err(self.other(wrapper, token, false)),
        }
    }

    /// Takes what follows the key `$binary`, the first of an object, to its brace: the bytes and the subtype.
    pub fn binary(&mut self, alloc: Global) -> Result<(Vec<u8>, u8), JsonReason>
        ensures some { IfOk result (λ p. TakesRest (codes "$binary") self.old.tokens self.new.tokens (binary (subtype_of p.1) p.0.items)) }
        ensures none { IfErr result (λ reason. (reason ≡ OutOfMemory) ⊎ TakesNoRest (codes "$binary") self.old.tokens) }
    {
        let wrapper = Wrapper::Binary;
        match self.brace_or_text(wrapper)? {
            None => {
                let (bytes, subtype) = self.binary_object(alloc)?;
                self.end(wrapper)?;
                Ok((bytes, subtype))
            }
            Some(text) => {
                let bytes = base64_of(alloc, text.as_bytes())?;
                self.named(wrapper, "$type")?;
                let subtype = self.old_subtype()?;
                self.end(wrapper)?;
                Ok((bytes, subtype))
            }
        }
    }

    /// Takes what follows the key `$binary`, the second of an object after `$type` and these digits, to its brace:
    /// the bytes and the subtype.
    pub fn binary_behind_type(
        &mut self,
        alloc: Global,
        digits: &str,
    ) -> Result<(Vec<u8>, u8), JsonReason>
        ensures some { IfOk result (λ p. TakesRest (codes "$type") (string digits.now ∷ key (codes "$binary") ∷ self.old.tokens) self.new.tokens (binary (subtype_of p.1) p.0.items)) }
        ensures none { IfErr result (λ reason. (reason ≡ OutOfMemory) ⊎ TakesNoRest (codes "$type") (string digits.now ∷ key (codes "$binary") ∷ self.old.tokens)) }
    {
        let Some(subtype) = subtype_of_digits(trim(digits.as_bytes())) else {
            return Err(JsonReason::Malformed(Wrapper::Binary));
        };
        let bytes = self.base64(alloc)?;
        self.end(Wrapper::Binary)?;
        Ok((bytes, subtype))
    }
}
