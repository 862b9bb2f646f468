//! Objects whose first key is `$type`: binaries as version 1 of Extended JSON has them, and documents.
#![tactic(auto, using(crate::proofs::Left::one_taken, crate::proofs::Left::some_taken))]

ghost use Rattle.std.specs.Prelude.{◌≡◌, ◌≤◌, ◌+◌, ◌∷◌, [], ◌++◌, length, codes, IfErr, OnOk};
ghost use Rattle.json.specs.Token.{begin_object, key as key_token, string};
ghost use Rattle.raw_tree.specs.Payload.{unset};
ghost use Rattle.bson_from_json.specs.Ends.{KeepsValue, Refuses, StopsValue};
ghost use Rattle.bson_from_json.specs.Left.{left_of};
ghost use Rattle.bson_from_json.specs.Levels.{TakesValue, headed, level_at};
ghost use Rattle.bson_from_json.specs.Placed.{code_start};

use crate::levels::Holder;
use crate::reading::{Reader, check_key};
use json::Token;
use raw_view::{ElementType, RawBsonRef};
use values_from_json::{JsonReason, Wanted};

impl<'a> Reader<'a> {
    /// Takes what follows the key `$type`, the first of an object that begins at `brace`. A string and then the key
    /// `$binary` are a binary; everything else is a document, as in queries.
    pub(crate) fn typed(&mut self, key: &str, brace: usize) -> Result<(), JsonReason>
        ensures less { OnOk result (left_of self.new ≤ left_of self.old) }
        ensures rest { OnOk result (TakesValue self.old self.new key.now (begin_object ∷ key_token (codes "$type") ∷ [])) }
        ensures keeps { OnOk result (KeepsValue self.old self.new key.now (begin_object ∷ key_token (codes "$type") ∷ [])) }
        ensures stops { IfErr result (StopsValue self.old key.now (begin_object ∷ key_token (codes "$type") ∷ [])) }
    {
        match self.source.token(Wanted::Value)? {
            Token::String(text) => self.typed_text(key, brace, text),
            Token::BeginObject => self.open_at(brace, key, Holder::Typed),
            token => {
                self.open_at(brace, key, Holder::Document)?;
                self.plain(token, "$type", Wanted::Value)
            }
        }
    }

    /// Takes what follows the key `$type` and a string.
    fn typed_text(&mut self, key: &str, brace: usize, text: &str) -> Result<(), JsonReason>
        ensures less { OnOk result (left_of self.new ≤ left_of self.old) }
        ensures rest { OnOk result (TakesValue self.old self.new key.now (begin_object ∷ key_token (codes "$type") ∷ string text.now ∷ [])) }
        ensures keeps { OnOk result (KeepsValue self.old self.new key.now (begin_object ∷ key_token (codes "$type") ∷ string text.now ∷ [])) }
        ensures stops { IfErr result (StopsValue self.old key.now (begin_object ∷ key_token (codes "$type") ∷ string text.now ∷ [])) }
    {
        match self.source.token(Wanted::Member)? {
            Token::EndObject => {
                self.source.place = brace;
                self.document.put_typed(key, text)
            }
            Token::Key(second) => {
                if second == "$binary" {
                    return self.binary_behind_type(key, text);
                }
                check_key(second, Holder::Document)?;
                self.open_at(brace, key, Holder::Begun(second))?;
                self.put("$type", RawBsonRef::String(text))
            }
            _ => Err(self.source.fault(Wanted::Member)),
        }
    }

    /// Opens a document that begins at `brace`, under a key.
    fn open_at(&mut self, brace: usize, key: &str, holder: Holder<'a>) -> Result<(), JsonReason>
        requires { code_start holder ≡ 0 }
        ensures tokens { self.new.source.tokens ≡ self.old.source.tokens }
        ensures bytes { OnOk result (self.new.document.bytes.items ≡ headed self.old.document.bytes.items 3 key.now ++ unset) }
        ensures level { OnOk result (self.new.document.levels.items
            ≡ self.old.document.levels.items ++ level_at holder.entry (length (headed self.old.document.bytes.items 3 key.now)) ∷ []) }
        ensures limits { self.new.document.limits ≡ self.old.document.limits }
        ensures refused { IfErr result (Refuses self.old.document (2 + length key.now + 4) 1) }
    {
        let place = self.source.place;
        self.source.place = brace;
        self.document
            .open_under(ElementType::EmbeddedDocument, key, holder)?;
        self.source.place = place;
        Ok(())
    }
}
