//! The iterator over the pairs of a document.
ghost use Rattle.std.specs.Prelude.{◌≡◌};
ghost use Rattle.bson_model.specs.Tree.{pairs_of};

use crate::bson::{Bson, Document};
use std::marker::Model;

/// The pairs of a document, in order. A clause sees the remaining pairs.
#[derive(Drop)]
pub struct DocumentIter<'a> {
    document: &'a Document,
    next: usize,
}

impl<'a> Model for DocumentIter<'a> {
    ghost use Rattle.std.specs.Prelude.{ℕ, List, drop};
    ghost use Rattle.std.specs.Coded.{codes};
    ghost use Rattle.bson_model.specs.contracts.bson.Bson as bson;
    ghost use Rattle.bson_model.specs.declared.bson.Bson.{Bson};
    ghost use Rattle.bson_model.specs.Tree.{pairs_of};

    ghost Value = { List (List ℕ × Bson) };

    ghost coded = { Prim.hlevel (codes, bson.the_row.coded) };

    ghost view = { λ a. drop a.next (pairs_of a.document.now) };
}

impl Document {
    /// The pairs in order.
    /// ```
    /// let mut document = Document::new(alloc);
    /// document.put(String::from_str(alloc, "a")?, Bson::Int32(1))?;
    /// let mut pairs = document.iter();
    /// assert!(rt; pairs.next() == Some(("a", &Bson::Int32(1))));
    /// ```
    pub fn iter(&self) -> DocumentIter<'_>
        ensures { result ≡ pairs_of self.now }
    {
        DocumentIter {
            document: self,
            next: 0,
        }
    }
}

impl<'a> Iterator for DocumentIter<'a> {
    ghost use Rattle.std.specs.Prelude.{length};
    ghost use Rattle.std.specs.Iterator.{at_most};
    ghost use Rattle.std.specs.Map.Iter.{TakesFirst, deref_pair};

    type Item = (&'a str, &'a Bson);

    ghost next_gives = { TakesFirst deref_pair };

    ghost remaining = { λ left. at_most (length left) };

    fn next(&mut self) -> Option<(&'a str, &'a Bson)> {
        match self.document.pair_at(self.next) {
            Some(pair) => {
                self.next += 1;
                Some(pair)
            }
            None => None,
        }
    }
}
