//! Elements of a document by key and by number, and their count. They copy nothing and take no memory: the
//! fault at which the elements stop borrows its key.
#![tactic(auto)]

ghost use Rattle.std.specs.Prelude.{◌≤◌, ◌-◌, ◌/◌, length, IfOk};
ghost use Rattle.raw_view.specs.Document.{bytes_of};
ghost use Rattle.raw_view.specs.LookUp.{FindsElement, FindsElementAt, FoundElement};
ghost use Rattle.raw_view.specs.LookUp.ElementLookUp.{IsTheElement, IsTheElementAt, TellsCount, TellsElement};

use crate::document::{RawDocument, has_key};
use crate::element::RawElement;
use crate::elements::Elements;
use crate::error::BorrowedError;

impl<'a> RawDocument<'a> {
    /// The first element with this key. If none has it: the fault at which the elements stop, if there is
    /// one, otherwise `None`. Bytes after the found element are not read, and no value is decoded. The bytes
    /// and the key alone determine the result.
    /// ```
    /// let document = RawDocument::from_bytes(b"\x0C\0\0\0\x10a\0\x01\0\0\0\0")?;
    /// let Ok(Some(element)) = document.get_element("a") else { unreachable!() };
    /// assert_eq!(rt; element.element_type(), ElementType::Int32);
    /// ```
    pub fn get_element(self, key: &str) -> Result<Option<RawElement<'a>>, BorrowedError<'a>>
        ensures found { (x : FoundElement) × FindsElement (bytes_of self.entry) key.now x × TellsElement result x }
        ensures one_element { (x : FoundElement) × IsTheElement (bytes_of self.entry) key.now x }
    {
        for step in Elements::new(self) {
            let element = match step {
                Ok(element) => element,
                Err(stop) => return Err(stop),
            };
            if has_key(element, key) {
                return Ok(Some(element));
            }
        }
        Ok(None)
    }

    /// The element with this number, counted from 0. If there are fewer elements: the fault at which they
    /// stop, if there is one, otherwise `None`. Bytes after the found element are not read, and no value is
    /// decoded. The bytes and the number alone determine the result.
    /// ```
    /// let document = RawDocument::from_bytes(b"\x13\0\0\0\x10a\0\x01\0\0\0\x10b\0\x02\0\0\0\0")?;
    /// let Ok(Some(element)) = document.element_at(1) else { unreachable!() };
    /// assert_eq!(rt; element.key(), "b");
    /// ```
    pub fn element_at(self, number: usize) -> Result<Option<RawElement<'a>>, BorrowedError<'a>>
        ensures found { (x : FoundElement) × FindsElementAt (bytes_of self.entry) number x × TellsElement result x }
        ensures one_element { (x : FoundElement) × IsTheElementAt (bytes_of self.entry) number x }
    {
        let mut before = number;
        for step in Elements::new(self) {
            let element = match step {
                Ok(element) => element,
                Err(stop) => return Err(stop),
            };
            if before == 0 {
                return Ok(Some(element));
            }
            before -= 1;
        }
        Ok(None)
    }

    /// The number of elements, or the fault at which they stop. It is at most (n - 4) / 2 for n bytes. No
    /// value is decoded.
    /// ```
    /// let document = RawDocument::from_bytes(b"\x13\0\0\0\x10a\0\x01\0\0\0\x10b\0\x02\0\0\0\0")?;
    /// assert!(rt; matches!(document.count(), Ok(2)));
    /// ```
    pub fn count(self) -> Result<usize, BorrowedError<'a>>
        ensures count { TellsCount (bytes_of self.entry) result }
        ensures bound { IfOk result (λ count. count ≤ (length (bytes_of self.entry) - 4) / 2) }
    {
        let mut count = 0;
        for step in Elements::new(self) {
            match step {
                Ok(_) => count += 1,
                Err(stop) => return Err(stop),
            }
        }
        Ok(count)
    }
}
