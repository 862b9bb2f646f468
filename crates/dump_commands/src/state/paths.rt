//! What was counted of the values under each path.
#![tactic(auto)]

ghost use Rattle.std.specs.Prelude.{◌≡◌, ◌<◌, ◌+◌, ◌++◌, None, Some, false, true, bytes_eq, IfErr, IfOk, IsNone, OnOk, get_or, length, min, position, set};
ghost use Rattle.indexmap.specs.IndexSet.{contains_by};
ghost use Rattle.dump_commands.specs.state.Fields.{count_value, leave_out, next_document, no_row, no_table, rows_text, table_of, table_text, with_field, with_path, with_value};
ghost use Rattle.dump_io.specs.lines.Failing.{IsReading};
ghost use Rattle.dump_io.specs.lines.Origins.{origin_of};

use crate::state::path_lines::push_row;
use crate::state::rows::Row;
use dump_io::lines::failure::{Failure, in_range};
use dump_io::lines::origin::Origin;
use dump_io::lines::text::{push_number, push_words};
use indexmap::IndexSet;
use std::alloc::{AllocError, Global};

/// How long a path may be, in bytes: a longer one is left out.
const LONGEST: usize = 4096;

/// The paths of elements, in the order of their first ones, and what was counted of each.
#[derive(Drop)]
pub struct Paths<'a> {
    /// how many paths at most
    most: usize,
    /// how many documents were counted
    documents: u64,
    texts: IndexSet<Vec<u8>>,
    /// the first document that has each
    firsts: Vec<Origin<'a>>,
    rows: Vec<Row>,
    /// how many elements have other paths
    left_out: u64,
    /// the number of the path that comes next, if elements come as in the document before
    guess: usize,
}

impl<'a> Paths<'a> {
    /// Nothing was counted. At most `most` paths will be.
    pub fn new(alloc: Global, most: usize) -> Paths<'a>
        ensures { table_of result ≡ no_table most }
    {
        Paths {
            most,
            documents: 0,
            texts: IndexSet::new(alloc),
            firsts: Vec::new(alloc),
            rows: Vec::new(alloc),
            left_out: 0,
            guess: 0,
        }
    }

    /// A document more, whose elements come next.
    pub fn begin(&mut self) -> Result<(), Failure>
        ensures begun { OnOk result (table_of self.new ≡ next_document (table_of self.old)) }
        ensures failed { IfErr result (λ failure. ¬ IsReading failure) }
    {
        self.documents = in_range(self.documents.checked_add(1))?;
        self.guess = 0;
        Ok(())
    }

    /// An element more of a document that begins there, with this path, of this kind, and of `size` bytes.
    pub fn add(
        &mut self,
        alloc: Global,
        origin: Origin<'a>,
        path: &[u8],
        tag: u32,
        size: u32,
    ) -> Result<(), Failure>
        ensures added { OnOk result (table_of self.new
            ≡ with_field (origin_of origin.entry) (table_of self.old) (record { path = path.now; tag = tag; size = size })) }
        ensures failed { IfErr result (λ failure. ¬ IsReading failure) }
    {
        if path.len() > LONGEST {
            return self.leave_out();
        }
        match self.find(path) {
            Some(number) => {
                self.guess = number.saturating_add(1);
                count_at(&mut self.rows, number, self.documents, tag, size)
            }
            None => self.add_path(alloc, origin, path, tag, size),
        }
    }

    /// The number of a path, if it is there.
    fn find(&self, path: &[u8]) -> Option<usize>
        ensures number { result ≡ position (λ text. bytes_eq path.now text.items) self.now.texts.keys }
        ensures absent { IsNone result → contains_by (λ text. bytes_eq path.now text.items) self.now.texts ≡ false }
    {
        if self.is_at(path, self.guess) {
            return Some(self.guess);
        }
        self.texts.get_index_of(path)
    }

    /// Whether a path has this number.
    fn is_at(&self, path: &[u8], number: usize) -> bool
        ensures { result ≡ true → position (λ text. bytes_eq path.now text.items) self.now.texts.keys ≡ Some number }
    {
        let texts = self.texts.as_slice();
        number < texts.len() && texts[number].as_slice() == path
    }

    /// An element more with this path, which isn't there.
    fn add_path(
        &mut self,
        alloc: Global,
        origin: Origin<'a>,
        path: &[u8],
        tag: u32,
        size: u32,
    ) -> Result<(), Failure>
        requires { contains_by (λ text. bytes_eq path.now text.items) self.old.texts ≡ false }
        ensures added { OnOk result (table_of self.new
            ≡ with_value (origin_of origin.entry) (table_of self.old) (record { path = path.now; tag = tag; size = size }) None) }
        ensures failed { IfErr result (λ failure. ¬ IsReading failure) }
    {
        if self.texts.len() >= self.most {
            return self.leave_out();
        }
        let mut row = Row::new();
        row.count(self.documents, tag, size)?;
        self.push_path(alloc, origin, path, row)?;
        Ok(())
    }

    /// Puts a path that isn't there after the others, with what was counted of it.
    fn push_path(
        &mut self,
        alloc: Global,
        origin: Origin<'a>,
        path: &[u8],
        row: Row,
    ) -> Result<(), AllocError>
        requires { contains_by (λ text. bytes_eq path.now text.items) self.old.texts ≡ false }
        ensures { OnOk result (table_of self.new ≡ with_path (origin_of origin.entry) (table_of self.old) path.now row) }
    {
        let text = Vec::from_slice(alloc, path)?;
        self.texts.insert(text)?;
        self.firsts.push(origin)?;
        self.rows.push(row)?;
        Ok(())
    }

    /// An element more that is left out.
    fn leave_out(&mut self) -> Result<(), Failure>
        ensures counted { OnOk result (table_of self.new ≡ leave_out (table_of self.old)) }
        ensures failed { IfErr result (λ failure. ¬ IsReading failure) }
    {
        self.left_out = in_range(self.left_out.checked_add(1))?;
        Ok(())
    }

    /// A line for each path, and how many elements were left out.
    pub fn lines(&self, alloc: Global) -> Result<Vec<u8>, Failure>
        ensures lines { IfOk result (λ text. text.items ≡ table_text (table_of self.now)) }
        ensures failed { IfErr result (λ failure. ¬ IsReading failure) }
    {
        let mut text = Vec::new(alloc);
        self.push_rows(&mut text)?;
        push_words(&mut text, "paths: ")?;
        push_number(&mut text, self.texts.len() as u64)?;
        push_words(&mut text, ", elements left out: ")?;
        push_number(&mut text, self.left_out)?;
        push_words(&mut text, "\n")?;
        Ok(text)
    }

    /// How many paths there are with what was counted of them.
    fn count(&self) -> usize
        ensures { result ≡ min (min (length (table_of self.now).paths) (length (table_of self.now).firsts)) (length (table_of self.now).rows) }
    {
        self.texts.len().min(self.firsts.len()).min(self.rows.len())
    }

    fn push_rows(&self, text: &mut Vec<u8>) -> Result<(), Failure>
        ensures lines { OnOk result (text.new.items ≡ text.old.items
            ++ rows_text (table_of self.now).paths (table_of self.now).firsts (table_of self.now).rows) }
        ensures failed { IfErr result (λ failure. ¬ IsReading failure) }
    {
        let paths = self.texts.as_slice();
        let count = self.count();
        for number in 0..count {
            let first = self.firsts[number];
            let row = self.rows[number];
            push_row(text, &paths[number], first, &row)?;
        }
        Ok(())
    }
}

/// A value more in the row with this number.
fn count_at(
    rows: &mut Vec<Row>,
    number: usize,
    document: u64,
    tag: u32,
    size: u32,
) -> Result<(), Failure>
    ensures counted { OnOk result (rows.new.items
        ≡ set rows.old.items number (count_value document tag size (get_or rows.old.items number no_row))) }
    ensures failed { IfErr result (λ failure. ¬ IsReading failure) }
{
    if number < rows.len() {
        rows[number].count(document, tag, size)?;
    }
    Ok(())
}
