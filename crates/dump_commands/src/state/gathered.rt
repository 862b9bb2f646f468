//! What was gathered of documents: what the elements of all have under each path, and what their lengths show.
#![tactic(auto)]

ghost use Rattle.std.specs.Prelude.{◌≡◌, IfErr, IfOk, OnOk};
ghost use Rattle.dump_commands.specs.state.Gathered.{Document, IsMeasured, gathered_of, measure_lines, nothing, of_seen, of_side, summaries_of, with_document};
ghost use Rattle.dump_commands.specs.diff.Sides.{side_of};
ghost use Rattle.dump_io.specs.lines.Failing.{IsReading};
ghost use Rattle.dump_io.specs.lines.Origins.{origin_of};

use crate::command::Summaries;
use crate::diff::sides::{Side, Sides};
use crate::elements::id::shown_id;
use crate::state::measure_lines::{largest_lines, range_lines, share_lines};
use crate::state::measures::{Measures, Ranked, range_of};
use crate::state::paths::Paths;
use crate::state::seen::joined;
use dump_io::lines::failure::Failure;
use dump_io::lines::origin::Origin;
use dump_io::lines::style::Style;
use std::alloc::{AllocError, Global};

/// What is gathered of the lengths of documents.
#[derive(Clone, Copy)]
pub enum Measure {
    /// how many documents have a length from one power of two to the next
    Histogram,
    /// the longest documents, this many at most
    Largest(usize),
    /// in which stretches of this many bytes documents begin: the first of each, and how many there are
    Parts(u64),
}

impl Measure {
    /// After which inputs a line tells what was counted.
    pub fn summaries(self) -> Summaries
        ensures { result ≡ summaries_of self }
    {
        match self {
            Measure::Histogram => Summaries::Each,
            Measure::Largest(_) => Summaries::Last,
            Measure::Parts(_) => Summaries::Never,
        }
    }
}

/// What was gathered of documents.
#[derive(Drop)]
pub struct Gathered<'a> {
    /// what was counted of each path
    pub paths: Paths<'a>,
    /// what was gathered of lengths
    pub measures: Measures<'a>,
    /// of each path that picks elements whether it leads to one in some document
    pub seen: Vec<bool>,
    /// documents that are compared
    pub sides: Sides<'a>,
}

impl<'a> Gathered<'a> {
    /// Nothing was gathered. At most `paths` paths will be counted.
    pub fn new(alloc: Global, paths: usize) -> Gathered<'a>
        ensures { gathered_of result ≡ nothing paths }
    {
        Gathered {
            paths: Paths::new(alloc, paths),
            measures: Measures::new(alloc),
            seen: Vec::new(alloc),
            sides: Sides::new(alloc),
        }
    }

    /// Puts the length of a document with these bytes, which begins there, to those that were gathered.
    pub fn measure(
        &mut self,
        alloc: Global,
        measure: Measure,
        place: Origin<'a>,
        bytes: &[u8],
    ) -> Result<(), Failure>
        ensures added { OnOk result ((document : Document) × IsMeasured measure (origin_of place.entry) bytes.now document
            × (gathered_of self.new ≡ with_document (gathered_of self.old) document)) }
        ensures failed { IfErr result (λ failure. ¬ IsReading failure) }
    {
        match measure {
            Measure::Histogram => self.measures.add_length(range_of(bytes.len())),
            Measure::Largest(most) => {
                let id = shown_id(alloc, bytes)?;
                let size = bytes.len();
                self.measures.add_ranked(most, Ranked { place, size, id })?;
                Ok(())
            }
            Measure::Parts(stretch) => self.measures.add_divided(stretch, place),
        }
    }

    /// Puts which paths lead to an element in a document to what was gathered.
    pub fn see(&mut self, alloc: Global, flags: &[bool]) -> Result<(), AllocError>
        ensures added { OnOk result (gathered_of self.new ≡ with_document (gathered_of self.old) (of_seen flags.now)) }
    {
        self.seen = joined(alloc, flags, &self.seen)?;
        Ok(())
    }

    /// Puts a document that is compared to those that were gathered.
    pub fn add_side(&mut self, of_old: bool, side: Side<'a>) -> Result<(), AllocError>
        ensures added { OnOk result (gathered_of self.new ≡ with_document (gathered_of self.old) (of_side of_old (side_of side.entry))) }
    {
        self.sides.add(of_old, side)
    }

    /// The lines that tell what was gathered of lengths.
    pub fn measure_lines(
        &self,
        alloc: Global,
        style: Style,
        measure: Measure,
    ) -> Result<Vec<u8>, Failure>
        ensures lines { IfOk result (λ text. text.items ≡ measure_lines style measure (gathered_of self.now).measures) }
        ensures failed { IfErr result (λ failure. ¬ IsReading failure) }
    {
        match measure {
            Measure::Histogram => Ok(range_lines(alloc, style, &self.measures.ranges)?),
            Measure::Largest(_) => Ok(largest_lines(alloc, &self.measures.largest)?),
            Measure::Parts(_) => Ok(share_lines(alloc, &self.measures.shares)?),
        }
    }
}
