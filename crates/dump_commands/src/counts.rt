ghost use Rattle.std.specs.Prelude.{◌≡◌, IfSome, IsNone};
ghost use Rattle.dump_commands.specs.Counting.{AreInRange, count_alone, count_document, count_fault, count_gap, count_left, count_rest, count_said, no_counts, plus};

use dump_io::lines::find::Finding;

/// What was read so far.
#[derive(Clone, Copy)]
pub struct Counts {
    /// documents
    pub documents: u64,
    /// their bytes
    pub bytes: u64,
    /// those without damage that aren't canonical
    pub breached: u64,
    /// those with damage; of texts, those with a fault
    pub damaged: u64,
    /// those that are too deep
    pub too_deep: u64,
    /// those without damage that stand alone, and aren't written to the output
    pub alone: u64,
    /// bytes that were passed over
    pub passed_over: u64,
    /// damaged regions: documents with damage, and bytes that were passed over
    pub regions: u64,
    /// the bytes of these
    pub lost: u64,
    /// bytes of which no document was made, in files that weren't read to their end
    pub not_read: u64,
    /// those files
    pub files: u64,
    /// what was found of which a line tells, printed or not
    pub findings: u64,
}

impl Counts {
    /// Nothing was read.
    pub fn new() -> Counts
        ensures { result ≡ no_counts }
    {
        Counts {
            documents: 0,
            bytes: 0,
            breached: 0,
            damaged: 0,
            too_deep: 0,
            alone: 0,
            passed_over: 0,
            regions: 0,
            lost: 0,
            not_read: 0,
            files: 0,
            findings: 0,
        }
    }

    /// One document more, of `len` bytes, in which this was found, with this number of findings; `None` where a count would be over its range.
    pub fn with(self, len: usize, finding: Finding, findings: u64) -> Option<Counts>
        ensures counted { IfSome result (λ n. n ≡ count_document self len finding findings) }
        ensures none { IsNone result → ¬ AreInRange (count_document self len finding findings) }
    {
        let read = Counts {
            documents: self.documents.checked_add(1)?,
            bytes: self.bytes.checked_add(len as u64)?,
            findings: self.findings.checked_add(findings)?,
            ..self
        };
        match finding {
            Finding::Canonical | Finding::Unvalidated => Some(read),
            Finding::Breached => Some(Counts {
                breached: read.breached.checked_add(1)?,
                ..read
            }),
            Finding::Damaged => Some(Counts {
                damaged: read.damaged.checked_add(1)?,
                regions: read.regions.checked_add(1)?,
                lost: read.lost.checked_add(len as u64)?,
                ..read
            }),
            Finding::TooDeep => Some(Counts {
                too_deep: read.too_deep.checked_add(1)?,
                ..read
            }),
        }
    }

    /// One document more, of `len` bytes, that stands alone; `None` where a count would be over its range.
    pub fn with_alone(self, len: usize) -> Option<Counts>
        ensures counted { IfSome result (λ n. n ≡ count_alone self len) }
        ensures none { IsNone result → ¬ AreInRange (count_alone self len) }
    {
        Some(Counts {
            documents: self.documents.checked_add(1)?,
            bytes: self.bytes.checked_add(len as u64)?,
            alone: self.alone.checked_add(1)?,
            ..self
        })
    }

    /// One document more, of `len` bytes, that a text says; `None` where a count would be over its range.
    pub fn with_said(self, len: usize) -> Option<Counts>
        ensures counted { IfSome result (λ n. n ≡ count_said self len) }
        ensures none { IsNone result → ¬ AreInRange (count_said self len) }
    {
        Some(Counts {
            documents: self.documents.checked_add(1)?,
            bytes: self.bytes.checked_add(len as u64)?,
            ..self
        })
    }

    /// One text more that has a fault; `None` where a count would be over its range.
    pub fn with_fault(self) -> Option<Counts>
        ensures counted { IfSome result (λ n. n ≡ count_fault self) }
        ensures none { IsNone result → ¬ AreInRange (count_fault self) }
    {
        Some(Counts {
            damaged: self.damaged.checked_add(1)?,
            findings: self.findings.checked_add(1)?,
            ..self
        })
    }

    /// `count` bytes more that were passed over; `None` where they would be over the range of a count.
    pub fn with_gap(self, count: u64) -> Option<Counts>
        ensures counted { IfSome result (λ n. n ≡ count_gap self count) }
        ensures none { IsNone result → ¬ AreInRange (count_gap self count) }
    {
        Some(Counts {
            passed_over: self.passed_over.checked_add(count)?,
            regions: self.regions.checked_add(1)?,
            lost: self.lost.checked_add(count)?,
            findings: self.findings.checked_add(1)?,
            ..self
        })
    }

    /// One file more that wasn't read to its end, and `count` bytes of which no document was made; `None` where a count would be
    /// over its range.
    pub fn with_left(self, count: u64) -> Option<Counts>
        ensures counted { IfSome result (λ n. n ≡ count_left self count) }
        ensures none { IsNone result → ¬ AreInRange (count_left self count) }
    {
        Some(Counts {
            not_read: self.not_read.checked_add(count)?,
            files: self.files.checked_add(1)?,
            ..self
        })
    }

    /// The same, and a line tells of it.
    pub fn with_rest(self, count: u64) -> Option<Counts>
        ensures counted { IfSome result (λ n. n ≡ count_rest self count) }
        ensures none { IsNone result → ¬ AreInRange (count_rest self count) }
    {
        let told = Counts {
            findings: self.findings.checked_add(1)?,
            ..self
        };
        told.with_left(count)
    }

    /// Both together; `None` where a count would be over its range.
    pub fn plus(self, other: Counts) -> Option<Counts>
        ensures sum { IfSome result (λ n. n ≡ plus self other) }
        ensures none { IsNone result → ¬ AreInRange (plus self other) }
    {
        Some(Counts {
            documents: self.documents.checked_add(other.documents)?,
            bytes: self.bytes.checked_add(other.bytes)?,
            breached: self.breached.checked_add(other.breached)?,
            damaged: self.damaged.checked_add(other.damaged)?,
            too_deep: self.too_deep.checked_add(other.too_deep)?,
            alone: self.alone.checked_add(other.alone)?,
            passed_over: self.passed_over.checked_add(other.passed_over)?,
            regions: self.regions.checked_add(other.regions)?,
            lost: self.lost.checked_add(other.lost)?,
            not_read: self.not_read.checked_add(other.not_read)?,
            files: self.files.checked_add(other.files)?,
            findings: self.findings.checked_add(other.findings)?,
        })
    }
}
