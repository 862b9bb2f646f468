//! An input that is read, as far as it is passed.
#![tactic(auto)]

ghost use Rattle.std.specs.Prelude.{◌≡◌, ◌≤◌, ◌<◌, ℕ, List, Option, IfErr, IfOk, IsSome, OnOk, length, take, true};
ghost use Rattle.dump_io.specs.input.Cut.{EndsWith, IsPiece};
ghost use Rattle.dump_io.specs.input.Reading.{GoesAhead, IsReadBehind, IsWindow, Stays, TellsNext, ahead_of};
ghost use Rattle.dump_io.specs.input.Resync.{Doubts, LooksBehind, SkipsTo};
ghost use Rattle.dump_io.specs.lines.Failing.{IsReading};
ghost use Rattle.dump_io.specs.lines.Origins.{origin_of};
ghost use Rattle.dump_runs.specs.dumps.Steps.{Begins, IsLeft, IsPassed, PassesAllFront, PassesSomeFront, Place, end_of, place_of, reach_of};
ghost use Rattle.raw_resync.specs.Seeking.{IsWork};

use bson_to_json::Guarded;
use dump_io::input::ending::Ending;
use dump_io::input::portion::Portion;
use dump_io::input::resync::{Skip, is_doubted, pass_over, stands_alone};
use dump_io::input::window::{Drained, Next, Window, look_ahead};
use dump_io::lines::failure::Failure;
use dump_io::lines::origin::Origin;
use raw_resync::Work;
use raw_tree::Limits;
use std::alloc::Global;
use std::io::Read;
use std::marker::Model;

/// An input that is read.
#[derive(Drop)]
pub struct Source<'a, R: Read + Drop> {
    /// its name, which begins each line
    name: &'a str,
    /// what gives its bytes
    reader: Guarded<R>,
    /// what was read of it, and isn't passed
    window: Window,
    /// what was spent on searches in it
    work: Work,
    /// whether what is next may stand alone: bytes were passed over right before it, or a document stands alone there
    is_broken: bool,
}

impl<'a, R: Read + Drop> Model for Source<'a, R> {
    ghost Value = { Place };

    ghost view = { λ s. record { name = s.name.now; left = R.remaining s.reader.inner; has_failed = s.reader.failed; window = s.window; work = s.work; broken = s.is_broken } };
}

impl<'a, R: Read + Drop> Source<'a, R> {
    /// Nothing is read of it.
    pub fn new(alloc: Global, name: &'a str, reader: R) -> Source<'a, R>
        ensures { Begins name.entry.now (R.remaining reader) result }
    {
        Source {
            name,
            reader: Guarded::new(reader),
            window: Window::new(alloc),
            work: Work::new(),
            is_broken: false,
        }
    }

    /// Whether a read of it failed.
    pub fn has_failed(&self) -> bool
        ensures { result ≡ self.now.has_failed }
    {
        self.reader.has_failed()
    }

    /// Whether its next part may stand alone.
    pub fn is_broken(&self) -> bool
        ensures { result ≡ self.now.broken }
    {
        self.is_broken
    }

    /// Where its next part begins.
    pub fn at(&self) -> Origin<'a>
        ensures { origin_of result ≡ place_of self.now }
    {
        Origin {
            name: self.name,
            offset: self.window.offset(),
        }
    }

    /// The first `len` bytes ahead.
    pub fn front(&self, len: usize) -> &[u8]
        requires { IsWindow self.now.window × (len ≤ length (ahead_of self.now.window)) }
        ensures { result.now ≡ take len (ahead_of self.now.window) }
    {
        &self.window.ahead()[..len]
    }

    /// How many of its bytes were read. Fails if they are over the range of an offset.
    pub fn end(&self) -> Result<u64, Failure>
        requires { IsWindow self.now.window }
        ensures end { IfOk result (λ end. end ≡ end_of self.now) }
        ensures failed { IfErr result (λ failure. ¬ IsReading failure) }
    {
        self.window.end()
    }

    /// Passes the document of `len` bytes, which stands alone or not. Fails if the offset would be over its range.
    pub fn pass(&mut self, len: usize, is_alone: bool) -> Result<(), Failure>
        requires { IsWindow self.old.window × (len ≤ length (ahead_of self.old.window)) }
        ensures passed { OnOk result (IsPassed len is_alone self.old self.new) }
        ensures failed { IfErr result (λ failure. ¬ IsReading failure) }
    {
        self.window.pass(len)?;
        self.is_broken = is_alone;
        Ok(())
    }

    /// Passes what is before the documents that are asked for, where a document has at most `most` bytes.
    pub fn pass_front(&mut self, portion: Portion, most: usize) -> Result<(), Failure>
        requires { (left : Option (List ℕ)) × Begins self.old.name left self.old }
        ensures passed { OnOk result (PassesAllFront portion most self.old self.new) }
        ensures fails { IfErr result (λ failure. IsReading failure → PassesSomeFront portion most self.old self.new) }
    {
        portion.pass_front(most, &mut self.reader, &mut self.window)
    }

    /// Looks what is next, where a document has at most `most` bytes.
    pub fn next(&mut self, most: usize) -> Result<Next, Failure>
        requires { IsWindow self.old.window }
        ensures told { IfOk result (TellsNext most self.old.left self.new.left self.old.window self.new.window 0) }
        ensures fails { IfErr result (λ _. Stays self.old.left self.new.left self.old.window self.new.window) }
        ensures same { (self.new.name ≡ self.old.name) × (self.new.work ≡ self.old.work) × (self.new.broken ≡ self.old.broken) }
    {
        look_ahead(&mut self.reader, &mut self.window, 0, most)
    }

    /// Whether the first document ahead, of `len` bytes, is damaged and its length isn't believed.
    pub fn is_doubted(&mut self, alloc: Global, limits: Limits, len: usize) -> Result<bool, Failure>
        requires { IsWindow self.old.window × IsWork self.old.work × (len ≤ length (ahead_of self.old.window)) × IsPiece limits.bytes (take len (ahead_of self.old.window)) }
        ensures doubts { IfOk result (Doubts limits (reach_of self.old) (reach_of self.new) len) }
        ensures fails { IfErr result (λ _. Stays self.old.left self.new.left self.old.window self.new.window) }
        ensures same { (self.new.name ≡ self.old.name) × (self.new.broken ≡ self.old.broken) }
    {
        is_doubted(
            alloc,
            &mut self.reader,
            &mut self.window,
            limits,
            len,
            &mut self.work,
        )
    }

    /// Whether documents don't go on after the first `len` bytes ahead, where that is looked at.
    pub fn stands_alone(
        &mut self,
        alloc: Global,
        limits: Limits,
        len: usize,
    ) -> Result<bool, Failure>
        requires { IsWindow self.old.window × IsWork self.old.work × (len ≤ length (ahead_of self.old.window)) }
        ensures looks { IfOk result (LooksBehind limits (reach_of self.old) (reach_of self.new) len) }
        ensures fails { IfErr result (λ _. Stays self.old.left self.new.left self.old.window self.new.window) }
        ensures same { (self.new.name ≡ self.old.name) × (self.new.broken ≡ self.old.broken) }
    {
        stands_alone(
            alloc,
            &mut self.reader,
            &mut self.window,
            limits,
            len,
            &mut self.work,
        )
    }

    /// Passes over bytes, at least one, until documents go on.
    pub fn pass_over(&mut self, alloc: Global, limits: Limits) -> Result<Skip, Failure>
        requires { IsWindow self.old.window × IsWork self.old.work × (0 < length (ahead_of self.old.window)) }
        ensures skips { IfOk result (SkipsTo limits (reach_of self.old) (reach_of self.new)) }
        ensures fails { IfErr result (λ failure. IsReading failure → GoesAhead self.old.left self.new.left self.old.window self.new.window) }
        ensures broken { OnOk result (self.new.broken ≡ true) }
        ensures same { self.new.name ≡ self.old.name }
    {
        let skip = pass_over(
            alloc,
            &mut self.reader,
            &mut self.window,
            limits,
            &mut self.work,
        )?;
        self.is_broken = true;
        Ok(skip)
    }

    /// Reads the rest, with which no document begins, and counts it. It isn't told that reading failed where no read did.
    pub fn drain(&mut self, ending: Ending) -> Result<Drained, Failure>
        requires { IsWindow self.old.window × ((most : ℕ) × EndsWith most ending (ahead_of self.old.window)) × IsReadBehind ending self.old.left }
        ensures left { IfOk result (λ rest. (most : ℕ) → EndsWith most ending (ahead_of self.old.window)
            → IsLeft most ending self.old.left self.new.left (ahead_of self.old.window) rest) }
        ensures caused { IfOk result (λ rest. IsSome rest.failure → self.new.has_failed ≡ true) }
        ensures failed { IfErr result (λ failure. ¬ IsReading failure) }
    {
        let rest = rest_of(ending, &mut self.reader, &mut self.window)?;
        if rest.failure.is_some() && !self.reader.has_failed() {
            return Err(Failure::Memory);
        }
        Ok(rest)
    }
}

/// Reads the rest of an input, with which no document begins, and counts it.
fn rest_of<R: Read>(ending: Ending, reader: &mut R, window: &mut Window) -> Result<Drained, Failure>
    requires { IsWindow window.old × ((most : ℕ) × EndsWith most ending (ahead_of window.old)) × IsReadBehind ending (R.remaining reader.old) }
    ensures left { IfOk result (λ rest. (most : ℕ) → EndsWith most ending (ahead_of window.old)
        → IsLeft most ending (R.remaining reader.old) (R.remaining reader.new) (ahead_of window.old) rest) }
    ensures failed { IfErr result (λ failure. ¬ IsReading failure) }
{
    match ending {
        Ending::CutOff(count) => Ok(Drained {
            count: count as u64,
            failure: None,
        }),
        Ending::Unsound(_) => window.drain(reader),
        Ending::WrongLength(_) => unreachable!(),
    }
}
