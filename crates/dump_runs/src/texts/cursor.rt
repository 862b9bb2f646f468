//! A place in an input of texts, and what is next there.
#![tactic(auto)]

ghost use Rattle.std.specs.Prelude.{◌≡◌, ◌+◌, ◌≤◌, ◌<◌, ◌^◌, ◌⊎◌, [], length, IfErr, IfOk, OnErr, OnOk};
ghost use Rattle.dump_io.specs.input.Reading.{IsWindow, ahead_of, offset_of};
ghost use Rattle.dump_io.specs.lines.Failing.{IsReading};
ghost use Rattle.dump_runs.specs.texts.Faults.{reason_between};
ghost use Rattle.dump_runs.specs.texts.Reading.{FindsText, GoesOnTo, IsAhead, IsScanned, LooksFar, LooksOn, PassesAhead, PassesBetween, PassesGap};
ghost use Rattle.dump_io.specs.input.Places.{IsFar, first_position};
ghost use Rattle.dump_io.specs.declared.input.turn.Turn.TheVariants.{First};
ghost use Rattle.dump_runs.specs.declared.texts.fault.TextReason.TheVariants.{Json};

use crate::texts::fault::TextReason;
use bson_from_json::JsonReason;
use dump_io::input::position::{Position, begins_line};
use dump_io::input::scan::{MOST_TEXT, Scan, Scanned};
use dump_io::input::turn::Turn;
use dump_io::input::window::Window;
use dump_io::lines::failure::Failure;
use std::alloc::Global;
use std::io::Read;

/// A place in an input of texts.
#[derive(Drop)]
pub struct Cursor {
    /// what is read there
    pub window: Window,
    /// its line and column
    pub place: Position,
    /// what may come there
    pub turn: Turn,
}

/// What is next in an input.
#[derive(Clone, Copy)]
pub enum NextText {
    /// the text of a document, as far as it comes
    Text(Scanned),
    /// what can't be there
    Wrong(TextReason),
    /// the end of the input
    End,
}

impl Cursor {
    /// The first place.
    pub fn new(alloc: Global) -> Cursor
        ensures window { IsWindow result.window }
        ensures nothing { ahead_of result.window ≡ [] }
        ensures place { result.place ≡ first_position }
        ensures start { offset_of result.window ≡ 0 }
        ensures turn { result.turn ≡ First }
    {
        Cursor {
            window: Window::new(alloc),
            place: Position::new(),
            turn: Turn::First,
        }
    }

    /// Reads on until `want` bytes are ahead, or the input ends, and returns whether they are.
    fn look<R: Read>(&mut self, reader: &mut R, want: usize) -> Result<bool, Failure>
        requires { IsWindow self.old.window × (want < 2 ^ 32) }
        ensures looks { IfOk result (LooksFar (R.remaining reader.old) (R.remaining reader.new) self.old self.new want) }
        ensures fails { IfErr result (λ _. LooksOn (R.remaining reader.old) (R.remaining reader.new) self.old self.new) }
    {
        self.window.look(reader, want)
    }

    /// The next byte; none at the end of the input.
    fn next<R: Read>(&mut self, reader: &mut R) -> Result<Option<u8>, Failure>
        requires { IsWindow self.old.window }
        ensures next { IfOk result (λ next. LooksOn (R.remaining reader.old) (R.remaining reader.new) self.old self.new × IsAhead (R.remaining reader.new) self.new next) }
        ensures fails { IfErr result (λ _. LooksOn (R.remaining reader.old) (R.remaining reader.new) self.old self.new) }
    {
        if !self.look(reader, 1)? {
            return Ok(None);
        }
        Ok(self.window.ahead().first().copied())
    }

    /// Passes `len` bytes.
    pub fn pass(&mut self, len: usize) -> Result<(), Failure>
        requires { IsWindow self.old.window × (len ≤ length (ahead_of self.old.window)) }
        ensures passed { OnOk result (PassesAhead self.old self.new len) }
        ensures over { OnErr result ((2 ^ 64 ≤ offset_of self.old.window + len) ⊎ IsFar self.old.place len) }
        ensures failed { IfErr result (λ failure. ¬ IsReading failure) }
    {
        self.place = self.place.over(&self.window.ahead()[..len])?;
        self.window.pass(len)
    }

    /// Passes what may be between documents, and returns the byte after it.
    fn pass_between<R: Read>(&mut self, reader: &mut R) -> Result<Option<u8>, Failure>
        requires { IsWindow self.old.window }
        ensures passed { IfOk result (PassesBetween (R.remaining reader.old) (R.remaining reader.new) self.old self.new) }
        ensures fails { IfErr result (λ failure. IsReading failure → GoesOnTo (R.remaining reader.old) (R.remaining reader.new) self.old self.new) }
    {
        for _ in 0..u64::MAX {
            let Some(byte) = self.next(reader)? else {
                return Ok(None);
            };
            let Some(behind) = self.turn.behind(byte) else {
                return Ok(Some(byte));
            };
            self.turn = behind;
            self.pass(1)?;
        }
        Err(Failure::TooLarge)
    }

    /// Passes bytes up to the next line that begins with a brace, or to the end of the input.
    pub fn pass_gap<R: Read>(&mut self, reader: &mut R) -> Result<(), Failure>
        requires { IsWindow self.old.window }
        ensures passed { OnOk result (PassesGap (R.remaining reader.old) (R.remaining reader.new) self.old self.new) }
        ensures fails { IfErr result (λ failure. IsReading failure → GoesOnTo (R.remaining reader.old) (R.remaining reader.new) self.old self.new) }
    {
        for _ in 0..u64::MAX {
            let Some(byte) = self.next(reader)? else {
                self.turn = Turn::Last;
                return Ok(());
            };
            if begins_line(self.place, byte) {
                return Ok(());
            }
            self.pass(1)?;
        }
        Err(Failure::TooLarge)
    }

    /// Reads on to the end of the text of a document, if it has one.
    fn scan<R: Read>(&mut self, reader: &mut R) -> Result<Scanned, Failure>
        requires { IsWindow self.old.window }
        ensures found { IfOk result (λ found. LooksOn (R.remaining reader.old) (R.remaining reader.new) self.old self.new × IsScanned (R.remaining reader.new) (ahead_of self.new.window) found) }
        ensures fails { IfErr result (λ failure. IsReading failure → LooksOn (R.remaining reader.old) (R.remaining reader.new) self.old self.new) }
    {
        let mut found = Scanned {
            scan: Scan::new(),
            len: 0,
        };
        for _ in 0..u64::MAX {
            if found.len >= MOST_TEXT || !self.look(reader, found.len + 1)? {
                return Ok(found);
            }
            found = found.on(self.window.ahead());
            if !found.scan.is_open() {
                return Ok(found);
            }
        }
        Err(Failure::TooLarge)
    }

    /// Passes what may be between documents, and looks what is next.
    pub fn find_text<R: Read>(&mut self, reader: &mut R) -> Result<NextText, Failure>
        requires { IsWindow self.old.window }
        ensures found { IfOk result (FindsText (R.remaining reader.old) (R.remaining reader.new) self.old self.new) }
        ensures fails { IfErr result (λ failure. IsReading failure → GoesOnTo (R.remaining reader.old) (R.remaining reader.new) self.old self.new) }
    {
        match self.pass_between(reader)? {
            Some(b'{') if self.turn.may_begin() => Ok(NextText::Text(self.scan(reader)?)),
            Some(_) => Ok(NextText::Wrong(wrong(self.turn))),
            None if self.turn.may_end() => Ok(NextText::End),
            None => Ok(NextText::Wrong(TextReason::Json(JsonReason::EndOfText))),
        }
    }
}

/// Why a byte can't be there.
fn wrong(turn: Turn) -> TextReason
    ensures { result ≡ Json (reason_between turn) }
{
    let reason = match turn {
        Turn::First | Turn::Next | Turn::Item | Turn::More => JsonReason::ExpectedDocument,
        Turn::Comma => JsonReason::ExpectedComma,
        Turn::Last => JsonReason::TextBehind,
    };
    TextReason::Json(reason)
}
