//! Runs over inputs, one after the other, and says how that ended.
#![tactic(auto)]

ghost use Rattle.std.specs.Prelude.{◌≡◌, Bool, None, false, map, IfErr, IfOk, OnErr, OnOk};
ghost use Rattle.std.specs.Io.KnownBytes.{Keeps};
ghost use Rattle.std.specs.Option.{option_map};
ghost use Rattle.dump_commands.specs.Counting.{AreInRange, no_counts, plus};
ghost use Rattle.dump_io.specs.input.Done.{cut_of};
ghost use Rattle.dump_io.specs.lines.Failing.{IsReading};
ghost use Rattle.dump_runs.specs.Batch.{CountsAnother, CountsInput, CountsRun, EndsInput, HaltsInput, HaltsWithin, IsDone, KeepsNothing, RunsAll, RunsFront, State, first_cut, state_of, sum_in};
ghost use Rattle.dump_runs.specs.Plays.{held};
ghost use Rattle.dump_runs.specs.Status.{goes_on};
ghost use Rattle.dump_runs.specs.Summed.{IsKnown, sum_of};
ghost use Rattle.dump_runs.specs.Sums.{WritesAll, WritesAllFront, differs_by};

use crate::dumps::run::run;
use crate::dumps::source::Source;
use crate::ends::{Ended, status_of, status_of_failure};
use crate::reading::Reading;
use crate::sums::{compare_all, differ, put_all_counts, put_counts};
use crate::texts::read_texts;
use crate::writers::{Tally, Writers};
use bson_to_json::Guarded;
use dump_commands::counts::Counts;
use dump_commands::state::kept::Kept;
use dump_io::input::done::{Cut, Done, Lack, flush};
use dump_io::input::inputs::Inputs;
use dump_io::lines::failure::{Failure, in_range};
use std::alloc::Global;
use std::io::{Read, Write};

/// What came of the inputs so far.
#[derive(Drop)]
pub struct Totals<'a> {
    /// what was read of all before the one at hand
    pub counts: Counts,
    /// what came of that one
    pub tally: Tally<'a>,
    /// the first input that wasn't read to its end
    pub cut: Option<Cut<'a>>,
}

impl<'a> Totals<'a> {
    /// Nothing was read.
    fn new(alloc: Global, reading: Reading<'a>) -> Totals<'a>
        ensures counts { result.counts ≡ no_counts }
        ensures kept { KeepsNothing reading.entry result.tally.kept }
        ensures cut { result.cut ≡ None }
    {
        let kept = match reading {
            Reading::Dumps(job) => Kept::new(alloc, job.repeats, job.paths),
            Reading::Texts(_) => Kept::new(alloc, false, 0),
        };
        Totals {
            counts: Counts::new(),
            tally: Tally {
                counts: Counts::new(),
                kept,
            },
            cut: None,
        }
    }

    /// The input at hand is done with; `could` says whether it could be read on, where it wasn't read to its end.
    fn add(&mut self, name: &'a str, could: Option<bool>) -> Result<(), Failure>
        ensures counted { OnOk result (self.new.counts ≡ plus self.old.counts self.old.tally.counts) }
        ensures uncounted { OnErr result ((¬ AreInRange (plus self.old.counts self.old.tally.counts)) × (self.new.counts ≡ self.old.counts)) }
        ensures cut { option_map cut_of self.new.cut ≡ first_cut (option_map cut_of self.old.cut) name.entry.now could }
        ensures tally { self.new.tally ≡ self.old.tally }
        ensures failed { IfErr result (λ failure. ¬ IsReading failure) }
    {
        if self.cut.is_none() {
            self.cut = could.map(|goes_on| Cut { name, goes_on });
        }
        self.counts = in_range(self.counts.plus(self.tally.counts))?;
        Ok(())
    }
}

/// Runs over the inputs of these names, in order, does what is asked with each, and writes what was counted. What is written is flushed.
/// It is told that writing failed where a write did.
pub fn run_all<'a, I: Inputs, D: Write + Drop, A: Write + Drop, W: Write + Drop>(
    alloc: Global,
    reading: Reading<'a>,
    inputs: &I,
    names: &[&'a str],
    writers: &mut Writers<D, A, W>,
) -> Done<'a>
    ensures { IsDone reading.entry (I.bytes_of inputs.now) (map (λ name. name.now) names.now) writers.old writers.new result }
{
    let mut totals = Totals::new(alloc, reading);
    let mut differs = false;
    match run_each(
        alloc,
        reading,
        inputs,
        names,
        writers,
        &mut totals,
        &mut differs,
    ) {
        Ok(()) => Done {
            status: status_of(reading, totals.counts, differs),
            lack: totals.cut.map(Lack::Cut),
        },
        Err(failure) => {
            let failure = writers.cause_of(failure);
            Done {
                status: status_of_failure(reading, totals.counts, differs, &failure),
                lack: Some(Lack::Failed(failure)),
            }
        }
    }
}

/// Runs over the inputs of these names, in order, and writes what was counted of all.
fn run_each<'a, I: Inputs, D: Write + Drop, A: Write + Drop, W: Write + Drop>(
    alloc: Global,
    reading: Reading<'a>,
    inputs: &I,
    names: &[&'a str],
    writers: &mut Writers<D, A, W>,
    totals: &mut Totals<'a>,
    differs: &mut bool,
) -> Result<(), Failure>
    requires { differs.old ≡ false }
    ensures runs { OnOk result ((last : State) × RunsAll reading.entry (I.bytes_of inputs.now) (map (λ name. name.now) names.now)
        (state_of writers.old totals.old) last writers.new × (last.counts ≡ totals.new.counts) × (last.cut ≡ option_map cut_of totals.new.cut)
        × (differs.new ≡ differs_by reading.entry (sum_in last))) }
    ensures fails { IfErr result (λ failure. (is : Bool) × RunsFront reading.entry (I.bytes_of inputs.now) (map (λ name. name.now) names.now)
        (state_of writers.old totals.old) writers.new totals.new.counts is × IsKnown is differs.new failure) }
    ensures failed { IfErr result (λ failure. ¬ IsReading failure) }
{
    for name in names {
        run_one(alloc, reading, inputs, name, writers, totals)?;
    }
    finish(alloc, reading, inputs, totals, differs, writers)
}

/// Writes what is told of all inputs, once it is known whether documents of two that are compared differ. What is written is flushed.
fn finish<I: Inputs, D: Write + Drop, A: Write + Drop, W: Write + Drop>(
    alloc: Global,
    reading: Reading<'_>,
    inputs: &I,
    totals: &Totals<'_>,
    differs: &mut bool,
    writers: &mut Writers<D, A, W>,
) -> Result<(), Failure>
    ensures written { OnOk result (Keeps writers.old.out writers.new.out × Keeps writers.old.alone writers.new.alone
        × WritesAll reading.entry (I.bytes_of inputs.now) (sum_of totals.now) writers.old.report writers.new.report) }
    ensures differs { OnOk result (differs.new ≡ differs_by reading.entry (sum_of totals.now)) }
    ensures front { OnErr result (Keeps writers.old.out writers.new.out × Keeps writers.old.alone writers.new.alone
        × WritesAllFront reading.entry (I.bytes_of inputs.now) (sum_of totals.now) writers.old.report writers.new.report) }
    ensures known { IfErr result (IsKnown (differs_by reading.entry (sum_of totals.now)) differs.new) }
    ensures failed { IfErr result (λ failure. ¬ IsReading failure) }
{
    let Ok(compared) = compare_all(alloc, reading, totals) else {
        return Err(Failure::Memory);
    };
    *differs = differ(&compared);
    flush(&mut writers.out)?;
    flush(&mut writers.alone)?;
    put_all_counts(
        alloc,
        reading,
        inputs,
        totals,
        &compared,
        &mut writers.report,
    )?;
    flush(&mut writers.report)
}

/// Runs over one input, and writes what was counted of it.
fn run_one<'a, I: Inputs, D: Write + Drop, A: Write + Drop, W: Write + Drop>(
    alloc: Global,
    reading: Reading<'a>,
    inputs: &I,
    name: &'a str,
    writers: &mut Writers<D, A, W>,
    totals: &mut Totals<'a>,
) -> Result<(), Failure>
    ensures comes { OnOk result (CountsAnother reading.entry (I.bytes_of inputs.now name.entry.now) name.entry.now
        (state_of writers.old totals.old) (state_of writers.new totals.new)) }
    ensures halts { OnErr result (HaltsWithin reading.entry name.entry.now (I.bytes_of inputs.now name.entry.now)
        (state_of writers.old totals.old) writers.new totals.new.counts) }
    ensures failed { IfErr result (λ failure. ¬ IsReading failure) }
{
    count_one(alloc, reading, inputs, name, writers, totals)?;
    put_counts(
        alloc,
        reading,
        name,
        &totals.tally.counts,
        &mut writers.report,
    )
}

/// Runs over one input, and counts it. One that can't be opened isn't read to its end.
fn count_one<'a, I: Inputs, D: Write + Drop, A: Write + Drop, W: Write + Drop>(
    alloc: Global,
    reading: Reading<'a>,
    inputs: &I,
    name: &'a str,
    writers: &mut Writers<D, A, W>,
    totals: &mut Totals<'a>,
) -> Result<(), Failure>
    ensures counted { OnOk result (CountsInput reading.entry name.entry.now (I.bytes_of inputs.now name.entry.now) (state_of writers.old totals.old) writers.new totals.new) }
    ensures halts { OnErr result (HaltsWithin reading.entry name.entry.now (I.bytes_of inputs.now name.entry.now)
        (state_of writers.old totals.old) writers.new totals.new.counts) }
    ensures failed { IfErr result (λ failure. ¬ IsReading failure) }
{
    match inputs.open(name) {
        Ok(input) => {
            let ended = run_open(alloc, reading, name, input, writers, totals)?;
            tell_failure(inputs, name, &ended);
            Ok(())
        }
        Err(error) => {
            inputs.tell(name, None, &error);
            totals.tally.counts = in_range(Counts::new().with_left(0))?;
            totals.add(name, Some(false))
        }
    }
}

/// Tells where reading an input failed, if it did.
fn tell_failure<I: Inputs>(inputs: &I, name: &str, ended: &Ended) {
    if let Ended::Failed(failure) = ended {
        inputs.tell(name, Some(failure.at), &failure.error);
    }
}

/// Runs over an input that is open, and counts it.
fn run_open<'a, R: Read + Drop, D: Write + Drop, A: Write + Drop, W: Write + Drop>(
    alloc: Global,
    reading: Reading<'a>,
    name: &'a str,
    reader: R,
    writers: &mut Writers<D, A, W>,
    totals: &mut Totals<'a>,
) -> Result<Ended, Failure>
    ensures counted { IfOk result (CountsRun reading.entry name.entry.now (R.remaining reader) (state_of writers.old totals.old) writers.new totals.new) }
    ensures halts { OnErr result (HaltsWithin reading.entry name.entry.now (R.remaining reader) (state_of writers.old totals.old) writers.new totals.new.counts) }
    ensures failed { IfErr result (λ failure. ¬ IsReading failure) }
{
    let reading = reading.after(totals.counts);
    totals.tally.counts = Counts::new();
    let ran = run_over(alloc, reading, name, reader, writers, &mut totals.tally);
    totals.add(name, could_go_on(&ran))?;
    ran
}

/// Whether an input could be read on, where a run over it came to an end before the input did.
fn could_go_on(ran: &Result<Ended, Failure>) -> Option<bool>
    ensures { IfOk ran.now (λ ended. result ≡ goes_on ended) }
{
    match ran {
        Ok(ended) => ended.goes_on(),
        Err(_) => Some(false),
    }
}

/// Runs over an input, and does what is asked with what it holds.
fn run_over<'a, R: Read + Drop, D: Write + Drop, A: Write + Drop, W: Write + Drop>(
    alloc: Global,
    reading: Reading<'a>,
    name: &'a str,
    reader: R,
    writers: &mut Writers<D, A, W>,
    tally: &mut Tally<'a>,
) -> Result<Ended, Failure>
    ensures ends { IfOk result (EndsInput reading.entry name.entry.now (R.remaining reader) (held writers.old tally.old) (held writers.new tally.new)) }
    ensures halts { OnErr result (HaltsInput reading.entry name.entry.now (R.remaining reader) (held writers.old tally.old) (held writers.new tally.new)) }
    ensures failed { IfErr result (λ failure. ¬ IsReading failure) }
{
    match reading {
        Reading::Dumps(job) => {
            let mut source = Source::new(alloc, name, reader);
            run(alloc, job, &mut source, writers, tally)
        }
        Reading::Texts(job) => {
            let mut reader = Guarded::new(reader);
            read_texts(alloc, job, name, &mut reader, writers, tally)
        }
    }
}
