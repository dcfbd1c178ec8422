//! The lines of bytes that follow one another.

ghost use Rattle.std.specs.Prelude.{◌≡◌, [], ◌++◌, ◌-◌, ◌<◌, ◌^◌, length, take, drop, replicate, slice_index, OnOk, OnErr};
ghost use Rattle.ref_format.specs.LineRuns.{lines_in};

use cob_base::NoMemory;
use std::alloc::Global;
use std::marker::Model;

/// How many bytes that follow one another are on a line.
#[derive(Clone, Copy, Debug)]
pub struct Run {
    pub line: u32,
    pub count: usize,
}

/// The lines of bytes.
///
/// Contracts see a list with the line of each byte.
#[derive(Drop)]
pub struct LineRuns {
    runs: Vec<Run>,
}

impl Model for LineRuns {
    ghost use Rattle.std.specs.Prelude.{List, ℕ};
    ghost use Rattle.ref_format.specs.LineRuns.{lines_in};

    ghost Value = { List ℕ };

    ghost view = { λ r. lines_in r.runs.items };
}

impl LineRuns {
    /// No bytes.
    pub fn new(alloc: Global) -> LineRuns
        ensures { result ≡ [] }
    {
        LineRuns {
            runs: Vec::new(alloc),
        }
    }

    /// Adds the line of so many more bytes.
    pub fn add(&mut self, line: u32, count: usize) -> Result<(), NoMemory>
        ensures ok { OnOk result (self.new ≡ self.old ++ replicate count line) }
        ensures err { OnErr result (self.new ≡ self.old) }
    {
        self.runs.push(Run { line, count })?;
        Ok(())
    }

    /// Takes the line of the last byte off.
    pub fn drop_last(&mut self)
        requires { 0 < length self.old }
        ensures { self.new ≡ take (length self.old - 1) self.old }
    {
        shorten(&mut self.runs);
    }

    /// The lines from the first byte on.
    pub fn from_first(&self) -> LinesLeft<'_>
        requires { length self.now < 2 ^ 63 }
        ensures { result ≡ self.now }
    {
        lines_behind(self.runs.as_slice(), 0)
    }
}

/// Takes the last byte off runs that have one.
#[tactic(auto, using(crate::proofs::TextLemmas::empty_run_off, crate::proofs::TextLemmas::run_shortened))]
fn shorten(runs: &mut Vec<Run>)
    requires { 0 < length (lines_in runs.old.items) }
    ensures { lines_in runs.new.items
        ≡ take (length (lines_in runs.old.items) - 1) (lines_in runs.old.items) }
{
    while let Some(run) = runs.pop() {
        if run.count > 0 {
            runs.push_reserved(Run {
                line: run.line,
                count: run.count - 1,
            });
            return;
        }
    }
}

/// The lines of the bytes that are left of a text.
///
/// Contracts see a list with the line of each of these bytes.
#[derive(Drop)]
pub struct LinesLeft<'a> {
    runs: &'a [Run],
    /// How many bytes of the first run aren't left.
    passed: usize,
}

impl<'a> Model for LinesLeft<'a> {
    ghost use Rattle.std.specs.Prelude.{List, ℕ, ◌<◌, ◌^◌, length, drop};
    ghost use Rattle.ref_format.specs.LineRuns.{lines_in, IsInFirst};

    ghost Value = { List ℕ };

    ghost view = { λ l. drop l.passed (lines_in l.runs.now) };

    ghost invariant = { λ l. (length (lines_in l.runs.now) < 2 ^ 63)
        × IsInFirst l.passed l.runs.now };
}

impl<'a> LinesLeft<'a> {
    /// The line of the next byte; 0 where none is left.
    #[tactic(auto, using(crate::proofs::TextLemmas::first_line_left, crate::proofs::TextLemmas::none_left))]
    pub fn first(&self) -> u32
        ensures { result ≡ slice_index self.now 0 }
    {
        match self.runs {
            [run, ..] => run.line,
            [] => 0,
        }
    }

    /// Goes on behind so many bytes, or all.
    #[tactic(auto, using(crate::proofs::TextLemmas::passed_on))]
    pub fn pass(&mut self, count: usize)
        ensures { self.new ≡ drop count self.old }
    {
        *self = lines_behind(self.runs, self.passed.saturating_add(count));
    }
}

/// The lines behind so many bytes of these runs.
#[tactic(auto, using(crate::proofs::TextLemmas::run_passed, crate::proofs::TextLemmas::run_within))]
fn lines_behind<'a>(runs: &'a [Run], passed: usize) -> LinesLeft<'a>
    requires { length (lines_in runs.now) < 2 ^ 63 }
    ensures { result ≡ drop passed (lines_in runs.now) }
{
    let mut rest = runs;
    let mut left = passed;
    while let [run, others @ ..] = rest {
        if left < run.count {
            return LinesLeft {
                runs: rest,
                passed: left,
            };
        }
        left -= run.count;
        rest = others;
    }
    LinesLeft {
        runs: &[],
        passed: 0,
    }
}
