//! One of two programs that run beside each other.

ghost use Rattle.std.specs.Prelude.{◌≡◌, ◌+◌, ◌<◌, ◌≤◌, ◌^◌, ◌++◌, [], ℕ, List, IfOk, Some, None, drop, length, slice_get, take};
ghost use Rattle.cob_tree.specs.declared.program.Program.{Program};
ghost use Rattle.cobol_theory.specs.cobol_meaning.Runs.{Files};
ghost use Rattle.cobol_run.specs.Falling.{SameBench};
ghost use Rattle.cobol_run.specs.Over.{TellFiles};
ghost use Rattle.cobol_run.specs.Own.{IsOwn};
ghost use Rattle.control_flow_theory.specs.semantics.Outcome.{Trace};
ghost use Rattle.file_model.specs.operations.Seen.{Seen};
ghost use Rattle.trace_compare.specs.Event.{event_of, way_if};
ghost use Rattle.trace_compare.specs.Next.{are_some, may_step};
ghost use Rattle.trace_compare.specs.Side.{StandsAt, StepLeaves, StepsOn, Took, ended_of, files_of, last_events, pending_of};

use crate::event::Event;
use cob_base::NoMemory;
use cob_tree::Program;
use cobol_run::events::{advance, begin};
use cobol_run::{Ending, Machine, StepOutcome};
use file_model::Bench;
use file_model::operations::Shown;
use std::alloc::Global;

/// A program that runs beside another one.
#[derive(Drop)]
pub struct ComparedSide<'a> {
    pub machine: Machine<'a>,
    /// How many more steps it may make.
    pub left: u64,
    /// Whether its last step displayed; else its events are what it did with files.
    pub displayed: bool,
    /// How many events of its last step are compared.
    pub compared: usize,
    /// How it ended, where it did.
    pub ended: Option<Ending>,
}

/// What a step of a side comes to.
#[derive(Clone, Copy)]
pub enum Advance {
    On,
    /// A device failed, and is the first one after those on the bench.
    Failed,
    NoMemory,
}

impl<'a> ComparedSide<'a> {
    /// A program at its start, which may make so many steps. No event is there to be compared.
    pub fn new(
        alloc: Global,
        program: &'a Program,
        steps: u64,
    ) -> Result<ComparedSide<'a>, NoMemory>
        ensures stands { IfOk result (λ side. (devices : List Seen) (files : Files) →
            TellFiles program.now devices files →
            StandsAt program.now files side devices steps []) }
        ensures program { IfOk result (λ side. files_of side ≡ program.now.files) }
        ensures few { IfOk result (λ side. length program.now.files < 2 ^ 32) }
        ensures none { IfOk result (λ side. pending_of side ≡ []) }
        ensures left { IfOk result (λ side. side.left ≡ steps) }
    {
        let machine = begin(alloc, program)?;
        Ok(ComparedSide {
            machine,
            left: steps,
            displayed: true,
            compared: 1,
            ended: None,
        })
    }

    // How many events its last step has.
    fn count(&self) -> usize
        ensures { result ≡ length (last_events self.now) }
    {
        if self.displayed {
            1
        } else {
            self.machine.work.done.len()
        }
    }

    /// How many events of its last step aren't compared.
    pub fn pending(&self) -> usize
        ensures { result ≡ length (pending_of self.now) }
    {
        self.count().saturating_sub(self.compared)
    }

    /// Whether an event of its last step isn't compared.
    pub fn has_event(&self) -> bool
        ensures { result ≡ are_some (pending_of self.now) }
    {
        self.pending() > 0
    }

    /// The event after so many of those that aren't compared.
    pub fn event(&self, at: usize) -> Event<'_>
        requires { at < length (pending_of self.now) }
        ensures { slice_get (pending_of self.now) at ≡ Some (event_of result) }
    {
        if self.displayed {
            return Event::Displayed(self.machine.held.shown.as_slice());
        }
        let done = self.machine.work.done[self.compared + at];
        Event::Filed(done, self.machine.work.bytes_of(done))
    }

    /// Whether it can make one more step.
    pub fn may_step(&self) -> bool
        ensures { result ≡ may_step (ended_of self.now) self.now.left }
    {
        match self.ended {
            None => self.left > 0,
            Some(_) => false,
        }
    }

    /// Takes so many of its events as compared.
    pub fn skip(&mut self, count: usize)
        requires { count ≤ length (pending_of self.old) }
        ensures pending { pending_of self.new ≡ drop count (pending_of self.old) }
        ensures stands { (program : Program) (files : Files) (devices : List Seen) (steps : ℕ)
            (compared : Trace) → StandsAt program files self.old devices steps compared →
            StandsAt program files self.new devices steps
            (compared ++ take count (pending_of self.old)) }
        ensures left { self.new.left ≡ self.old.left }
        ensures machine { self.new.machine ≡ self.old.machine }
        ensures ended { self.new.ended ≡ self.old.ended }
    {
        self.compared += count;
    }

    /// Makes one more step, all events of the last one being compared.
    pub fn step(&mut self, bench: &mut Bench) -> Advance
        requires left { 0 < self.old.left }
        ensures stands { (program : Program) (files : Files) (steps : ℕ) (compared : Trace) →
            IsOwn program → self.old.ended ≡ None → pending_of self.old ≡ [] →
            StandsAt program files self.old (⟦<Bench as Shown>⟧.on bench.old) steps compared →
            StepsOn result program files self.new (⟦<Bench as Shown>⟧.on bench.new) steps compared }
        ensures falls { (left : ℕ) (old : List Seen) → SameBench (files_of self.old)
            left bench.old.left old (⟦<Bench as Shown>⟧.all bench.old) →
            StepLeaves result (files_of self.old) left bench.new.left old
            (⟦<Bench as Shown>⟧.all bench.new)
            self.new.machine.table.rows }
        ensures plan { self.new.machine.plan ≡ self.old.machine.plan }
        ensures fewer { self.new.left + 1 ≡ self.old.left }
        ensures few { length (pending_of self.new) < 2 ^ 64 }
    {
        self.left -= 1;
        let made = advance(&mut self.machine, bench);
        let advanced = self.take(made);
        // A count that is a `usize` says that the events fit one.
        let _count = self.count();
        advanced
    }

    // Takes what a step came to.
    fn take(&mut self, made: Result<StepOutcome, NoMemory>) -> Advance
        ensures same { self.new.machine ≡ self.old.machine }
        ensures left { self.new.left ≡ self.old.left }
        ensures made { Took made result self.old self.new }
    {
        self.compared = 0;
        self.displayed = false;
        match made {
            Err(_) => Advance::NoMemory,
            Ok(StepOutcome::Failed) => Advance::Failed,
            Ok(StepOutcome::On) => Advance::On,
            Ok(StepOutcome::Shown) => {
                self.displayed = true;
                Advance::On
            }
            Ok(StepOutcome::Over(ending)) => {
                self.ended = Some(ending);
                Advance::On
            }
        }
    }
}
