//! A program as it runs, step by step.

ghost use Rattle.std.specs.Prelude.{◌≡◌, ◌≢◌, ◌<◌, ◌^◌, [], List, IfOk, IfSome, IsErr, IsTrue, Ok, None, false, length, slice_get};
ghost use Rattle.file_model.specs.World.{World};
ghost use Rattle.cob_act.specs.Acting.{is_inner};
ghost use Rattle.control_flow_theory.specs.semantics.Outcome.{Trace};
ghost use Rattle.control_flow_theory.specs.semantics.Source as source;
ghost use Rattle.control_flow_theory.specs.semantics.Items.{To, ToEnd, to_one, tried};
ghost use Rattle.control_flow_theory.specs.language.Language.{Depending};
ghost use Rattle.cobol_theory.specs.cobol_meaning.Acting.{chooses_in};
ghost use Rattle.cobol_theory.specs.cobol_meaning.Runs.{doing_in};
ghost use Rattle.control_flow_theory.specs.language.Control.{control_of, seen};
ghost use Rattle.control_flow_theory.specs.language.Items.{Item};
ghost use Rattle.cobol_run.specs.Falling.{StepFalls};
ghost use Rattle.cobol_run.specs.Filing.{StandsInNone};
ghost use Rattle.cobol_run.specs.Frames.{heads, last_in, last_of, pending_of, rest_of};
ghost use Rattle.cobol_run.specs.Machine.{Follows, IsNumbered, ends_by, falls_by, goes_by, performs_by, rest_in, rests_by, state_in, state_with, step_of, steps_by};
ghost use Rattle.cobol_run.specs.Own.{NoFiling, OwnState, StandsAlone, jumps};
ghost use Rattle.cobol_run.specs.Over.{FollowsOver, StandsOver, StepBreaks, step_done, stmt_meant};
ghost use Rattle.cobol_run.specs.Plain.{PlainState};
ghost use Rattle.cobol_run.specs.Plan.{declared_by, memory_in};
ghost use Rattle.cobol_run.specs.Points.{operations_in, stmt_operations};
ghost use Rattle.cobol_run.specs.NextStep.{KeepsPending};
ghost use Rattle.cobol_run.specs.Events.{IsFiled, Shows};

use crate::filing::{filed, is_filing};
use crate::frames::{
    Frames, Head, Return, is_pending, leave, next, push_return, push_sentences, take_return,
};
use crate::held::{Held, Plan, names};
use crate::next_step::turning_way;
use crate::statement::{jumps, performed_once, stmt_way};
use cob_act::ActOutcome;
use cob_act::files::FileWork;
use cob_base::{NoMemory, Text};
use cob_tree::{Abend, FlowFault, Paragraph, Place, Stmt};
use file_model::operations::{FileFault, Shown};
use file_model::{Bench, FileTable};

/// How a run ends by itself.
#[derive(Clone, Copy)]
pub enum Ending {
    Stopped,
    Abended(Abend),
    Faulted(FlowFault),
}

/// What a step comes to.
#[derive(Clone, Copy)]
pub enum StepOutcome {
    On,
    /// It goes on, and showed bytes.
    Shown,
    Over(Ending),
    /// A device failed, and is the first one after those on the bench.
    Failed,
}

/// A program that runs.
#[derive(Drop)]
pub struct Machine<'a> {
    pub plan: Plan<'a>,
    /// What is still to do, the returns that are pending among it.
    pub frames: Frames<'a>,
    pub paragraph: u32,
    pub held: Held,
    /// The state of each of its files.
    pub table: FileTable,
    /// What the step did with files, where that is kept.
    pub work: FileWork,
}

// What a statement comes to that is none on files.
fn step_of(done: ActOutcome) -> StepOutcome
    ensures step { result ≡ step_of done }
    ensures live { result ≢ StepOutcome.Failed }
{
    match done {
        ActOutcome::Went => StepOutcome::On,
        ActOutcome::Shown => StepOutcome::Shown,
        ActOutcome::Chose(_) => StepOutcome::On,
        ActOutcome::Abended(abend) => StepOutcome::Over(Ending::Abended(abend)),
    }
}

// What a statement on files comes to.
fn step_after(done: ActOutcome) -> StepOutcome
    ensures { result ≡ step_done done }
{
    match done {
        ActOutcome::Abended(abend) => StepOutcome::Over(Ending::Abended(abend)),
        ActOutcome::Went => StepOutcome::On,
        ActOutcome::Shown => StepOutcome::On,
        ActOutcome::Chose(_) => StepOutcome::On,
    }
}

// What a statement on files that broke off comes to; the error is NoMemory.
fn step_broken(fault: FileFault) -> Result<StepOutcome, NoMemory>
    ensures device { fault ≡ FileFault.Device → result ≡ Ok StepOutcome.Failed }
    ensures memory { fault ≡ FileFault.NoMemory → IsErr result }
{
    match fault {
        FileFault::Device => Ok(StepOutcome::Failed),
        FileFault::NoMemory => Err(NoMemory),
    }
}

// The statement on files that is next.
fn filing_of<'a>(head: Head<'a>) -> Option<&'a Stmt>
    ensures here { IfSome result (λ stmt. (head.entry ≡ Head.Stmt stmt)
        × (is_inner stmt.now ≡ false) × StandsInNone stmt.now) }
    ensures none { result ≡ None → NoFiling head.entry }
    ensures shows { IfSome result (λ stmt. IsFiled stmt.now) }
{
    match head {
        Head::Stmt(stmt) => { if is_filing(stmt) { Some(stmt) } else { None } }
        _ => None,
    }
}

fn clear(shown: &mut Text)
    ensures { shown.new ≡ [] }
{
    shown.bytes.clear();
}

// The paragraph with this name, from 0.
fn named(to: &[u32], name: usize) -> Option<u32>
    ensures { result ≡ slice_get to.now name }
{
    to.get(name).copied()
}

// The last paragraph of the section that a paragraph is in.
fn section_last(paragraphs: &[Paragraph], paragraph: u32) -> u32
    requires few { length paragraphs.now < 2 ^ 32 }
    ensures { result ≡ last_in paragraphs.now paragraph }
{
    let mut last = paragraph;
    while (last as usize) + 1 < paragraphs.len() {
        if paragraphs[last as usize + 1].section.is_some() {
            return last;
        }
        last += 1;
    }
    last
}

impl<'a> Machine<'a> {
    /// Goes to the beginning of a paragraph.
    pub fn go_to(&mut self, number: u32) -> Result<(), NoMemory>
        ensures rest { IfOk result (λ u. rest_of (last_of self.old.plan.program.now number)
            self.new.frames ≡ source.rest_of (control_of self.old.plan.program.now) number) }
        ensures pending { IfOk result (λ u. KeepsPending self.old.frames self.new.frames) }
        ensures paragraph { IfOk result (λ u. self.new.paragraph ≡ number) }
        ensures plan { self.new.plan ≡ self.old.plan }
        ensures held { self.new.held ≡ self.old.held }
        ensures table { self.new.table ≡ self.old.table }
        ensures work { self.new.work ≡ self.old.work }
    {
        leave(&mut self.frames);
        self.paragraph = number;
        let paragraphs = self.plan.program.paragraphs.as_slice();
        if (number as usize) < paragraphs.len() {
            let sentences = paragraphs[number as usize].sentences.as_slice();
            push_sentences(&mut self.frames, sentences)?;
        }
        Ok(())
    }

    // Goes on to the next paragraph; after the last one the run stops.
    fn fall(&mut self) -> Result<StepOutcome, NoMemory>
        requires few { IsNumbered self.old.plan }
        ensures step { IfOk result (λ step. (world : World) (trace : Trace) (rest : List Item) →
            Follows step self.new world trace (falls_by self.old.plan self.old.paragraph
            (state_with self.old rest (memory_in self.old.held.store world) trace))) }
        ensures live { IfOk result (λ step. step ≢ StepOutcome.Failed) }
        ensures plan { self.new.plan ≡ self.old.plan }
        ensures table { self.new.table ≡ self.old.table }
        ensures work { self.new.work ≡ self.old.work }
    {
        if (self.paragraph as usize) + 1 < self.plan.program.paragraphs.len() {
            self.go_to(self.paragraph + 1)?;
            Ok(StepOutcome::On)
        } else {
            Ok(StepOutcome::Over(Ending::Stopped))
        }
    }

    // Takes the end of a paragraph: a pending return, or the next paragraph.
    fn end(&mut self) -> Result<StepOutcome, NoMemory>
        requires few { IsNumbered self.old.plan }
        ensures step { IfOk result (λ step. (world : World) (trace : Trace) (rest : List Item) →
            Follows step self.new world trace (ends_by self.old.plan
            (pending_of self.old.plan.program.now self.old.frames)
            (state_with self.old rest (memory_in self.old.held.store world) trace))) }
        ensures live { IfOk result (λ step. step ≢ StepOutcome.Failed) }
        ensures plan { self.new.plan ≡ self.old.plan }
        ensures table { self.new.table ≡ self.old.table }
        ensures work { self.new.work ≡ self.old.work }
    {
        match take_return(&mut self.frames) {
            None => self.fall(),
            Some(top) => {
                if top.end == self.paragraph {
                    self.paragraph = top.paragraph;
                    return Ok(StepOutcome::On);
                }
                if is_pending(&self.frames, self.paragraph) {
                    let fault = FlowFault::Overlap(self.paragraph);
                    return Ok(StepOutcome::Over(Ending::Faulted(fault)));
                }
                push_return(&mut self.frames, top)?;
                self.fall()
            }
        }
    }

    // Performs a range; after it, what is to be done goes on.
    fn perform(&mut self, entry: u32, exit: u32) -> Result<StepOutcome, NoMemory>
        ensures step { IfOk result (λ step. (world : World) (trace : Trace) (rest : List Item) →
            Follows step self.new world trace (performs_by self.old.plan entry exit
            (rest_in self.old)
            (state_with self.old rest (memory_in self.old.held.store world) trace))) }
        ensures live { IfOk result (λ step. step ≢ StepOutcome.Failed) }
        ensures plan { self.new.plan ≡ self.old.plan }
        ensures table { self.new.table ≡ self.old.table }
        ensures work { self.new.work ≡ self.old.work }
    {
        if is_pending(&self.frames, exit) {
            let fault = FlowFault::Reentry(exit);
            return Ok(StepOutcome::Over(Ending::Faulted(fault)));
        }
        let back = Return {
            end: exit,
            paragraph: self.paragraph,
        };
        push_return(&mut self.frames, back)?;
        self.go_to(entry)?;
        Ok(StepOutcome::On)
    }

    // Goes to the beginning of a paragraph, without a pending return.
    fn jump_to(&mut self, number: u32) -> Result<StepOutcome, NoMemory>
        ensures step { IfOk result (λ step. (world : World) (trace : Trace) (rest : List Item) →
            Follows step self.new world trace (goes_by self.old.plan
            (To [] (memory_in self.old.held.store world) number)
            (state_with self.old rest (memory_in self.old.held.store world) trace))) }
        ensures live { IfOk result (λ step. step ≢ StepOutcome.Failed) }
        ensures plan { self.new.plan ≡ self.old.plan }
        ensures table { self.new.table ≡ self.old.table }
        ensures work { self.new.work ≡ self.old.work }
    {
        self.go_to(number)?;
        Ok(StepOutcome::On)
    }

    // GO TO DEPENDING: to the name with that number, or on where there is none.
    fn jump_to_one(&mut self, to: &[u32], on: &Place) -> Result<StepOutcome, NoMemory>
        ensures step { IfOk result (λ step. (world : World) (trace : Trace) (rest : List Item) →
            Follows step self.new world trace (goes_by self.old.plan
            (tried (chooses_in (declared_by self.old.plan) (Depending on.now (length to.now))
            (memory_in self.old.held.store world)) (λ k. to_one (doing_in
            (declared_by self.old.plan)) (slice_get to.now k) (rest_in self.old)))
            (state_with self.old rest (memory_in self.old.held.store world) trace))) }
        ensures live { IfOk result (λ step. step ≢ StepOutcome.Failed) }
        ensures plan { self.new.plan ≡ self.old.plan }
        ensures table { self.new.table ≡ self.old.table }
        ensures work { self.new.work ≡ self.old.work }
    {
        match names(&self.plan, &self.held, to.len(), on) {
            Err(abend) => Ok(StepOutcome::Over(Ending::Abended(abend))),
            Ok(name) => match named(to, name) {
                None => Ok(StepOutcome::On),
                Some(paragraph) => self.jump_to(paragraph),
            },
        }
    }

    // Goes to the end of the section.
    fn jump_to_section_end(&mut self) -> Result<StepOutcome, NoMemory>
        requires few { IsNumbered self.old.plan }
        ensures step { IfOk result (λ step. (world : World) (trace : Trace) (rest : List Item) →
            Follows step self.new world trace (goes_by self.old.plan
            (ToEnd [] (memory_in self.old.held.store world)
            (last_of self.old.plan.program.now self.old.paragraph))
            (state_with self.old rest (memory_in self.old.held.store world) trace))) }
        ensures live { IfOk result (λ step. step ≢ StepOutcome.Failed) }
        ensures plan { self.new.plan ≡ self.old.plan }
        ensures table { self.new.table ≡ self.old.table }
        ensures work { self.new.work ≡ self.old.work }
    {
        let last = section_last(self.plan.program.paragraphs.as_slice(), self.paragraph);
        leave(&mut self.frames);
        self.paragraph = last;
        Ok(StepOutcome::On)
    }

    // Does a statement that jumps.
    fn jump(&mut self, stmt: &Stmt) -> Result<StepOutcome, NoMemory>
        requires few { IsNumbered self.old.plan }
        requires jumps { IsTrue (jumps stmt.now) }
        ensures step { IfOk result (λ step. (world : World) (trace : Trace) (rest : List Item) →
            Follows step self.new world trace (goes_by self.old.plan
            (stmt_meant self.old stmt.now world)
            (state_with self.old rest (memory_in self.old.held.store world) trace))) }
        ensures live { IfOk result (λ step. step ≢ StepOutcome.Failed) }
        ensures plan { self.new.plan ≡ self.old.plan }
        ensures table { self.new.table ≡ self.old.table }
        ensures work { self.new.work ≡ self.old.work }
    {
        match stmt {
            Stmt::Go(to) => self.jump_to(*to),
            Stmt::GoDepending { to, on } => self.jump_to_one(to.as_slice(), on),
            Stmt::ExitSection => self.jump_to_section_end(),
            Stmt::StopRun => Ok(StepOutcome::Over(Ending::Stopped)),
            _ => Ok(StepOutcome::On),
        }
    }

    // Does a statement on files.
    #[tactic(auto, using(crate::proofs::FallLemmas::done_falls))]
    fn file_step(&mut self, bench: &mut Bench, stmt: &'a Stmt) -> Result<StepOutcome, NoMemory>
        ensures over { IfOk result (λ step. (world : World) (trace : Trace) (rest : List Item) →
            is_inner stmt.now ≡ false → StandsOver self.old
            (⟦<Bench as Shown>⟧.on bench.old) world →
            FollowsOver step self.new (⟦<Bench as Shown>⟧.on bench.new) world trace
            (goes_by self.old.plan (stmt_meant self.old stmt.now world)
            (state_with self.old rest (memory_in self.old.held.store world) trace))) }
        ensures falls { StepFalls result self.old.plan.program.now.files
            bench.old.left bench.new.left (⟦<Bench as Shown>⟧.all bench.old)
            (⟦<Bench as Shown>⟧.all bench.new) self.new.table.rows }
        ensures breaks { (world : World) → is_inner stmt.now ≡ false → StandsOver self.old
            (⟦<Bench as Shown>⟧.on bench.old)
            world → StepBreaks result self.new world (stmt_operations (declared_by self.old.plan)
            (seen (last_of self.old.plan.program.now self.old.paragraph) stmt.now)
            (memory_in self.old.held.store world)) bench.new.left
            (⟦<Bench as Shown>⟧.all bench.new) }
        ensures plan { self.new.plan ≡ self.old.plan }
        ensures events { IfOk result (λ step. (world : World) (trace : Trace) (rest : List Item) →
            is_inner stmt.now ≡ false → IsFiled stmt.now → StandsOver self.old
            (⟦<Bench as Shown>⟧.on bench.old) world →
            IsTrue self.old.work.keeps → self.old.work.done.items ≡ [] →
            Shows step self.new trace (goes_by self.old.plan (stmt_meant self.old stmt.now world)
            (state_with self.old rest (memory_in self.old.held.store world) trace))) }
        ensures keeps { self.new.work.keeps ≡ self.old.work.keeps }
    {
        let done = filed(
            &self.plan,
            &mut self.frames,
            &mut self.held,
            &mut self.table,
            bench,
            stmt,
            &mut self.work,
        );
        match done {
            Ok(done) => Ok(step_after(done)),
            Err(fault) => step_broken(fault),
        }
    }

    // Does what is next, where it isn't a statement on files.
    fn head_step(&mut self, head: Head<'a>) -> Result<StepOutcome, NoMemory>
        requires few { IsNumbered self.old.plan }
        requires empty { self.old.held.shown ≡ [] }
        ensures step { IfOk result (λ step. (world : World) (trace : Trace) (rest : List Item) →
            StandsAlone (last_of self.old.plan.program.now self.old.paragraph) head.entry →
            Follows step self.new world trace (rests_by self.old.plan (heads
            (last_of self.old.plan.program.now self.old.paragraph) head.entry (rest_in self.old))
            (state_with self.old rest (memory_in self.old.held.store world) trace))) }
        ensures live { IfOk result (λ step. step ≢ StepOutcome.Failed) }
        ensures plan { self.new.plan ≡ self.old.plan }
        ensures table { self.new.table ≡ self.old.table }
        ensures work { self.new.work ≡ self.old.work }
    {
        match head {
            Head::Nothing => self.end(),
            Head::Stmt(stmt) => {
                if let Some(range) = performed_once(stmt) {
                    return self.perform(range.entry, range.exit);
                }
                if jumps(stmt) {
                    return self.jump(stmt);
                }
                let done = stmt_way(&self.plan, &mut self.frames, &mut self.held, stmt)?;
                Ok(step_of(done))
            }
            Head::Enter { entry, exit } => self.perform(entry, exit),
            Head::SentenceEnd => Ok(StepOutcome::On),
            Head::Turn(turning, body) => {
                let done = turning_way(
                    &self.plan,
                    &mut self.frames,
                    &mut self.held,
                    turning,
                    body,
                )?;
                Ok(step_of(done))
            }
        }
    }

    /// Makes one step. The bytes that it shows are in `held.shown`, and what it does with files is
    /// in `work` where that is kept. Statements on files are done over the bench, and a device that
    /// fails is taken off it.
    #[tactic(auto, using(crate::proofs::FallLemmas::asks_none))]
    pub fn step(&mut self, bench: &mut Bench) -> Result<StepOutcome, NoMemory>
        ensures step { IfOk result (λ step. (world : World) (trace : Trace) →
            PlainState (state_in self.old world trace) → Follows step self.new world trace
            (steps_by self.old.plan (state_in self.old world trace))) }

        // over devices whose files are known
        ensures over { IfOk result (λ step. (world : World) (trace : Trace) →
            OwnState (state_in self.old world trace) → StandsOver self.old
            (⟦<Bench as Shown>⟧.on bench.old) world →
            FollowsOver step self.new (⟦<Bench as Shown>⟧.on bench.new) world trace
            (steps_by self.old.plan (state_in self.old world trace))) }
        ensures falls { StepFalls result self.old.plan.program.now.files
            bench.old.left bench.new.left (⟦<Bench as Shown>⟧.all bench.old)
            (⟦<Bench as Shown>⟧.all bench.new) self.new.table.rows }
        ensures breaks { (world : World) (trace : Trace) →
            OwnState (state_in self.old world trace) → StandsOver self.old
            (⟦<Bench as Shown>⟧.on bench.old)
            world → StepBreaks result self.new world (operations_in (declared_by self.old.plan)
            (state_in self.old world trace)) bench.new.left (⟦<Bench as Shown>⟧.all bench.new) }
        ensures plan { self.new.plan ≡ self.old.plan }

        // without statements on files the devices aren't used
        ensures kept { (world : World) (trace : Trace) → PlainState (state_in self.old world trace) →
            (bench.new ≡ bench.old) × (self.new.table ≡ self.old.table) }

        // over devices whose files are known it shows these events
        ensures events { IfOk result (λ step. (world : World) (trace : Trace) →
            OwnState (state_in self.old world trace) → StandsOver self.old
            (⟦<Bench as Shown>⟧.on bench.old) world →
            IsTrue self.old.work.keeps → Shows step self.new trace
            (steps_by self.old.plan (state_in self.old world trace))) }
        ensures keeps { self.new.work.keeps ≡ self.old.work.keeps }
    {
        if self.plan.program.paragraphs.len() >= 1 << 32 {
            return Err(NoMemory);
        }
        clear(&mut self.held.shown);
        self.work.clear();
        let head = next(&mut self.frames)?;
        match filing_of(head) {
            Some(stmt) => self.file_step(bench, stmt),
            None => self.head_step(head),
        }
    }
}
