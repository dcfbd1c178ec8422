//! Two programs that run beside each other, step by step.

ghost use Rattle.std.specs.Prelude.{◌≡◌, ◌+◌, ◌<◌, ◌≤◌, ◌^◌, [], ℕ, List, None, length};
ghost use Rattle.cob_tree.specs.declared.file.FileEntry.{FileEntry};
ghost use Rattle.cob_tree.specs.declared.program.Program.{Program};
ghost use Rattle.file_model.specs.declared.table.FileRow.{FileRow};
ghost use Rattle.cobol_theory.specs.cobol_meaning.Runs.{Files};
ghost use Rattle.cobol_run.specs.Falling.{SameBench};
ghost use Rattle.cobol_run.specs.Own.{IsOwn};
ghost use Rattle.file_model.specs.operations.Seen.{Seen};
ghost use Rattle.trace_compare.specs.Pair.{BothStand, Fewer, FirstFalls, FirstTurns, HasRoom, IsVerdict, SecondFalls, SecondTurns, TurnsTo};
ghost use Rattle.trace_compare.specs.Next.{front_of, next_of, settled};
ghost use Rattle.trace_compare.specs.Side.{ended_of, files_of, pending_of};

use crate::event::same_event;
use crate::next::{Decision, behind_ended, both_without};
use crate::side::{Advance, ComparedSide};
use file_model::Bench;
use file_model::operations::Shown;

/// What two programs come to, before their files are closed.
#[derive(Clone, Copy)]
pub enum Verdict {
    Same(u128),
    Differ(u128),
    Budget,
    /// A device of the first program's bench failed.
    FirstFailed,
    /// A device of the second program's bench failed.
    SecondFailed,
    NoMemory,
}

/// What a turn comes to.
#[derive(Clone, Copy)]
pub enum Turn {
    On,
    Over(Verdict),
}

/// Two programs that run beside each other.
#[derive(Drop)]
pub struct Pair<'a> {
    pub first: ComparedSide<'a>,
    pub second: ComparedSide<'a>,
    /// How many events are compared, and were the same.
    pub same: u128,
}

// How many of the next events of the two are the same.
fn same_events(first: &ComparedSide, second: &ComparedSide) -> usize
    ensures { result ≡ front_of (pending_of first.now) (pending_of second.now) }
{
    let count = first.pending().min(second.pending());
    for at in 0..count {
        if !same_event(first.event(at), second.event(at)) {
            return at;
        }
    }
    count
}

impl<'a> Pair<'a> {
    // Compares the events of both that aren't compared, as far as they are the same.
    fn match_events(&mut self)
        requires room { HasRoom self.old }
        ensures room { HasRoom self.new }
        ensures stands { (p q : Program) (files other_files : Files) (devices others : List Seen)
            (steps : ℕ) → BothStand p q files other_files self.old devices others steps →
            BothStand p q files other_files self.new devices others steps }
        ensures apart { front_of (pending_of self.new.first) (pending_of self.new.second) ≡ 0 }
        ensures first_left { self.new.first.left ≡ self.old.first.left }
        ensures second_left { self.new.second.left ≡ self.old.second.left }
        ensures first_machine { self.new.first.machine ≡ self.old.first.machine }
        ensures second_machine { self.new.second.machine ≡ self.old.second.machine }
    {
        let more = same_events(&self.first, &self.second);
        self.first.skip(more);
        self.second.skip(more);
        self.same += more as u128;
    }

    // What is next where neither needs one more step, or can make it.
    fn settled(&self) -> Decision
        ensures { result ≡ settled (pending_of self.now.first) (ended_of self.now.first)
            (pending_of self.now.second) (ended_of self.now.second) }
    {
        if self.first.has_event() {
            if self.second.has_event() {
                Decision::Differ
            } else {
                behind_ended(self.second.ended)
            }
        } else if self.second.has_event() {
            behind_ended(self.first.ended)
        } else {
            both_without(self.first.ended, self.second.ended)
        }
    }

    // What is next.
    fn next(&self) -> Decision
        ensures { result ≡ next_of (pending_of self.now.first) (ended_of self.now.first)
            self.now.first.left (pending_of self.now.second) (ended_of self.now.second)
            self.now.second.left }
    {
        if !self.first.has_event() && self.first.may_step() {
            Decision::First
        } else if !self.second.has_event() && self.second.may_step() {
            Decision::Second
        } else {
            self.settled()
        }
    }

    // Makes a step of the first program.
    fn step_first(&mut self, bench: &mut Bench) -> Turn
        requires room { HasRoom self.old }
        requires empty { pending_of self.old.first ≡ [] }
        requires going { self.old.first.ended ≡ None }
        requires left { 0 < self.old.first.left }
        ensures turned { (p q : Program) (files other_files : Files) (others : List Seen)
            (steps : ℕ) → IsOwn p → BothStand p q files other_files self.old (⟦<Bench as Shown>⟧.on
            bench.old) others steps →
            TurnsTo result p q files other_files self.new (⟦<Bench as Shown>⟧.on
            bench.new) others steps }
        ensures falls { (left : ℕ) (old : List Seen) → SameBench (files_of self.old.first)
            left bench.old.left old (⟦<Bench as Shown>⟧.all bench.old) →
            FirstTurns result (files_of self.old.first) left bench.new.left old
            (⟦<Bench as Shown>⟧.all bench.new)
            self.new.first.machine.table.rows }
        ensures first { self.new.first.machine.plan ≡ self.old.first.machine.plan }
        ensures second { self.new.second ≡ self.old.second }
        ensures fewer { Fewer result self.old self.new }
        ensures other { (files : List FileEntry) (left now : ℕ) (old new : List Seen)
            (rows : List FileRow) → SameBench files left now old new →
            SecondTurns result files left now old new rows }
    {
        match self.first.step(bench) {
            Advance::On => Turn::On,
            Advance::Failed => Turn::Over(Verdict::FirstFailed),
            Advance::NoMemory => Turn::Over(Verdict::NoMemory),
        }
    }

    // Makes a step of the second program.
    fn step_second(&mut self, bench: &mut Bench) -> Turn
        requires room { HasRoom self.old }
        requires empty { pending_of self.old.second ≡ [] }
        requires going { self.old.second.ended ≡ None }
        requires left { 0 < self.old.second.left }
        ensures turned { (p q : Program) (files other_files : Files) (devices : List Seen)
            (steps : ℕ) → IsOwn q → BothStand p q files other_files self.old devices
            (⟦<Bench as Shown>⟧.on bench.old) steps →
            TurnsTo result p q files other_files self.new devices (⟦<Bench as Shown>⟧.on
            bench.new) steps }
        ensures falls { (left : ℕ) (old : List Seen) → SameBench (files_of self.old.second)
            left bench.old.left old (⟦<Bench as Shown>⟧.all bench.old) →
            SecondTurns result (files_of self.old.second) left bench.new.left old
            (⟦<Bench as Shown>⟧.all bench.new)
            self.new.second.machine.table.rows }
        ensures first { self.new.first ≡ self.old.first }
        ensures second { self.new.second.machine.plan ≡ self.old.second.machine.plan }
        ensures fewer { Fewer result self.old self.new }
        ensures other { (files : List FileEntry) (left now : ℕ) (old new : List Seen)
            (rows : List FileRow) → SameBench files left now old new →
            FirstTurns result files left now old new rows }
    {
        match self.second.step(bench) {
            Advance::On => Turn::On,
            Advance::Failed => Turn::Over(Verdict::SecondFailed),
            Advance::NoMemory => Turn::Over(Verdict::NoMemory),
        }
    }

    // Compares what both have shown, and makes one more step or knows what they come to.
    fn turn(&mut self, bench: &mut Bench, other: &mut Bench) -> Turn
        requires room { HasRoom self.old }
        ensures turned { (p q : Program) (files other_files : Files) (steps : ℕ) →
            IsOwn p → IsOwn q → BothStand p q files other_files self.old
            (⟦<Bench as Shown>⟧.on bench.old)
            (⟦<Bench as Shown>⟧.on other.old) steps →
            TurnsTo result p q files other_files self.new (⟦<Bench as Shown>⟧.on bench.new)
            (⟦<Bench as Shown>⟧.on other.new) steps }
        ensures first_falls { (left : ℕ) (old : List Seen) → SameBench (files_of self.old.first)
            left bench.old.left old (⟦<Bench as Shown>⟧.all bench.old) →
            FirstTurns result (files_of self.old.first) left bench.new.left old
            (⟦<Bench as Shown>⟧.all bench.new)
            self.new.first.machine.table.rows }
        ensures second_falls { (left : ℕ) (old : List Seen) → SameBench (files_of self.old.second)
            left other.old.left old (⟦<Bench as Shown>⟧.all other.old) →
            SecondTurns result (files_of self.old.second) left other.new.left old
            (⟦<Bench as Shown>⟧.all other.new)
            self.new.second.machine.table.rows }
        ensures first { self.new.first.machine.plan ≡ self.old.first.machine.plan }
        ensures second { self.new.second.machine.plan ≡ self.old.second.machine.plan }
        ensures fewer { Fewer result self.old self.new }
    {
        self.match_events();
        match self.next() {
            Decision::First => self.step_first(bench),
            Decision::Second => self.step_second(other),
            Decision::Same => Turn::Over(Verdict::Same(self.same)),
            Decision::Differ => Turn::Over(Verdict::Differ(self.same + 1)),
            Decision::Budget => Turn::Over(Verdict::Budget),
        }
    }

    /// Steps the two programs, each over its bench, until it is known what they come to.
    pub fn run(&mut self, bench: &mut Bench, other: &mut Bench) -> Verdict
        requires room { HasRoom self.old }
        ensures verdict { (p q : Program) (files other_files : Files) (steps : ℕ) →
            IsOwn p → IsOwn q → BothStand p q files other_files self.old
            (⟦<Bench as Shown>⟧.on bench.old)
            (⟦<Bench as Shown>⟧.on other.old) steps →
            IsVerdict result p q files other_files self.new (⟦<Bench as Shown>⟧.on bench.new)
            (⟦<Bench as Shown>⟧.on other.new) steps }
        ensures first_falls { FirstFalls result (files_of self.old.first)
            bench.old.left bench.new.left
            (⟦<Bench as Shown>⟧.all bench.old)
            (⟦<Bench as Shown>⟧.all bench.new)
            self.new.first.machine.table.rows }
        ensures second_falls { SecondFalls result (files_of self.old.second)
            other.old.left other.new.left
            (⟦<Bench as Shown>⟧.all other.old)
            (⟦<Bench as Shown>⟧.all other.new)
            self.new.second.machine.table.rows }
        ensures first { self.new.first.machine.plan ≡ self.old.first.machine.plan }
        ensures second { self.new.second.machine.plan ≡ self.old.second.machine.plan }
    {
        'turns: loop {
            match self.turn(bench, other) {
                Turn::On => {}
                Turn::Over(verdict) => return verdict,
            }
        }
    }
}
