//! Two programs beside each other: do they still do the same?
//!
//! `compare` runs both, each over a bench of its own, and says whether they show the same events
//! and end in the same way, or at which event they differ. `specs/Differing.antt` says when two
//! runs differ, in the words of a reader of their displays and files; `two_runs_have_one_answer` is
//! the law that makes it an answer. A step's events are compared where they lie; no trace is kept.
#![tactic(auto)]

ghost use Rattle.std.specs.Prelude.{◌≡◌, ◌≤◌, vec_len};
ghost use Rattle.trace_compare.specs.Comparing.{Compares, answered, first_fault, second_fault, unless_failed, unless_second};

mod compared;
mod ending;
mod event;
mod laws;
mod next;
mod pair;
mod side;

use cob_tree::Program;
use cobol_run::events::{Finished, finish};
use cobol_run::name_room;
pub use compared::Compared;
use file_model::Bench;
use file_model::operations::Shown;
pub use laws::{
    more_steps_keep_the_answer, no_run_differs_from_itself, results_never_differ,
    small_runs_compare_as_said, the_answer_is_the_same_the_other_way_round,
    two_runs_have_one_answer,
};
use pair::{Pair, Verdict};
use side::ComparedSide;
use std::alloc::Global;

// The answer where a device of the first bench failed.
fn first_fault(first: Finished) -> Compared
    ensures { result ≡ first_fault first }
{
    match first {
        Finished::DeviceFault(name) => Compared::FirstFault(name),
        Finished::Whole => Compared::NoMemory,
        Finished::NoMemory => Compared::NoMemory,
    }
}

// The answer where a device of the second bench failed.
fn second_fault(second: Finished) -> Compared
    ensures { result ≡ second_fault second }
{
    match second {
        Finished::DeviceFault(name) => Compared::SecondFault(name),
        Finished::Whole => Compared::NoMemory,
        Finished::NoMemory => Compared::NoMemory,
    }
}

// This answer, unless a device of the second bench failed while files were closed.
fn unless_second(answer: Compared, second: Finished) -> Compared
    ensures { result ≡ unless_second answer second }
{
    match second {
        Finished::Whole => answer,
        Finished::DeviceFault(name) => Compared::SecondFault(name),
        Finished::NoMemory => Compared::NoMemory,
    }
}

// The same of both benches, the first before the second.
fn unless_failed(answer: Compared, first: Finished, second: Finished) -> Compared
    ensures { result ≡ unless_failed answer first second }
{
    match first {
        Finished::Whole => unless_second(answer, second),
        Finished::DeviceFault(name) => Compared::FirstFault(name),
        Finished::NoMemory => Compared::NoMemory,
    }
}

fn answered(verdict: Verdict, first: Finished, second: Finished) -> Compared
    ensures { result ≡ answered verdict first second }
{
    match verdict {
        Verdict::Same(count) => unless_failed(Compared::Same(count), first, second),
        Verdict::Differ(number) => unless_failed(Compared::Differ(number), first, second),
        Verdict::Budget => unless_failed(Compared::Budget, first, second),
        Verdict::FirstFailed => first_fault(first),
        Verdict::SecondFailed => second_fault(second),
        Verdict::NoMemory => Compared::NoMemory,
    }
}

/// Runs two programs, each over its bench for at most so many steps, and compares their events and
/// the ways in which they end. At the end the files that they left open are closed.
pub fn compare(
    alloc: Global,
    program: &Program,
    other: &Program,
    bench: &mut Bench,
    other_bench: &mut Bench,
    steps: u64,
) -> Compared
    requires within { bench.old.left ≤ vec_len bench.old.devices }
    requires other_within { other_bench.old.left ≤ vec_len other_bench.old.devices }
    ensures { Compares program.now other.now steps bench.old.left bench.new.left
        (⟦<Bench as Shown>⟧.all bench.old)
        (⟦<Bench as Shown>⟧.all bench.new)
        other_bench.old.left other_bench.new.left
        (⟦<Bench as Shown>⟧.all other_bench.old)
        (⟦<Bench as Shown>⟧.all other_bench.new) result }
{
    let Ok(first) = ComparedSide::new(alloc, program, steps) else {
        return Compared::NoMemory;
    };
    let Ok(second) = ComparedSide::new(alloc, other, steps) else {
        return Compared::NoMemory;
    };
    let Ok(mut room) = name_room(alloc, bench) else {
        return Compared::NoMemory;
    };
    let Ok(mut other_room) = name_room(alloc, other_bench) else {
        return Compared::NoMemory;
    };
    let left = bench.left;
    let other_left = other_bench.left;
    let mut pair = Pair {
        first,
        second,
        same: 0,
    };
    let verdict = pair.run(bench, other_bench);
    let first = finish(alloc, &mut room, &mut pair.first.machine, bench, left);
    let second = finish(
        alloc,
        &mut other_room,
        &mut pair.second.machine,
        other_bench,
        other_left,
    );
    answered(verdict, first, second)
}
