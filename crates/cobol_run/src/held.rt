//! What a program stores, and what the parts of its statements do there.

ghost use Rattle.std.specs.Prelude.{◌≡◌, false, [], ◌∷◌, IfOk, IsTrue, Ok, map};
ghost use Rattle.std.specs.Int.{is_positive};
ghost use Rattle.file_model.specs.World.{World};
ghost use Rattle.cob_tree.specs.declared.stmt.Stmt.TheVariants.{Move};
ghost use Rattle.control_flow_theory.specs.language.Language.{Arith, Depending, Evaluate};
ghost use Rattle.control_flow_theory.specs.language.Control.{augmenting};
ghost use Rattle.cob_act.specs.Acting.{is_inner};
ghost use Rattle.cob_tree.specs.declared.stmt.When.{out-When};
ghost use Rattle.cobol_theory.specs.cobol_meaning.Acting.{answered, chooses_in, counts_in, does_to, name_in, tests_in, turns_in};
ghost use Rattle.cob_store.specs.Answer.{and_then};
ghost use Rattle.cobol_run.specs.Plan.{declared_by, did, memory_in, picked};
ghost use Rattle.cobol_run.specs.NextStep.{arm_after};

use cob_act::{ActOutcome, act, added, calculated, evaluated, holds, moved};
use cob_base::{NoMemory, Text};
use cob_num::Dec;
use cob_store::{Areas, Store, operand_value, place_value};
use cob_tree::{Abend, Calc, Cond, Operand, Place, Program, Stmt, Subject, Target, When};
use std::slice::from_ref;

/// A program, and where its items are.
#[derive(Drop)]
pub struct Plan<'a> {
    pub program: &'a Program,
    pub areas: Areas,
}

/// What a program stores, and room for what it shows and moves.
#[derive(Drop)]
pub struct Held {
    pub store: Store,
    pub scratch: Vec<u8>,
    /// The bytes that the step showed.
    pub shown: Text,
}

/// Does a statement that acts and needs no device.
pub fn acts(plan: &Plan, held: &mut Held, stmt: &Stmt) -> Result<ActOutcome, NoMemory>
    requires inner { IsTrue (is_inner stmt.now) }
    requires empty { held.old.shown ≡ [] }
    ensures { IfOk result (λ done. (world : World) →
        did done held.new.shown (memory_in held.new.store world)
        ≡ does_to (declared_by plan.now) stmt.now (memory_in held.old.store world)) }
{
    act(
        plan.program,
        &plan.areas,
        &mut held.store,
        &mut held.scratch,
        &mut held.shown,
        stmt,
    )
}

/// Whether a condition holds.
pub fn tests(plan: &Plan, held: &Held, cond: &Cond) -> Result<bool, Abend>
    ensures { (world : World) → answered (memory_in held.now.store world) result
        ≡ tests_in (declared_by plan.now) cond.now (memory_in held.now.store world) }
{
    holds(
        plan.program.entries.as_slice(),
        plan.areas.items.as_slice(),
        &held.store,
        cond,
    )
}

/// The arm of EVALUATE, from 0.
pub fn evaluates(
    plan: &Plan,
    held: &Held,
    subject: &Subject,
    whens: &[When],
) -> Result<usize, Abend>
    ensures { (world : World) → answered (memory_in held.now.store world) result
        ≡ chooses_in (declared_by plan.now)
        (Evaluate subject.now (map (λ when. (out-When when).tests) whens.now) false)
        (memory_in held.now.store world) }
{
    let number = evaluated(
        plan.program.entries.as_slice(),
        plan.areas.items.as_slice(),
        &held.store,
        subject,
        whens,
    )?;
    Ok(number.saturating_sub(1))
}

/// Whether arithmetic with a phrase on size errors had one.
pub fn calculates(plan: &Plan, held: &mut Held, calc: &Calc, into: &[Target]) -> Result<bool, Abend>
    ensures { (world : World) → picked (arm_after result) (memory_in held.new.store world)
        ≡ chooses_in (declared_by plan.now) (Arith calc.now into.now)
        (memory_in held.old.store world) }
{
    calculated(
        plan.areas.items.as_slice(),
        &mut held.store,
        calc,
        true,
        into,
    )
}

fn is_positive(number: Dec) -> bool
    ensures { result ≡ is_positive number.value }
{
    number.value > 0
}

fn turns_in(number: Dec) -> u128
    ensures { result ≡ turns_in number }
{
    if is_positive(number) {
        number.value.unsigned_abs()
    } else {
        0
    }
}

/// How often a loop with TIMES runs its body.
pub fn counts(plan: &Plan, held: &Held, operand: &Operand) -> Result<u128, Abend>
    ensures { (world : World) → answered (memory_in held.now.store world) result
        ≡ counts_in (declared_by plan.now) operand.now (memory_in held.now.store world) }
{
    match operand_value(plan.areas.items.as_slice(), &held.store, operand)? {
        None => Err(Abend::OutOfRange),
        Some(number) => Ok(turns_in(number)),
    }
}

fn name_in(names: usize, number: Dec) -> usize
    ensures { result ≡ name_in names number }
{
    let size = number.value.unsigned_abs();
    if is_positive(number) && size <= names as u128 {
        size as usize - 1
    } else {
        names
    }
}

/// The name that DEPENDING ON chooses, from 0.
pub fn names(plan: &Plan, held: &Held, names: usize, place: &Place) -> Result<usize, Abend>
    ensures { (world : World) → answered (memory_in held.now.store world) result
        ≡ chooses_in (declared_by plan.now) (Depending place.now names)
        (memory_in held.now.store world) }
{
    match place_value(plan.areas.items.as_slice(), &held.store, place)? {
        None => Err(Abend::OutOfRange),
        Some(number) => Ok(name_in(names, number)),
    }
}

/// The MOVE of VARYING: sets its item.
pub fn sets(
    plan: &Plan,
    held: &mut Held,
    item: &Place,
    from: &Operand,
) -> Result<Result<(), Abend>, NoMemory>
    ensures { IfOk result (λ answer. (world : World) →
        answered (memory_in held.new.store world) answer
        ≡ does_to (declared_by plan.now) (Move from.now (item.now ∷ []))
        (memory_in held.old.store world)) }
{
    moved(
        plan.areas.items.as_slice(),
        &mut held.store,
        &mut held.scratch,
        from,
        from_ref(item),
    )
}

fn went(answer: Result<bool, Abend>) -> Result<(), Abend>
    ensures { result ≡ and_then answer (λ error. Ok tt) }
{
    answer?;
    Ok(())
}

/// The ADD of VARYING: augments its item.
pub fn augments(plan: &Plan, held: &mut Held, item: &Place, by: &Operand) -> Result<(), Abend>
    ensures { (world : World) → answered (memory_in held.new.store world) result
        ≡ does_to (declared_by plan.now) (augmenting item.now by.now)
        (memory_in held.old.store world) }
{
    let answer = added(plan.areas.items.as_slice(), &mut held.store, by, item);
    went(answer)
}
