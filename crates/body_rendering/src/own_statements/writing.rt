//! Statements of the program as they are written.

ghost use Rattle.std.specs.Prelude.{◌≡◌, Ok, IfOk, OnOk};
ghost use Rattle.cob_tree.specs.declared.stmt.Stmt.TheVariants as stmts_as;
ghost use Rattle.control_flow_theory.specs.language.Control.{arith_alone};
ghost use Rattle.statement_builders.specs.arms.Written.{IsWritten, AreWritten, AreRequired, IsArmWritten, AreWhensWritten, IsWrittenAlike};
ghost use Rattle.body_rendering.specs.own_statements.Writing.{IsWhenWritten, ArePairWritten, IsOwnIf, IsTestIf, IsOwnEvaluate, IsBySubject, HasPhrases, has_phrases, has_first};

use cob_base::{Items, NoMemory};
use cob_tree::{
    ArmParts, Arms, Calc, Cond, Control, Operand, Place, Stmt, StmtParts, Subject, Target, When,
};
use program_facts::own_items::{is_own_arith, is_own_move, is_own_subject, is_own_test};
use statement_builders::arms::{
    ProcedurePlace, arith_stmt, evaluate_stmt, if_stmt, loop_stmt, or_continue, perform_stmt,
    place_of, read_stmt,
};
use statement_builders::item_words::BothArms;
use std::alloc::Global;
use std::mem;

/// The statement as it is written. Err where memory runs out, where a range has no place, and where
/// it has a word on an added item.
#[cycle(write)]
pub fn write_stmt(alloc: Global, stmt: Stmt, places: &[ProcedurePlace]) -> Result<Stmt, NoMemory>
    ensures { IfOk result (λ made. IsWritten places.now stmt made) }
{
    match stmt.into_parts() {
        StmtParts::Arith { calc, into, arms } => write_arith(alloc, calc, into, arms, places),
        StmtParts::Read { file, into, arms } => write_read(alloc, file, into, arms, places),
        StmtParts::If { cond, yes, no } => {
            let yes = write_stmts(alloc, yes, places);
            let no = write_stmts(alloc, no, places);
            own_if(cond, pair_of(yes, no))
        }
        StmtParts::Evaluate {
            subject,
            whens,
            other,
        } => {
            let has_other = other.is_some();
            let whens = write_whens(alloc, whens, places);
            let other = write_arm(alloc, other, places);
            own_evaluate(subject, branches_of(whens, other), has_other)
        }
        StmtParts::Loop { control, body } => write_loop(alloc, control, body, places),
        StmtParts::Perform {
            entry,
            exit,
            control,
        } => write_perform(entry, exit, control, places),
        StmtParts::Move { from, to } => write_move(from, to),
        StmtParts::Display { items, advance } => Ok(Stmt::Display { items, advance }),
        StmtParts::SetTrue(place) => Ok(Stmt::SetTrue(place)),
        StmtParts::Opens(openings) => Ok(Stmt::Opens(openings)),
        StmtParts::Closes(files) => Ok(Stmt::Closes(files)),
        StmtParts::Write { entry, from } => Ok(Stmt::Write { entry, from }),
        StmtParts::Rewrite { entry, from } => Ok(Stmt::Rewrite { entry, from }),
        StmtParts::Go(to) => Ok(Stmt::Go(to)),
        StmtParts::GoDepending { to, on } => Ok(Stmt::GoDepending { to, on }),
        StmtParts::NextSentence => Ok(Stmt::NextSentence),
        StmtParts::StopRun => Ok(Stmt::StopRun),
        StmtParts::Exit => Ok(Stmt::Exit),
        StmtParts::ExitParagraph => Ok(Stmt::ExitParagraph),
        StmtParts::ExitSection => Ok(Stmt::ExitSection),
        StmtParts::ExitPerform { cycle } => Ok(Stmt::ExitPerform { cycle }),
        StmtParts::Continue => Ok(Stmt::Continue),
    }
}

fn write_move(from: Operand, to: Items<Place>) -> Result<Stmt, NoMemory>
    ensures { IfOk result (λ made. IsWrittenAlike (stmts_as.Move from to) made) }
{
    if is_own_move(to.as_slice()) {
        Ok(Stmt::Move { from, to })
    } else {
        Err(NoMemory)
    }
}

fn write_perform(
    entry: u32,
    exit: u32,
    control: Control,
    places: &[ProcedurePlace],
) -> Result<Stmt, NoMemory>
    ensures { IfOk result
        (λ made. IsWritten places.now (stmts_as.Perform entry exit control) made) }
{
    match place_of(places, entry, exit) {
        Some(place) => perform_stmt(place, control),
        None => Err(NoMemory),
    }
}

/// Statements as they are written, or CONTINUE.
#[cycle(write)]
fn write_required(
    alloc: Global,
    stmts: Items<Stmt>,
    places: &[ProcedurePlace],
) -> Result<Items<Stmt>, NoMemory>
    ensures { IfOk result (λ made. AreRequired places.now stmts made) }
{
    match write_stmts(alloc, stmts, places) {
        Ok(stmts) => or_continue(stmts),
        Err(fault) => Err(fault),
    }
}

/// The statements of an arm, none where it is missing.
#[cycle(write)]
fn write_arm(
    alloc: Global,
    arm: Option<Items<Stmt>>,
    places: &[ProcedurePlace],
) -> Result<Items<Stmt>, NoMemory>
    ensures { IfOk result (λ made. IsArmWritten places.now arm made) }
{
    match arm {
        None => Ok(Items::new(alloc)),
        Some(stmts) => write_stmts(alloc, stmts, places),
    }
}

/// What is written for the WHENs, and what WHEN OTHER holds.
#[derive(Drop)]
pub struct Branches {
    pub whens: Items<When>,
    pub other: Items<Stmt>,
}

fn branches_of(
    whens: Result<Items<When>, NoMemory>,
    other: Result<Items<Stmt>, NoMemory>,
) -> Result<Branches, NoMemory>
    ensures { IfOk result (λ branches. (whens ≡ Ok branches.whens) × (other ≡ Ok branches.other)) }
{
    match whens {
        Ok(whens) => match other {
            Ok(other) => Ok(Branches { whens, other }),
            Err(fault) => {
                drop(whens);
                Err(fault)
            }
        },
        Err(fault) => {
            drop(other);
            Err(fault)
        }
    }
}

fn own_evaluate(
    subject: Subject,
    branches: Result<Branches, NoMemory>,
    has_other: bool,
) -> Result<Stmt, NoMemory>
    ensures { IfOk result (λ made. IsOwnEvaluate subject branches has_other made) }
{
    match branches {
        Ok(Branches { whens, other }) => by_subject(subject, whens, other, has_other),
        Err(fault) => {
            drop(subject);
            Err(fault)
        }
    }
}

fn by_subject(
    subject: Subject,
    whens: Items<When>,
    other: Items<Stmt>,
    has_other: bool,
) -> Result<Stmt, NoMemory>
    ensures { IfOk result (λ made. IsBySubject subject whens has_other other made) }
{
    if is_own_subject(&subject) {
        evaluate_stmt(subject, whens, other, has_other)
    } else {
        Err(NoMemory)
    }
}

#[cycle(write)]
fn write_loop(
    alloc: Global,
    control: Control,
    body: Items<Stmt>,
    places: &[ProcedurePlace],
) -> Result<Stmt, NoMemory>
    ensures { IfOk result (λ made. IsWritten places.now (stmts_as.Loop control body) made) }
{
    match write_required(alloc, body, places) {
        Ok(body) => loop_stmt(control, body),
        Err(fault) => {
            drop(control);
            Err(fault)
        }
    }
}

fn has_phrases(arms: &Arms) -> bool
    ensures { result ≡ has_phrases arms.now }
{
    arms.first.is_some() || arms.second.is_some()
}

#[cycle(write)]
fn write_arith(
    alloc: Global,
    calc: Calc,
    into: Items<Target>,
    arms: Arms,
    places: &[ProcedurePlace],
) -> Result<Stmt, NoMemory>
    ensures { IfOk result (λ made. IsWritten places.now (stmts_as.Arith calc into arms) made) }
{
    if has_phrases(&arms) {
        write_phrases(alloc, calc, into, arms, places)
    } else {
        drop(arms);
        write_bare(calc, into)
    }
}

/// Arithmetic without arms.
fn write_bare(calc: Calc, into: Items<Target>) -> Result<Stmt, NoMemory>
    ensures { IfOk result (λ made. IsWrittenAlike (arith_alone calc into) made) }
{
    if is_own_arith(into.as_slice()) {
        let arms = Arms {
            first: None,
            second: None,
        };
        Ok(Stmt::Arith { calc, into, arms })
    } else {
        Err(NoMemory)
    }
}

/// Replaces the statement by what is written for it.
#[cycle(write)]
fn write_in(alloc: Global, stmt: &mut Stmt, places: &[ProcedurePlace]) -> Result<(), NoMemory>
    ensures { OnOk result (IsWritten places.now stmt.old stmt.new) }
{
    match write_stmt(alloc, mem::replace(stmt, Stmt::Continue), places) {
        Ok(made) => {
            drop(mem::replace(stmt, made));
            Ok(())
        }
        Err(fault) => Err(fault),
    }
}

#[cycle(write)]
fn write_each(alloc: Global, stmts: &mut [Stmt], places: &[ProcedurePlace]) -> Result<(), NoMemory>
    ensures { OnOk result (AreWritten places.now stmts.old stmts.new) }
{
    for at in 0..stmts.len() {
        write_in(alloc, &mut stmts[at], places)?;
    }
    Ok(())
}

/// Statements as they are written.
#[cycle(write)]
pub fn write_stmts(
    alloc: Global,
    stmts: Items<Stmt>,
    places: &[ProcedurePlace],
) -> Result<Items<Stmt>, NoMemory>
    ensures { IfOk result (λ made. AreWritten places.now stmts made) }
{
    let mut stmts = stmts.into_vec();
    match write_each(alloc, stmts.as_mut_slice(), places) {
        Ok(()) => Ok(Items::from_vec(stmts)),
        Err(fault) => Err(fault),
    }
}

/// Replaces the WHEN by what is written for it.
#[cycle(write)]
fn write_when(alloc: Global, when: &mut When, places: &[ProcedurePlace]) -> Result<(), NoMemory>
    ensures { OnOk result (IsWhenWritten places.now when.old when.new) }
{
    let stmts = mem::replace(&mut when.stmts, Items::new(alloc));
    match write_required(alloc, stmts, places) {
        Ok(stmts) => {
            drop(mem::replace(&mut when.stmts, stmts));
            Ok(())
        }
        Err(fault) => Err(fault),
    }
}

#[cycle(write)]
fn write_each_when(
    alloc: Global,
    whens: &mut [When],
    places: &[ProcedurePlace],
) -> Result<(), NoMemory>
    ensures { OnOk result (AreWhensWritten places.now whens.old whens.new) }
{
    for at in 0..whens.len() {
        write_when(alloc, &mut whens[at], places)?;
    }
    Ok(())
}

#[cycle(write)]
fn write_whens(
    alloc: Global,
    whens: Items<When>,
    places: &[ProcedurePlace],
) -> Result<Items<When>, NoMemory>
    ensures { IfOk result (λ made. AreWhensWritten places.now whens made) }
{
    let mut whens = whens.into_vec();
    match write_each_when(alloc, whens.as_mut_slice(), places) {
        Ok(()) => Ok(Items::from_vec(whens)),
        Err(fault) => Err(fault),
    }
}

/// What both arms hold, where neither is an error.
fn pair_of(
    first: Result<Items<Stmt>, NoMemory>,
    second: Result<Items<Stmt>, NoMemory>,
) -> Result<BothArms, NoMemory>
    ensures { IfOk result (λ pair. (first ≡ Ok pair.first) × (second ≡ Ok pair.second)) }
{
    match first {
        Ok(first) => match second {
            Ok(second) => Ok(BothArms { first, second }),
            Err(fault) => {
                drop(first);
                Err(fault)
            }
        },
        Err(fault) => {
            drop(second);
            Err(fault)
        }
    }
}

/// What the two arms hold.
#[cycle(write)]
fn write_pair(alloc: Global, arms: Arms, places: &[ProcedurePlace]) -> Result<BothArms, NoMemory>
    ensures { IfOk result (λ pair. ArePairWritten places.now arms pair) }
{
    let ArmParts { first, second } = arms.into_parts();
    let first = write_arm(alloc, first, places);
    let second = write_arm(alloc, second, places);
    pair_of(first, second)
}

fn own_if(cond: Cond, arms: Result<BothArms, NoMemory>) -> Result<Stmt, NoMemory>
    ensures { IfOk result (λ made. IsOwnIf cond arms made) }
{
    match arms {
        Ok(BothArms { first, second }) => test_if(cond, first, second),
        Err(fault) => {
            drop(cond);
            Err(fault)
        }
    }
}

fn test_if(cond: Cond, yes: Items<Stmt>, no: Items<Stmt>) -> Result<Stmt, NoMemory>
    ensures { IfOk result (λ made. IsTestIf cond yes no made) }
{
    if is_own_test(&cond) {
        if_stmt(cond, yes, no)
    } else {
        Err(NoMemory)
    }
}

fn has_first(arms: &Arms) -> bool
    ensures { result ≡ has_first arms.now }
{
    arms.first.is_some()
}

#[cycle(write)]
fn write_read(
    alloc: Global,
    file: u32,
    into: Option<Place>,
    arms: Arms,
    places: &[ProcedurePlace],
) -> Result<Stmt, NoMemory>
    ensures { IfOk result (λ made. IsWritten places.now (stmts_as.Read file into arms) made) }
{
    let stands = has_first(&arms);
    match write_pair(alloc, arms, places) {
        Ok(BothArms { first, second }) => read_stmt(file, into, first, second, stands),
        Err(fault) => {
            drop(into);
            Err(fault)
        }
    }
}

#[cycle(write)]
fn write_phrases(
    alloc: Global,
    calc: Calc,
    into: Items<Target>,
    arms: Arms,
    places: &[ProcedurePlace],
) -> Result<Stmt, NoMemory>
    ensures { IfOk result
        (λ made. HasPhrases arms → IsWritten places.now (stmts_as.Arith calc into arms) made) }
{
    let stands = has_first(&arms);
    match write_pair(alloc, arms, places) {
        Ok(BothArms { first, second }) => arith_stmt(calc, into, first, second, stands),
        Err(fault) => {
            drop(calc);
            drop(into);
            Err(fault)
        }
    }
}
