//! The parts of a statement, in boxes.
//!
//! The stack frame of a call that reads held statements lasts as long as these are read. So what
//! comes before them is kept in a box, and the statement is made in a call that is over before the
//! next begins.

ghost use Rattle.std.specs.Prelude.{◌≡◌, [], ◌∷◌, ◌++◌};
ghost use Rattle.cob_base.specs.Answers.{Makes};
ghost use Rattle.cob_tree.specs.declared.stmt.Stmt.TheVariants as stmts;
ghost use Rattle.parser_combinators.specs.Reading.{Reads};
ghost use Rattle.cobol_grammar.specs.stmt_forms.Arms as arms;
ghost use Rattle.cobol_grammar.specs.stmt_forms.Choice as choice;
ghost use Rattle.cobol_grammar.specs.stmt_forms.Loop as loops;
ghost use Rattle.cobol_grammar.specs.stmt_forms.Stmt as all;
ghost use Rattle.procedure_parse.specs.drafts.Step as steps;

use crate::drafts::found_stmts::FoundStmts;
use cob_base::{Boxed, Items, NoMemory};
use cob_tree::{Arms, Calc, Cond, Control, Place, Stmt, Subject, Target, When};
use cobol_grammar::part_readers::{Parts, pushed};
use cobol_grammar::stmt_forms::{ArithmeticVerb, PerformHead, Scope};
use parser_combinators::{Cursor, Unread};
use simple_stmt_parse::arithmetic::arithmetic_work;
use simple_stmt_parse::verbs::simple_stmts;
use std::alloc::Global;
use std::marker::Model;
use stmt_head_parse::heads::{evaluate_head, if_head};
use stmt_head_parse::perform::perform_head;

/// A statement of arithmetic up to its arms.
pub type BoxedWork = (ArithmeticVerb, (Boxed<Calc>, Items<Target>));

/// PERFORM up to what it holds, if it holds statements.
#[derive(Drop)]
pub enum Begun {
    /// A whole statement, and whether a NOT was read after it that isn't its own.
    Whole(Draft, bool),
    Inline(Boxed<Control>),
}

/// The parts of a statement. The large ones are in boxes.
#[derive(Drop)]
pub enum DraftParts {
    Arith(Boxed<Calc>, Items<Target>, Arms),
    Read(u32, Option<Boxed<Place>>, Arms),
    If(Boxed<Cond>, Items<Stmt>, Items<Stmt>),
    Evaluate(Boxed<Subject>, Items<When>, Option<Items<Stmt>>),
    Loop(Boxed<Control>, Items<Stmt>),
    NextSentence,
    Whole(Boxed<Stmt>),
}

fn unboxed_place(into: Option<Boxed<Place>>) -> Option<Place>
    ensures { result ≡ into }
{
    match into {
        None => None,
        Some(place) => Some(place.into_inner()),
    }
}

/// A statement that isn't made yet, so that it is small. Contracts see the statement.
#[derive(Drop)]
pub struct Draft {
    parts: DraftParts,
}

impl Model for Draft {
    ghost use Rattle.cob_tree.specs.declared.stmt.Stmt.{Stmt};
    ghost use Rattle.procedure_parse.specs.drafts.Draft.{stmt_of};
    ghost use Rattle.cob_tree.specs.contracts.stmt.Stmt as rows;
    ghost use Rattle.std.specs.Coded.{codes};

    ghost Value = { Stmt };

    ghost coded = { Prim.hlevel (codes, rows.the_row.coded) };

    ghost view = { λ draft. stmt_of draft.parts };
}

impl Draft {
    /// The draft of an arithmetic statement.
    pub fn arith(calc: Boxed<Calc>, into: Items<Target>, arms: Arms) -> Draft
        ensures { result ≡ stmts.Arith calc into arms }
    {
        Draft {
            parts: DraftParts::Arith(calc, into, arms),
        }
    }

    /// The draft of READ.
    pub fn read(file: u32, into: Option<Boxed<Place>>, arms: Arms) -> Draft
        ensures { result ≡ stmts.Read file into arms }
    {
        Draft {
            parts: DraftParts::Read(file, into, arms),
        }
    }

    /// The draft of IF.
    pub fn choice(cond: Boxed<Cond>, yes: Items<Stmt>, no: Items<Stmt>) -> Draft
        ensures { result ≡ stmts.If cond yes no }
    {
        Draft {
            parts: DraftParts::If(cond, yes, no),
        }
    }

    /// The draft of EVALUATE.
    pub fn evaluate(
        subject: Boxed<Subject>,
        whens: Items<When>,
        other: Option<Items<Stmt>>,
    ) -> Draft
        ensures { result ≡ stmts.Evaluate subject whens other }
    {
        Draft {
            parts: DraftParts::Evaluate(subject, whens, other),
        }
    }

    /// The draft of an inline PERFORM.
    pub fn held_loop(control: Boxed<Control>, body: Items<Stmt>) -> Draft
        ensures { result ≡ stmts.Loop control body }
    {
        Draft {
            parts: DraftParts::Loop(control, body),
        }
    }

    fn next_sentence() -> Draft
        ensures { result ≡ stmts.NextSentence }
    {
        Draft {
            parts: DraftParts::NextSentence,
        }
    }

    fn whole(stmt: Boxed<Stmt>) -> Draft
        ensures { result ≡ stmt }
    {
        Draft {
            parts: DraftParts::Whole(stmt),
        }
    }

    fn into_stmt(self) -> Stmt
        ensures { result ≡ self }
    {
        let Draft { parts } = self;
        match parts {
            DraftParts::Arith(calc, into, arms) => {
                let calc = calc.into_inner();
                Stmt::Arith { calc, into, arms }
            }
            DraftParts::Read(file, into, arms) => {
                let into = unboxed_place(into);
                Stmt::Read { file, into, arms }
            }
            DraftParts::If(cond, yes, no) => {
                let cond = cond.into_inner();
                Stmt::If { cond, yes, no }
            }
            DraftParts::Evaluate(subject, whens, other) => {
                let subject = subject.into_inner();
                Stmt::Evaluate {
                    subject,
                    whens,
                    other,
                }
            }
            DraftParts::Loop(control, body) => {
                let control = control.into_inner();
                Stmt::Loop { control, body }
            }
            DraftParts::NextSentence => Stmt::NextSentence,
            DraftParts::Whole(stmt) => stmt.into_inner(),
        }
    }
}

/// The statements with one more, made from its draft.
pub fn added(found: Items<Stmt>, draft: Draft) -> Result<Items<Stmt>, NoMemory>
    ensures { Makes (found ++ draft ∷ []) result }
{
    pushed(found, draft.into_stmt())
}

/// Reads arithmetic up to its arms.
pub fn begin_arithmetic<P: Parts>(
    parts: &P,
    alloc: Global,
    cursor: &mut Cursor<'_>,
) -> Result<BoxedWork, Unread>
    ensures { Reads ((arms.arithmetic_work (P.parts parts.now)).reads cursor.old)
        result cursor.new }
{
    let (verb, (calc, into)) = arithmetic_work(parts, alloc, cursor)?;
    match Boxed::new(alloc, calc) {
        Ok(calc) => Ok((verb, (calc, into))),
        Err(fault) => {
            drop(into);
            Err(Unread::from(fault))
        }
    }
}

/// The place that READ moves to, in a box.
pub fn boxed_place(alloc: Global, into: Option<Place>) -> Result<Option<Boxed<Place>>, NoMemory>
    ensures { Makes into result }
{
    match into {
        None => Ok(None),
        Some(place) => Ok(Some(Boxed::new(alloc, place)?)),
    }
}

/// Adds a READ without arms, and NEXT SENTENCE after it.
pub fn read_and_next(found: Items<Stmt>, file: u32) -> Result<Items<Stmt>, NoMemory>
    ensures { Makes (arms.read_and_next found file) result }
{
    let arms = Arms {
        first: None,
        second: None,
    };
    let found = added(found, Draft::read(file, None, arms))?;
    added(found, Draft::next_sentence())
}

/// Reads IF up to its statements.
pub fn begin_if<P: Parts>(
    parts: &P,
    alloc: Global,
    cursor: &mut Cursor<'_>,
    levels: u32,
) -> Result<Boxed<Cond>, Unread>
    ensures { Reads ((choice.if_head (P.parts parts.now) (all.enter_level levels)).reads cursor.old)
        result cursor.new }
{
    let cond = if_head(parts, alloc, cursor, levels)?;
    Ok(Boxed::new(alloc, cond)?)
}

/// Reads EVALUATE and its subject.
pub fn begin_evaluate<P: Parts>(
    parts: &P,
    alloc: Global,
    cursor: &mut Cursor<'_>,
    levels: u32,
) -> Result<(Boxed<Subject>, Option<P::Known>), Unread>
    ensures { Reads
        ((choice.evaluate_head (P.parts parts.now) (all.enter_level levels)).reads cursor.old)
        result cursor.new }
{
    let (subject, known) = evaluate_head(parts, alloc, cursor, levels)?;
    match Boxed::new(alloc, subject) {
        Ok(subject) => Ok((subject, known)),
        Err(fault) => {
            drop(known);
            Err(Unread::from(fault))
        }
    }
}

fn boxed_head(alloc: Global, head: PerformHead) -> Result<Begun, NoMemory>
    ensures { Makes (steps.begun head) result }
{
    match head {
        PerformHead::Whole(stmt, pending_not) => {
            let stmt = Boxed::new(alloc, stmt)?;
            Ok(Begun::Whole(Draft::whole(stmt), pending_not))
        }
        PerformHead::Inline(control) => {
            let control = Boxed::new(alloc, control)?;
            Ok(Begun::Inline(control))
        }
    }
}

/// Reads PERFORM up to the statements that it holds.
pub fn begin_perform<P: Parts>(
    parts: &P,
    alloc: Global,
    cursor: &mut Cursor<'_>,
    levels: u32,
) -> Result<Begun, Unread>
    ensures { Reads
        ((steps.perform_begun (P.parts parts.now) (all.enter_level levels)).reads cursor.old)
        result cursor.new }
{
    let head = perform_head(parts, alloc, cursor, levels)?;
    Ok(boxed_head(alloc, head)?)
}

/// Takes the end of an inline PERFORM.
#[tactic(auto, unfolding(cobol_grammar::specs::stmt_forms::Loop::loop_closed))]
pub fn loop_closed(
    cursor: &mut Cursor<'_>,
    control: Boxed<Control>,
    body: Items<Stmt>,
) -> Result<(Draft, bool), Unread>
    ensures { Reads ((loops.loop_closed control body).reads cursor.old) result cursor.new }
{
    match cursor.key(b"END-PERFORM") {
        Ok(_) => Ok((Draft::held_loop(control, body), false)),
        Err(stop) => {
            drop(control);
            drop(body);
            Err(stop)
        }
    }
}

/// Reads a statement that holds no other, and adds it to those that were found.
pub fn simple<P: Parts>(
    parts: &P,
    alloc: Global,
    cursor: &mut Cursor<'_>,
    scope: Scope,
    found: Items<Stmt>,
) -> Result<FoundStmts, Unread>
    ensures { Reads ((steps.simple (P.parts parts.now) scope found).reads cursor.old)
        result cursor.new }
{
    let stmts = simple_stmts(parts, alloc, cursor, scope, found)?;
    Ok(FoundStmts {
        stmts,
        pending_not: false,
    })
}
