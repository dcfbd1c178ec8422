//! Statements that hold others, and lists of statements.

ghost use Rattle.parser_combinators.specs.Reading.{Reads};
ghost use Rattle.cobol_grammar.specs.stmt_forms.Arms as arms;
ghost use Rattle.cobol_grammar.specs.stmt_forms.Choice as choice;
ghost use Rattle.cobol_grammar.specs.stmt_forms.Loop as loops;
ghost use Rattle.cobol_grammar.specs.stmt_forms.Stmt as all;
ghost use Rattle.procedure_parse.specs.drafts.Step as steps;

use crate::drafts::{
    Begun, Draft, FoundStmts, added, begin_arithmetic, begin_evaluate, begin_if, begin_perform,
    boxed_place, draft_ended, drop_arm, drop_cond, drop_control, drop_place, drop_stmts,
    drop_subject, drop_tests, drop_whens, drop_work, loop_closed, read_and_next, simple,
    stmts_ended, when_added, work_ended,
};
use cob_base::{Boxed, Items};
use cob_tree::{Arms, Cond, Control, Place, Stmt, Subject, Test, When};
use cobol_grammar::part_readers::{Parts, at_arithmetic, at_choice, at_simple, at_stmt};
use cobol_grammar::stmt_forms::{NotPhrase, Phrase, ReadHead, Scope, Whens};
use parser_combinators::{Cursor, Unread, Why};
use std::alloc::Global;
use stmt_head_parse::heads::{first_phrase, first_tests, not_phrase, read_head, when_head};

/// What surrounds a statement, for what is read in it.
#[derive(Clone, Copy)]
pub struct StmtContext {
    pub alloc: Global,
    pub scope: Scope,
    /// How many levels of statements it may hold.
    pub levels: u32,
}

/// Reads the statements that a statement holds.
#[cycle(stmt)]
fn held<P: Parts>(
    parts: &P,
    cursor: &mut Cursor<'_>,
    context: StmtContext,
) -> Result<FoundStmts, Unread>
    ensures { Reads ((all.held (P.parts parts.now) context.levels context.scope).reads cursor.old)
        result cursor.new }
{
    if context.levels == 0 {
        return Err(Unread::Stop(Why::Nesting));
    }
    let within = StmtContext {
        levels: context.levels - 1,
        ..context
    };
    stmts_with(parts, cursor, within)
}

#[cycle(stmt)]
#[tactic(auto, unfolding(cobol_grammar::specs::stmt_forms::Arms::held_arm))]
fn held_arm<P: Parts>(
    parts: &P,
    cursor: &mut Cursor<'_>,
    context: StmtContext,
) -> Result<(Option<Items<Stmt>>, bool), Unread>
    ensures { Reads ((arms.held_arm
        (all.level (P.parts parts.now) context.levels) context.scope).reads cursor.old)
        result cursor.new }
{
    let FoundStmts { stmts, pending_not } = held(parts, cursor, context)?;
    Ok((Some(stmts), pending_not))
}

#[cycle(stmt)]
#[tactic(auto, unfolding(cobol_grammar::specs::stmt_forms::Arms::first_arm))]
fn first_arm<P: Parts>(
    parts: &P,
    cursor: &mut Cursor<'_>,
    context: StmtContext,
    present: bool,
) -> Result<(Option<Items<Stmt>>, bool), Unread>
    ensures { Reads
        ((arms.first_arm
        (all.level (P.parts parts.now) context.levels) context.scope present).reads cursor.old)
        result cursor.new }
{
    if present {
        held_arm(parts, cursor, context)
    } else {
        Ok((None, false))
    }
}

#[cycle(stmt)]
#[tactic(auto, unfolding(cobol_grammar::specs::stmt_forms::Arms::second_arm))]
fn second_arm<P: Parts>(
    parts: &P,
    cursor: &mut Cursor<'_>,
    context: StmtContext,
    following: NotPhrase,
) -> Result<(Option<Items<Stmt>>, bool), Unread>
    ensures { Reads
        ((arms.second_arm
        (all.level (P.parts parts.now) context.levels) context.scope following).reads cursor.old)
        result cursor.new }
{
    match following {
        NotPhrase::Missing => Ok((None, false)),
        NotPhrase::Own => held_arm(parts, cursor, context),
        NotPhrase::Foreign => Ok((None, true)),
    }
}

#[cycle(stmt)]
#[tactic(auto, unfolding(cobol_grammar::specs::stmt_forms::Arms::second_behind))]
fn second_behind<P: Parts>(
    parts: &P,
    cursor: &mut Cursor<'_>,
    context: StmtContext,
    phrase: Phrase,
    first: (Option<Items<Stmt>>, bool),
) -> Result<(Arms, bool), Unread>
    ensures { Reads
        ((arms.second_behind phrase
        (all.level (P.parts parts.now) context.levels) context.scope first).reads cursor.old)
        result cursor.new }
{
    let (first, pending_not) = first;
    match not_phrase(cursor, phrase, context.levels, first.is_some(), pending_not) {
        Ok(following) => match second_arm(parts, cursor, context, following) {
            Ok((second, pending_not)) => Ok((Arms { first, second }, pending_not)),
            Err(stop) => {
                drop_arm(first);
                Err(stop)
            }
        },
        Err(stop) => {
            drop_arm(first);
            Err(stop)
        }
    }
}

#[cycle(stmt)]
#[tactic(auto, unfolding(cobol_grammar::specs::stmt_forms::Arms::arms))]
fn arms<P: Parts>(
    parts: &P,
    cursor: &mut Cursor<'_>,
    context: StmtContext,
    phrase: Phrase,
) -> Result<(Arms, bool), Unread>
    ensures { Reads
        ((arms.arms phrase
        (all.level (P.parts parts.now) context.levels) context.scope).reads cursor.old)
        result cursor.new }
{
    let present = first_phrase(cursor, phrase, context.levels)?;
    let first = first_arm(parts, cursor, context, present)?;
    second_behind(parts, cursor, context, phrase, first)
}

#[cycle(stmt)]
#[tactic(auto, unfolding(cobol_grammar::specs::stmt_forms::Arms::arithmetic_stmt))]
fn arithmetic_stmt<P: Parts>(
    parts: &P,
    cursor: &mut Cursor<'_>,
    context: StmtContext,
) -> Result<(Draft, bool), Unread>
    ensures { Reads
        ((arms.arithmetic_stmt (P.parts parts.now)
        (all.level (P.parts parts.now) context.levels) context.scope).reads cursor.old)
        result cursor.new }
{
    let (verb, (calc, into)) = begin_arithmetic(parts, context.alloc, cursor)?;
    match arms(parts, cursor, context, Phrase::Size) {
        Ok((arms, pending_not)) => {
            work_ended(cursor, verb, Draft::arith(calc, into, arms), pending_not)
        }
        Err(stop) => {
            drop_work(calc, into);
            Err(stop)
        }
    }
}

#[cycle(stmt)]
#[tactic(auto, unfolding(cobol_grammar::specs::stmt_forms::Arms::read_arms))]
fn read_arms<P: Parts>(
    parts: &P,
    cursor: &mut Cursor<'_>,
    context: StmtContext,
    found: Items<Stmt>,
    file: u32,
    into: Option<Boxed<Place>>,
) -> Result<FoundStmts, Unread>
    ensures { Reads
        ((arms.read_arms
        (all.level (P.parts parts.now) context.levels)
        context.scope found file into).reads cursor.old)
        result cursor.new }
{
    match arms(parts, cursor, context, Phrase::End) {
        Ok((arms, pending_not)) => {
            let found = added(found, Draft::read(file, into, arms))?;
            stmts_ended(cursor, b"END-READ", found, pending_not)
        }
        Err(stop) => {
            drop_stmts(found);
            drop_place(into);
            Err(stop)
        }
    }
}

#[cycle(stmt)]
#[tactic(auto, unfolding(cobol_grammar::specs::stmt_forms::Arms::read_by))]
fn read_by<P: Parts>(
    parts: &P,
    cursor: &mut Cursor<'_>,
    context: StmtContext,
    found: Items<Stmt>,
    head: ReadHead,
) -> Result<FoundStmts, Unread>
    ensures { Reads
        ((arms.read_by
        (all.level (P.parts parts.now) context.levels) context.scope found head).reads cursor.old)
        result cursor.new }
{
    match head {
        ReadHead::WithSentence(file) => {
            let stmts = read_and_next(found, file)?;
            Ok(FoundStmts {
                stmts,
                pending_not: false,
            })
        }
        ReadHead::Open { file, into } => match boxed_place(context.alloc, into) {
            Ok(into) => read_arms(parts, cursor, context, found, file, into),
            Err(fault) => {
                drop_stmts(found);
                Err(Unread::from(fault))
            }
        },
    }
}

#[cycle(stmt)]
#[tactic(auto, unfolding(cobol_grammar::specs::stmt_forms::Arms::read_stmt))]
fn read_stmt<P: Parts>(
    parts: &P,
    cursor: &mut Cursor<'_>,
    context: StmtContext,
    found: Items<Stmt>,
) -> Result<FoundStmts, Unread>
    ensures { Reads
        ((arms.read_stmt (P.parts parts.now)
        (all.level (P.parts parts.now) context.levels) context.scope found).reads cursor.old)
        result cursor.new }
{
    match read_head(parts, context.alloc, cursor) {
        Ok(head) => read_by(parts, cursor, context, found, head),
        Err(stop) => {
            drop_stmts(found);
            Err(stop)
        }
    }
}

#[cycle(stmt)]
#[tactic(auto, unfolding(cobol_grammar::specs::stmt_forms::Choice::else_part))]
fn else_part<P: Parts>(
    parts: &P,
    cursor: &mut Cursor<'_>,
    context: StmtContext,
) -> Result<FoundStmts, Unread>
    ensures { Reads
        ((choice.else_part
        (all.level (P.parts parts.now) context.levels) context.scope).reads cursor.old)
        result cursor.new }
{
    if cursor.sees(b"ELSE") {
        cursor.key(b"ELSE")?;
        held(parts, cursor, context)
    } else {
        Ok(FoundStmts {
            stmts: Items::new(context.alloc),
            pending_not: false,
        })
    }
}

#[cycle(stmt)]
#[tactic(auto, unfolding(cobol_grammar::specs::stmt_forms::Choice::if_ended))]
fn if_ended<P: Parts>(
    parts: &P,
    cursor: &mut Cursor<'_>,
    context: StmtContext,
    cond: Boxed<Cond>,
    yes: Items<Stmt>,
) -> Result<(Draft, bool), Unread>
    ensures { Reads
        ((choice.if_ended
        (all.level (P.parts parts.now) context.levels) context.scope cond yes).reads cursor.old)
        result cursor.new }
{
    match else_part(parts, cursor, context) {
        Ok(FoundStmts { stmts, pending_not }) => {
            let draft = Draft::choice(cond, yes, stmts);
            draft_ended(cursor, b"END-IF", draft, pending_not)
        }
        Err(stop) => {
            drop_cond(cond);
            drop_stmts(yes);
            Err(stop)
        }
    }
}

#[cycle(stmt)]
#[tactic(auto, unfolding(cobol_grammar::specs::stmt_forms::Choice::if_behind))]
fn if_behind<P: Parts>(
    parts: &P,
    cursor: &mut Cursor<'_>,
    context: StmtContext,
    cond: Boxed<Cond>,
    first: FoundStmts,
) -> Result<(Draft, bool), Unread>
    ensures { Reads
        ((choice.if_behind
        (all.level (P.parts parts.now) context.levels) context.scope cond first).reads cursor.old)
        result cursor.new }
{
    let FoundStmts { stmts, pending_not } = first;
    if pending_not {
        let none = Items::new(context.alloc);
        Ok((Draft::choice(cond, stmts, none), true))
    } else {
        if_ended(parts, cursor, context, cond, stmts)
    }
}

#[cycle(stmt)]
#[tactic(auto, unfolding(cobol_grammar::specs::stmt_forms::Choice::if_stmt))]
fn if_stmt<P: Parts>(
    parts: &P,
    cursor: &mut Cursor<'_>,
    context: StmtContext,
) -> Result<(Draft, bool), Unread>
    ensures { Reads
        ((choice.if_stmt (P.parts parts.now)
        (all.level (P.parts parts.now) context.levels) context.scope).reads cursor.old)
        result cursor.new }
{
    let cond = begin_if(parts, context.alloc, cursor, context.levels)?;
    match held(parts, cursor, context) {
        Ok(first) => if_behind(parts, cursor, context, cond, first),
        Err(stop) => {
            drop_cond(cond);
            Err(stop)
        }
    }
}

#[cycle(stmt)]
#[tactic(auto, unfolding(cobol_grammar::specs::stmt_forms::Choice::when_held))]
fn when_held<P: Parts>(
    parts: &P,
    cursor: &mut Cursor<'_>,
    context: StmtContext,
    whens: Items<When>,
    tests: Items<Test>,
) -> Result<Whens, Unread>
    ensures { Reads
        ((choice.when_held
        (all.level (P.parts parts.now) context.levels) context.scope whens tests).reads cursor.old)
        result cursor.new }
{
    match held(parts, cursor, context) {
        Ok(FoundStmts { stmts, pending_not }) => Ok(Whens {
            whens: when_added(whens, When { tests, stmts })?,
            other: false,
            pending_not,
        }),
        Err(stop) => {
            drop_whens(whens);
            drop_tests(tests);
            Err(stop)
        }
    }
}

#[cycle(stmt)]
#[tactic(auto, unfolding(cobol_grammar::specs::stmt_forms::Choice::whens_by))]
fn whens_by<P: Parts>(
    parts: &P,
    cursor: &mut Cursor<'_>,
    context: StmtContext,
    whens: Items<When>,
    head: Option<Items<Test>>,
) -> Result<Whens, Unread>
    ensures { Reads
        ((choice.whens_by
        (all.level (P.parts parts.now) context.levels) context.scope whens head).reads cursor.old)
        result cursor.new }
{
    match head {
        None => Ok(Whens {
            whens,
            other: true,
            pending_not: false,
        }),
        Some(tests) => when_held(parts, cursor, context, whens, tests),
    }
}

#[cycle(stmt)]
#[tactic(auto, unfolding(cobol_grammar::specs::stmt_forms::Choice::when_next))]
fn when_next<P: Parts>(
    parts: &P,
    cursor: &mut Cursor<'_>,
    context: StmtContext,
    known: &Option<P::Known>,
    whens: Items<When>,
) -> Result<Whens, Unread>
    ensures { Reads
        ((choice.when_next (P.parts parts.now)
        (all.level (P.parts parts.now) context.levels)
        context.scope known.now whens).reads cursor.old)
        result cursor.new }
{
    match when_head(parts, context.alloc, cursor, known) {
        Ok(head) => whens_by(parts, cursor, context, whens, head),
        Err(stop) => {
            drop_whens(whens);
            Err(stop)
        }
    }
}

#[cycle(stmt)]
#[tactic(auto, unfolding(cobol_grammar::specs::stmt_forms::Choice::whens_turn))]
fn whens_turn<P: Parts>(
    parts: &P,
    cursor: &mut Cursor<'_>,
    context: StmtContext,
    known: &Option<P::Known>,
    state: Whens,
) -> Result<Whens, Unread>
    ensures { Reads
        ((choice.whens_turn (P.parts parts.now)
        (all.level (P.parts parts.now) context.levels)
        context.scope known.now state).reads cursor.old)
        result cursor.new }
{
    let Whens {
        whens,
        other,
        pending_not,
    } = state;
    if other || pending_not {
        drop_whens(whens);
        Err(Unread::Stop(Why::Syntax))
    } else {
        when_next(parts, cursor, context, known, whens)
    }
}

#[cycle(stmt)]
fn whens_from<P: Parts>(
    parts: &P,
    cursor: &mut Cursor<'_>,
    context: StmtContext,
    known: &Option<P::Known>,
    mut state: Whens,
) -> Result<Whens, Unread>
    ensures { Reads
        ((choice.whens_from (P.parts parts.now)
        (all.level (P.parts parts.now) context.levels)
        context.scope known.now state).reads cursor.old)
        result cursor.new }
{
    'whens: while cursor.sees(b"WHEN") {
        state = whens_turn(parts, cursor, context, known, state)?;
    }
    Ok(state)
}

#[cycle(stmt)]
#[tactic(auto, unfolding(cobol_grammar::specs::stmt_forms::Choice::whens))]
fn whens<P: Parts>(
    parts: &P,
    cursor: &mut Cursor<'_>,
    context: StmtContext,
    known: &Option<P::Known>,
) -> Result<Whens, Unread>
    ensures { Reads
        ((choice.whens (P.parts parts.now)
        (all.level (P.parts parts.now) context.levels) context.scope known.now).reads cursor.old)
        result cursor.new }
{
    let tests = first_tests(parts, context.alloc, cursor, known)?;
    let first = when_held(parts, cursor, context, Items::new(context.alloc), tests)?;
    whens_from(parts, cursor, context, known, first)
}

#[cycle(stmt)]
#[tactic(auto, unfolding(cobol_grammar::specs::stmt_forms::Choice::other_part))]
fn other_part<P: Parts>(
    parts: &P,
    cursor: &mut Cursor<'_>,
    context: StmtContext,
    state: &Whens,
) -> Result<(Option<Items<Stmt>>, bool), Unread>
    ensures { Reads
        ((choice.other_part
        (all.level (P.parts parts.now) context.levels) context.scope state.now).reads cursor.old)
        result cursor.new }
{
    if state.other {
        held_arm(parts, cursor, context)
    } else {
        Ok((None, state.pending_not))
    }
}

#[cycle(stmt)]
#[tactic(auto, unfolding(cobol_grammar::specs::stmt_forms::Choice::evaluated))]
fn evaluated<P: Parts>(
    parts: &P,
    cursor: &mut Cursor<'_>,
    context: StmtContext,
    subject: Boxed<Subject>,
    state: Whens,
) -> Result<(Draft, bool), Unread>
    ensures { Reads
        ((choice.evaluated
        (all.level (P.parts parts.now) context.levels)
        context.scope subject state).reads cursor.old)
        result cursor.new }
{
    match other_part(parts, cursor, context, &state) {
        Ok((other, pending_not)) => {
            let Whens { whens, .. } = state;
            let draft = Draft::evaluate(subject, whens, other);
            draft_ended(cursor, b"END-EVALUATE", draft, pending_not)
        }
        Err(stop) => {
            let Whens { whens, .. } = state;
            drop_subject(subject);
            drop_whens(whens);
            Err(stop)
        }
    }
}

#[cycle(stmt)]
#[tactic(auto, unfolding(cobol_grammar::specs::stmt_forms::Choice::evaluate_stmt))]
fn evaluate_stmt<P: Parts>(
    parts: &P,
    cursor: &mut Cursor<'_>,
    context: StmtContext,
) -> Result<(Draft, bool), Unread>
    ensures { Reads
        ((choice.evaluate_stmt (P.parts parts.now)
        (all.level (P.parts parts.now) context.levels) context.scope).reads cursor.old)
        result cursor.new }
{
    let (subject, known) = begin_evaluate(parts, context.alloc, cursor, context.levels)?;
    match whens(parts, cursor, context, &known) {
        Ok(state) => {
            drop(known);
            evaluated(parts, cursor, context, subject, state)
        }
        Err(stop) => {
            drop_subject(subject);
            drop(known);
            Err(stop)
        }
    }
}

#[cycle(stmt)]
#[tactic(auto, unfolding(cobol_grammar::specs::stmt_forms::Choice::choice_stmt))]
fn choice_stmt<P: Parts>(
    parts: &P,
    cursor: &mut Cursor<'_>,
    context: StmtContext,
) -> Result<(Draft, bool), Unread>
    ensures { Reads
        ((choice.choice_stmt (P.parts parts.now)
        (all.level (P.parts parts.now) context.levels) context.scope).reads cursor.old)
        result cursor.new }
{
    if cursor.sees(b"IF") {
        if_stmt(parts, cursor, context)
    } else {
        evaluate_stmt(parts, cursor, context)
    }
}

#[cycle(stmt)]
#[tactic(auto, unfolding(cobol_grammar::specs::stmt_forms::Loop::loop_body, cobol_grammar::specs::stmt_forms::Loop::loop_end))]
fn loop_body<P: Parts>(
    parts: &P,
    cursor: &mut Cursor<'_>,
    context: StmtContext,
    control: Boxed<Control>,
) -> Result<(Draft, bool), Unread>
    ensures { Reads
        ((loops.loop_body
        (all.level (P.parts parts.now) context.levels) context.scope control).reads cursor.old)
        result cursor.new }
{
    let scope = Scope {
        in_loop: true,
        in_section: context.scope.in_section,
    };
    match held(parts, cursor, StmtContext { scope, ..context }) {
        Ok(FoundStmts { stmts, pending_not }) => {
            if pending_not {
                drop_control(control);
                drop_stmts(stmts);
                Err(Unread::Stop(Why::Syntax))
            } else {
                loop_closed(cursor, control, stmts)
            }
        }
        Err(stop) => {
            drop_control(control);
            Err(stop)
        }
    }
}

#[cycle(stmt)]
fn perform_from<P: Parts>(
    parts: &P,
    cursor: &mut Cursor<'_>,
    context: StmtContext,
    head: Begun,
) -> Result<(Draft, bool), Unread>
    ensures { Reads
        ((steps.perform_from
        (all.level (P.parts parts.now) context.levels) context.scope head).reads cursor.old)
        result cursor.new }
{
    match head {
        Begun::Whole(draft, pending_not) => Ok((draft, pending_not)),
        Begun::Inline(control) => loop_body(parts, cursor, context, control),
    }
}

// PERFORM is read by two calls here, without one between: Rattle's compiler inlines the first calls
// of a function, up to a size, and the frame of a head would then be kept with them.
#[cycle(stmt)]
#[tactic(auto, using(crate::proofs::statements_lemmas::Begun::held_read), unfolding(cobol_grammar::specs::stmt_forms::Stmt::holding_stmt))]
fn holding_stmt<P: Parts>(
    parts: &P,
    cursor: &mut Cursor<'_>,
    context: StmtContext,
) -> Result<(Draft, bool), Unread>
    ensures { Reads
        ((all.holding_stmt (P.parts parts.now)
        (all.level (P.parts parts.now) context.levels) context.scope).reads cursor.old)
        result cursor.new }
{
    if at_arithmetic(cursor) {
        arithmetic_stmt(parts, cursor, context)
    } else if at_choice(cursor) {
        choice_stmt(parts, cursor, context)
    } else {
        let head = begin_perform(parts, context.alloc, cursor, context.levels)?;
        perform_from(parts, cursor, context, head)
    }
}

#[cycle(stmt)]
#[tactic(auto, unfolding(cobol_grammar::specs::stmt_forms::Stmt::held_stmts))]
fn held_stmts<P: Parts>(
    parts: &P,
    cursor: &mut Cursor<'_>,
    context: StmtContext,
    found: Items<Stmt>,
) -> Result<FoundStmts, Unread>
    ensures { Reads
        ((all.held_stmts (P.parts parts.now)
        (all.level (P.parts parts.now) context.levels) context.scope found).reads cursor.old)
        result cursor.new }
{
    if cursor.sees(b"READ") {
        read_stmt(parts, cursor, context, found)
    } else {
        match holding_stmt(parts, cursor, context) {
            Ok((draft, pending_not)) => Ok(FoundStmts {
                stmts: added(found, draft)?,
                pending_not,
            }),
            Err(stop) => {
                drop_stmts(found);
                Err(stop)
            }
        }
    }
}

#[cycle(stmt)]
#[tactic(auto, unfolding(cobol_grammar::specs::stmt_forms::Stmt::stmt, cobol_grammar::specs::stmt_forms::Stmt::stmts_turn))]
fn stmts_turn<P: Parts>(
    parts: &P,
    cursor: &mut Cursor<'_>,
    context: StmtContext,
    found: FoundStmts,
) -> Result<FoundStmts, Unread>
    ensures { Reads
        ((all.stmts_turn (P.parts parts.now)
        (all.level (P.parts parts.now) context.levels) context.scope found).reads cursor.old)
        result cursor.new }
{
    let FoundStmts { stmts, pending_not } = found;
    if pending_not {
        drop_stmts(stmts);
        Err(Unread::Stop(Why::Syntax))
    } else if at_simple(cursor) {
        simple(parts, context.alloc, cursor, context.scope, stmts)
    } else {
        held_stmts(parts, cursor, context, stmts)
    }
}

/// Reads as many statements as there are, and adds them to those that were found.
#[cycle(stmt)]
pub fn stmts_from<P: Parts>(
    parts: &P,
    cursor: &mut Cursor<'_>,
    context: StmtContext,
    mut found: FoundStmts,
) -> Result<FoundStmts, Unread>
    ensures { Reads
        ((all.stmts_from (P.parts parts.now)
        (all.level (P.parts parts.now) context.levels) context.scope found).reads cursor.old)
        result cursor.new }
{
    'stmts: while at_stmt(cursor) {
        found = stmts_turn(parts, cursor, context, found)?;
    }
    Ok(found)
}

/// Reads one or more statements.
#[cycle(stmt)]
#[tactic(auto, unfolding(cobol_grammar::specs::stmt_forms::Stmt::stmt, cobol_grammar::specs::stmt_forms::Stmt::stmts_with))]
pub fn stmts_with<P: Parts>(
    parts: &P,
    cursor: &mut Cursor<'_>,
    context: StmtContext,
) -> Result<FoundStmts, Unread>
    ensures { Reads
        ((all.stmts_with (P.parts parts.now)
        (all.level (P.parts parts.now) context.levels) context.scope).reads cursor.old)
        result cursor.new }
{
    let none = Items::new(context.alloc);
    let first = if at_simple(cursor) {
        simple(parts, context.alloc, cursor, context.scope, none)?
    } else {
        held_stmts(parts, cursor, context, none)?
    };
    stmts_from(parts, cursor, context, first)
}
