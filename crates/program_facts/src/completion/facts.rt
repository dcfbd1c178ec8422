//! What lowering needs to know of a statement.

ghost use Rattle.std.specs.Prelude.{◌≡◌};
ghost use Rattle.control_flow_theory.specs.language.Control.{control_in};
ghost use Rattle.program_facts.specs.completion.FlowFacts.{flow_facts_of};
ghost use Rattle.program_facts.specs.completion.Facts.{acting, no_arms, beside, behind, missing_arm, looped, performing, escaping, leaving_sentence, leaving_loop};
ghost use Rattle.program_facts.specs.completion.Seen.{AreFacts, AreFactsOfAll, AreFactsOfBoth, AreFactsOfElse, AreFactsOfWhens, is_after_seen, loop_facts, perform_facts};

use crate::completion::told::{ends_at_end, returns};
use cob_base::Items;
use cob_tree::{Arms, Control, FileEntry, Stmt, When};

/// What lowering needs to know of a statement, or of a list of them.
#[derive(Clone, Copy, Debug, PartialEq, Eq)]
pub struct Facts {
    /// Whether control can come to what follows it.
    pub completes: bool,
    /// Whether it holds an EXIT PERFORM of the loop around it, not after what can't complete.
    pub leaves_loop: bool,
    /// Whether it holds no escape, once it is cut.
    pub whole: bool,
    /// Whether it holds a NEXT SENTENCE, once it is cut.
    pub leaves_sentence: bool,
}

fn acting() -> Facts
    ensures { result ≡ acting }
{
    Facts {
        completes: true,
        leaves_loop: false,
        whole: true,
        leaves_sentence: false,
    }
}

fn no_arms() -> Facts
    ensures { result ≡ no_arms }
{
    Facts {
        completes: false,
        leaves_loop: false,
        whole: true,
        leaves_sentence: false,
    }
}

fn beside(arm: Facts, others: Facts) -> Facts
    ensures { result ≡ beside arm others }
{
    Facts {
        completes: arm.completes || others.completes,
        leaves_loop: arm.leaves_loop || others.leaves_loop,
        whole: arm.whole && others.whole,
        leaves_sentence: arm.leaves_sentence || others.leaves_sentence,
    }
}

fn behind(first: Facts, next: Facts) -> Facts
    ensures { result ≡ behind first next }
{
    if !first.completes {
        return first;
    }
    Facts {
        completes: next.completes,
        leaves_loop: first.leaves_loop || next.leaves_loop,
        whole: first.whole && next.whole,
        leaves_sentence: first.leaves_sentence || next.leaves_sentence,
    }
}

fn missing_arm(is_dead: bool, others: Facts) -> Facts
    ensures { result ≡ missing_arm is_dead others }
{
    if is_dead {
        return others;
    }
    Facts {
        completes: true,
        leaves_loop: others.leaves_loop,
        whole: others.whole,
        leaves_sentence: others.leaves_sentence,
    }
}

fn looped(after: bool, body: Facts) -> Facts
    ensures { result ≡ looped after body }
{
    Facts {
        completes: !after || body.completes || body.leaves_loop,
        leaves_loop: false,
        whole: body.whole,
        leaves_sentence: body.leaves_sentence,
    }
}

/// The facts of a PERFORM without a loop, whose range returns or doesn't, and of STOP RUN.
fn performing(returns: bool) -> Facts
    ensures { result ≡ performing returns }
{
    Facts {
        completes: returns,
        leaves_loop: false,
        whole: true,
        leaves_sentence: false,
    }
}

/// The facts of an escape that leaves no sentence and no loop.
fn escaping(completes: bool) -> Facts
    ensures { result ≡ escaping completes }
{
    Facts {
        completes,
        leaves_loop: false,
        whole: false,
        leaves_sentence: false,
    }
}

/// The facts of NEXT SENTENCE.
fn leaving_sentence() -> Facts
    ensures { result ≡ leaving_sentence }
{
    Facts {
        completes: false,
        leaves_loop: false,
        whole: false,
        leaves_sentence: true,
    }
}

/// The facts of EXIT PERFORM.
fn leaving_loop() -> Facts
    ensures { result ≡ leaving_loop }
{
    Facts {
        completes: false,
        leaves_loop: true,
        whole: false,
        leaves_sentence: false,
    }
}

/// Whether the loop is tested after its body.
fn is_after(control: &Control) -> bool
    ensures { result ≡ is_after_seen (control_in control.now) }
{
    match control {
        Control::Once => false,
        Control::Times(_) => false,
        Control::Until { after, .. } => *after,
        Control::Varying { after, .. } => *after,
    }
}

/// The facts of an inline loop over a body.
fn loop_facts(control: &Control, body: Facts) -> Facts
    ensures { result ≡ loop_facts (control_in control.now) body }
{
    match control {
        Control::Once => body,
        _ => looped(is_after(control), body),
    }
}

/// The facts of a PERFORM of a range that returns or doesn't.
fn perform_facts(control: &Control, returns: bool) -> Facts
    ensures { result ≡ perform_facts (control_in control.now) returns }
{
    match control {
        Control::Once => performing(returns),
        _ => looped(is_after(control), performing(returns)),
    }
}

/// What lowering needs to know of a statement, with these files and the exits of the ranges that
/// return.
#[cycle(facts)]
pub fn stmt_facts(stmt: &Stmt, files: &[FileEntry], returning: &[Items<u32>]) -> Facts
    ensures { AreFacts (flow_facts_of files.now returning.now) stmt.now result }
{
    match stmt {
        Stmt::Arith { arms, .. } => both_facts(arms, false, files, returning),
        Stmt::Read { file, arms, .. } => {
            let is_dead = arms.first.is_none() && ends_at_end(files, *file);
            both_facts(arms, is_dead, files, returning)
        }
        Stmt::If { yes, no, .. } => {
            let met = stmts_facts(yes.as_slice(), files, returning);
            let unmet = else_facts(no.as_slice(), files, returning);
            beside(met, unmet)
        }
        Stmt::Evaluate { whens, other, .. } => {
            let branches = whens_facts(whens.as_slice(), files, returning);
            let other = match other {
                None => missing_arm(false, no_arms()),
                Some(stmts) => stmts_facts(stmts.as_slice(), files, returning),
            };
            beside(branches, other)
        }
        Stmt::Loop { control, body } => {
            let body = stmts_facts(body.as_slice(), files, returning);
            loop_facts(control, body)
        }
        Stmt::Perform {
            entry,
            exit,
            control,
        } => perform_facts(control, returns(returning, *entry, *exit)),
        Stmt::Go(_) => escaping(false),
        Stmt::GoDepending { .. } => escaping(true),
        Stmt::NextSentence => leaving_sentence(),
        Stmt::ExitParagraph => escaping(false),
        Stmt::ExitSection => escaping(false),
        Stmt::ExitPerform { .. } => leaving_loop(),
        Stmt::StopRun => performing(false),
        Stmt::Display { .. } => acting(),
        Stmt::Move { .. } => acting(),
        Stmt::SetTrue(_) => acting(),
        Stmt::Opens(_) => acting(),
        Stmt::Closes(_) => acting(),
        Stmt::Write { .. } => acting(),
        Stmt::Rewrite { .. } => acting(),
        Stmt::Exit => acting(),
        Stmt::Continue => acting(),
    }
}

#[cycle(facts)]
fn both_facts(arms: &Arms, is_dead: bool, files: &[FileEntry], returning: &[Items<u32>]) -> Facts
    ensures { AreFactsOfBoth (flow_facts_of files.now returning.now) is_dead arms.now result }
{
    let second = match &arms.second {
        None => missing_arm(false, no_arms()),
        Some(stmts) => stmts_facts(stmts.as_slice(), files, returning),
    };
    match &arms.first {
        None => missing_arm(is_dead, second),
        Some(stmts) => beside(stmts_facts(stmts.as_slice(), files, returning), second),
    }
}

/// The facts of statements, in order; what comes after one that can't complete isn't considered.
#[cycle(facts)]
pub fn stmts_facts(stmts: &[Stmt], files: &[FileEntry], returning: &[Items<u32>]) -> Facts
    ensures { AreFactsOfAll (flow_facts_of files.now returning.now) stmts.now result }
{
    let mut facts = acting();
    for stmt in stmts {
        facts = behind(facts, stmt_facts(stmt, files, returning));
        if !facts.completes {
            return facts;
        }
    }
    facts
}

/// The facts of the ELSE, which is missing where it is empty.
#[cycle(facts)]
fn else_facts(stmts: &[Stmt], files: &[FileEntry], returning: &[Items<u32>]) -> Facts
    ensures { AreFactsOfElse (flow_facts_of files.now returning.now) stmts.now result }
{
    if stmts.len() == 0 {
        return missing_arm(false, no_arms());
    }
    stmts_facts(stmts, files, returning)
}

#[cycle(facts)]
fn whens_facts(whens: &[When], files: &[FileEntry], returning: &[Items<u32>]) -> Facts
    ensures { AreFactsOfWhens (flow_facts_of files.now returning.now) whens.now result }
{
    let mut facts = no_arms();
    for when in whens {
        facts = beside(facts, stmts_facts(when.stmts.as_slice(), files, returning));
    }
    facts
}
