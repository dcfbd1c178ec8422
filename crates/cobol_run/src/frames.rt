//! The stack of frames of a run.

ghost use Rattle.std.specs.Prelude.{◌≡◌, ℕ, ◌∷◌, [], List, IfOk, IsTrue, drop, false};
ghost use Rattle.cobol_run.specs.declared.frame.Frame.{Frame};
ghost use Rattle.cob_tree.specs.declared.program.Program.{Program};
ghost use Rattle.control_flow_theory.specs.language.Items.{before, before_body, ends_at, from_loop, past_sentence, Do, Turn};
ghost use Rattle.control_flow_theory.specs.language.Language.{Perform};
ghost use Rattle.std.specs.List.{list_any};
ghost use Rattle.cobol_run.specs.Frames.{TakesReturn, body_seen, ends_here, first_before, heads, last_of, pending_of, rest_of, sentences_before, turning_seen};
ghost use Rattle.control_flow_theory.specs.language.Control.{seen_stmts};

use crate::frame::{Body, Frame, LoopProgress};
use cob_base::NoMemory;
use cob_store::Stack;
use cob_tree::{Sentence, Stmt};
use std::alloc::Global;
use std::marker::Model;

/// What is done first: statements, and then the end of their sentence with the sentences after it,
/// where that isn't among other frames.
#[derive(Clone, Copy)]
pub struct First<'a> {
    pub stmts: &'a [Stmt],
    pub sentences: Option<&'a [Sentence]>,
}

/// What is still to do, the returns that are pending among it. Contracts see frames, of which the
/// first has statements.
#[derive(Drop)]
pub struct Frames<'a> {
    // It is kept beside the stack, so that no frame is moved from a statement or a sentence to the
    // next one.
    first: First<'a>,
    below: Stack<Frame<'a>>,
}

impl<'a> Model for Frames<'a> {
    ghost use Rattle.std.specs.Prelude.{List};
    ghost use Rattle.std.specs.Coded.{codes};
    ghost use Rattle.cob_tree.specs.contracts.stmt.Stmt as stmt;
    ghost use Rattle.cob_tree.specs.contracts.cond.Cond as cond;
    ghost use Rattle.cob_tree.specs.contracts.place.Operand as operand;
    ghost use Rattle.cob_tree.specs.contracts.place.Place as place;
    ghost use Rattle.cobol_run.specs.declared.frame.Frame.{Frame};
    ghost use Rattle.cobol_run.specs.Frames.{first_before};

    ghost Value = { List Frame };

    ghost coded = { Prim.hlevel (
      codes,
      stmt.the_row.coded,
      cond.the_row.coded,
      operand.the_row.coded,
      place.the_row.coded,
    ) };

    ghost view = { λ f. first_before f.first f.below };
}

/// What is to be done next.
#[derive(Clone, Copy)]
pub enum Head<'a> {
    Nothing,
    Stmt(&'a Stmt),
    Enter { entry: u32, exit: u32 },
    SentenceEnd,
    Turn(LoopProgress<'a>, Body<'a>),
}

/// A return that is pending: the paragraph at whose end it is made, and the one in which it goes
/// on.
#[derive(Clone, Copy)]
pub struct Return {
    pub end: u32,
    pub paragraph: u32,
}

// Nothing.
fn nothing<'a>() -> First<'a>
    ensures { (last : ℕ) (below : List Frame) → rest_of last (first_before result below)
        ≡ rest_of last below }
{
    First {
        stmts: &[],
        sentences: None,
    }
}

// The statements of the first sentence, and the others.
fn begin<'a>(sentences: &'a [Sentence]) -> First<'a>
    ensures rest { (last : ℕ) (below : List Frame) → rest_of last (first_before result below)
        ≡ sentences_before last sentences.now (rest_of last below) }
{
    match sentences.split_first() {
        None => nothing(),
        Some((first, others)) => First {
            stmts: first.stmts.as_slice(),
            sentences: Some(others),
        },
    }
}

// Whether a return is the first frame.
fn returns_first(below: &Stack<Frame>) -> bool
    ensures rest { IsTrue result → (last : ℕ) → rest_of last below.now ≡ [] }
    ensures pending { result ≡ false → (program : Program) → pending_of program (drop 1 below.now)
        ≡ pending_of program below.now }
{
    match below.top() {
        None => false,
        Some(Frame::Return { .. }) => true,
        Some(Frame::Stmts(_)) => false,
        Some(Frame::Enter { .. }) => false,
        Some(Frame::Sentences(_)) => false,
        Some(Frame::Turn(_, _)) => false,
    }
}

// Leaves the frames above the last return.
fn leave_frames(below: &mut Stack<Frame>)
    ensures rest { (last : ℕ) → rest_of last below.new ≡ [] }
    ensures pending { (program : Program) → pending_of program below.new
        ≡ pending_of program below.old }
{
    while !returns_first(below) {
        if below.pop().is_none() {
            return;
        }
    }
}

// Leaves the frames up to the end of the sentence: gives the sentences after it.
#[tactic(auto, using(crate::proofs::FrameLemmas::past_before))]
fn leave_stmts<'a>(below: &mut Stack<Frame<'a>>) -> Result<&'a [Sentence], NoMemory>
    ensures rest { IfOk result (λ sentences. (last : ℕ) → sentences_before last sentences.now
        (rest_of last below.new) ≡ past_sentence (rest_of last below.old)) }
    ensures pending { IfOk result (λ sentences. (program : Program) → pending_of program below.new
        ≡ pending_of program below.old) }
{
    while let Some(frame) = below.pop() {
        match frame {
            Frame::Sentences(sentences) => return Ok(sentences),
            Frame::Return { end, paragraph } => {
                below.push(Frame::Return { end, paragraph })?;
                return Ok(&[]);
            }
            Frame::Stmts(_) => {}
            Frame::Enter { .. } => {}
            Frame::Turn(_, _) => {}
        }
    }
    Ok(&[])
}

// Leaves the frames up to the innermost loop, or with `cycle` up to what is left of it.
#[tactic(auto, using(crate::proofs::FrameLemmas::loop_before, crate::proofs::FrameLemmas::loop_sentences))]
fn leave_turns<'a>(below: &mut Stack<Frame<'a>>, cycle: bool) -> Result<(), NoMemory>
    ensures rest { IfOk result (λ u. (last : ℕ) → rest_of last below.new
        ≡ from_loop cycle (rest_of last below.old)) }
    ensures pending { IfOk result (λ u. (program : Program) → pending_of program below.new
        ≡ pending_of program below.old) }
{
    while let Some(frame) = below.pop() {
        match frame {
            Frame::Turn(turning, body) => {
                if cycle {
                    below.push(Frame::Turn(turning, body))?;
                }
                return Ok(());
            }
            Frame::Return { end, paragraph } => {
                below.push(Frame::Return { end, paragraph })?;
                return Ok(());
            }
            Frame::Stmts(_) => {}
            Frame::Enter { .. } => {}
            Frame::Sentences(_) => {}
        }
    }
    Ok(())
}

fn ends_here(frame: &Frame, end: u32) -> bool
    ensures { result ≡ ends_here end frame.now }
{
    match frame {
        Frame::Return { end: at, .. } => *at == end,
        Frame::Stmts(_) => false,
        Frame::Enter { .. } => false,
        Frame::Sentences(_) => false,
        Frame::Turn(_, _) => false,
    }
}

fn some_ends(frames: &[Frame], end: u32) -> bool
    ensures { result ≡ list_any (ends_here end) frames.now }
{
    for frame in frames {
        if ends_here(frame, end) {
            return true;
        }
    }
    false
}

// Takes off the last return, and the frames above it.
fn pop_return(below: &mut Stack<Frame>) -> Option<Return>
    ensures { (program : Program) → TakesReturn program result below.old below.new }
{
    while let Some(frame) = below.pop() {
        if let Frame::Return { end, paragraph } = frame {
            return Some(Return { end, paragraph });
        }
    }
    None
}

// Keeps what is done first, so that something else can be done before it.
fn keep<'a>(below: &mut Stack<Frame<'a>>, first: First<'a>) -> Result<(), NoMemory>
    ensures rest { IfOk result (λ u. (last : ℕ) → rest_of last below.new
        ≡ rest_of last (first_before first.entry below.old)) }
    ensures pending { IfOk result (λ u. (program : Program) → pending_of program below.new
        ≡ pending_of program below.old) }
{
    if let Some(sentences) = first.sentences {
        below.push(Frame::Sentences(sentences))?;
    }
    if !first.stmts.is_empty() {
        below.push(Frame::Stmts(first.stmts))?;
    }
    Ok(())
}

impl<'a> Frames<'a> {
    /// Nothing to do.
    pub fn new(alloc: Global) -> Frames<'a>
        ensures rest { (last : ℕ) → rest_of last result ≡ [] }
        ensures pending { (program : Program) → pending_of program result ≡ [] }
    {
        Frames {
            first: nothing(),
            below: Stack::new(alloc),
        }
    }
}

/// Adds sentences, to be done first.
pub fn push_sentences<'a>(
    frames: &mut Frames<'a>,
    sentences: &'a [Sentence],
) -> Result<(), NoMemory>
    ensures rest { IfOk result (λ u. (last : ℕ) → rest_of last frames.new
        ≡ sentences_before last sentences.now (rest_of last frames.old)) }
    ensures pending { IfOk result (λ u. (program : Program) → pending_of program frames.new
        ≡ pending_of program frames.old) }
{
    keep(&mut frames.below, frames.first)?;
    frames.first = begin(sentences);
    Ok(())
}

// Takes off the frames what is to be done next, and gives what is done first after it.
fn pop_head<'a>(below: &mut Stack<Frame<'a>>) -> Result<(Head<'a>, First<'a>), NoMemory>
    ensures rest { IfOk result (λ found. (last : ℕ) → rest_of last below.old
        ≡ heads last found.0 (rest_of last (first_before found.1 below.new))) }
    ensures pending { IfOk result (λ found. (program : Program) → pending_of program below.new
        ≡ pending_of program below.old) }
{
    while let Some(frame) = below.pop() {
        match frame {
            Frame::Stmts(stmts) => {
                if let Some((first, others)) = stmts.split_first() {
                    let left = First {
                        stmts: others,
                        sentences: None,
                    };
                    return Ok((Head::Stmt(first), left));
                }
            }
            Frame::Enter { entry, exit } => return Ok((Head::Enter { entry, exit }, nothing())),
            Frame::Sentences(sentences) => return Ok((Head::SentenceEnd, begin(sentences))),
            Frame::Turn(turning, body) => return Ok((Head::Turn(turning, body), nothing())),
            Frame::Return { end, paragraph } => {
                below.push(Frame::Return { end, paragraph })?;
                return Ok((Head::Nothing, nothing()));
            }
        }
    }
    Ok((Head::Nothing, nothing()))
}

/// Takes off what is to be done next.
pub fn next<'a>(frames: &mut Frames<'a>) -> Result<Head<'a>, NoMemory>
    ensures rest { IfOk result (λ head. (last : ℕ) → rest_of last frames.old
        ≡ heads last head (rest_of last frames.new)) }
    ensures pending { IfOk result (λ head. (program : Program) → pending_of program frames.new
        ≡ pending_of program frames.old) }
{
    if let Some((first, others)) = frames.first.stmts.split_first() {
        frames.first.stmts = others;
        return Ok(Head::Stmt(first));
    }
    if let Some(sentences) = frames.first.sentences {
        frames.first = begin(sentences);
        return Ok(Head::SentenceEnd);
    }
    if returns_first(&frames.below) {
        return Ok(Head::Nothing);
    }
    let (head, first) = pop_head(&mut frames.below)?;
    frames.first = first;
    Ok(head)
}

/// Adds statements, to be done first.
pub fn push_stmts<'a>(frames: &mut Frames<'a>, stmts: &'a [Stmt]) -> Result<(), NoMemory>
    ensures rest { IfOk result (λ u. (last : ℕ) → rest_of last frames.new
        ≡ before (seen_stmts last stmts.now) (rest_of last frames.old)) }
    ensures pending { IfOk result (λ u. (program : Program) → pending_of program frames.new
        ≡ pending_of program frames.old) }
{
    if frames.first.stmts.is_empty() {
        frames.first.stmts = stmts;
    } else if !stmts.is_empty() {
        keep(&mut frames.below, frames.first)?;
        frames.first = First {
            stmts,
            sentences: None,
        };
    }
    Ok(())
}

/// Adds what is left of a loop, to be done first.
pub fn push_turn<'a>(
    frames: &mut Frames<'a>,
    turning: LoopProgress<'a>,
    body: Body<'a>,
) -> Result<(), NoMemory>
    ensures rest { IfOk result (λ u. (last : ℕ) → rest_of last frames.new
        ≡ Turn (turning_seen turning.entry) (body_seen last body.entry) ∷ rest_of last frames.old) }
    ensures pending { IfOk result (λ u. (program : Program) → pending_of program frames.new
        ≡ pending_of program frames.old) }
{
    keep(&mut frames.below, frames.first)?;
    frames.below.push(Frame::Turn(turning, body))?;
    frames.first = nothing();
    Ok(())
}

fn push_range(frames: &mut Frames, entry: u32, exit: u32) -> Result<(), NoMemory>
    ensures rest { IfOk result (λ u. (last : ℕ) → rest_of last frames.new
        ≡ Do (Perform entry exit) ∷ rest_of last frames.old) }
    ensures pending { IfOk result (λ u. (program : Program) → pending_of program frames.new
        ≡ pending_of program frames.old) }
{
    keep(&mut frames.below, frames.first)?;
    frames.below.push(Frame::Enter { entry, exit })?;
    frames.first = nothing();
    Ok(())
}

/// Adds a loop's body, to be done first.
pub fn push_body<'a>(frames: &mut Frames<'a>, body: Body<'a>) -> Result<(), NoMemory>
    ensures rest { IfOk result (λ u. (last : ℕ) → rest_of last frames.new
        ≡ before_body (body_seen last body.entry) (rest_of last frames.old)) }
    ensures pending { IfOk result (λ u. (program : Program) → pending_of program frames.new
        ≡ pending_of program frames.old) }
{
    match body {
        Body::Nested(stmts) => push_stmts(frames, stmts),
        Body::Performed { entry, exit } => push_range(frames, entry, exit),
    }
}

/// Adds a loop's body, to be done first, and after it what is left of the loop.
pub fn turn_on<'a>(
    frames: &mut Frames<'a>,
    turning: LoopProgress<'a>,
    body: Body<'a>,
) -> Result<(), NoMemory>
    ensures rest { IfOk result (λ u. (last : ℕ) → rest_of last frames.new
        ≡ before_body (body_seen last body.entry)
        (Turn (turning_seen turning.entry) (body_seen last body.entry) ∷ rest_of last frames.old)) }
    ensures pending { IfOk result (λ u. (program : Program) → pending_of program frames.new
        ≡ pending_of program frames.old) }
{
    push_turn(frames, turning, body)?;
    push_body(frames, body)
}

/// Leaves the paragraph: nothing of it is left to do.
pub fn leave(frames: &mut Frames)
    ensures rest { (last : ℕ) → rest_of last frames.new ≡ [] }
    ensures pending { (program : Program) → pending_of program frames.new
        ≡ pending_of program frames.old }
{
    frames.first = nothing();
    leave_frames(&mut frames.below);
}

/// Leaves what is to be done up to the end of the sentence.
#[tactic(auto, using(crate::proofs::FrameLemmas::past_before))]
pub fn leave_sentence(frames: &mut Frames) -> Result<(), NoMemory>
    ensures rest { IfOk result (λ u. (last : ℕ) → rest_of last frames.new
        ≡ past_sentence (rest_of last frames.old)) }
    ensures pending { IfOk result (λ u. (program : Program) → pending_of program frames.new
        ≡ pending_of program frames.old) }
{
    if let Some(sentences) = frames.first.sentences {
        frames.first = begin(sentences);
        return Ok(());
    }
    let sentences = leave_stmts(&mut frames.below)?;
    frames.first = begin(sentences);
    Ok(())
}

/// Leaves what is to be done up to the innermost loop, or with `cycle` up to what is left of it.
#[tactic(auto, using(crate::proofs::FrameLemmas::loop_before, crate::proofs::FrameLemmas::loop_sentences))]
pub fn leave_loop(frames: &mut Frames, cycle: bool) -> Result<(), NoMemory>
    ensures rest { IfOk result (λ u. (last : ℕ) → rest_of last frames.new
        ≡ from_loop cycle (rest_of last frames.old)) }
    ensures pending { IfOk result (λ u. (program : Program) → pending_of program frames.new
        ≡ pending_of program frames.old) }
{
    frames.first = nothing();
    leave_turns(&mut frames.below, cycle)
}

/// Whether a return is pending at the end of a paragraph.
#[tactic(auto, using(crate::proofs::FrameLemmas::ends_reverse))]
pub fn is_pending(frames: &Frames, end: u32) -> bool
    ensures { (program : Program) → result ≡ ends_at end (pending_of program frames.now) }
{
    some_ends(frames.below.as_slice(), end)
}

/// Adds a return, which is pending then; nothing is to be done before it.
pub fn push_return(frames: &mut Frames, top: Return) -> Result<(), NoMemory>
    ensures rest { IfOk result (λ u. (last : ℕ) → rest_of last frames.new ≡ []) }
    ensures pending { IfOk result (λ u. (program : Program) → pending_of program frames.new
        ≡ record {
          end = top.end;
          paragraph = top.paragraph;
          rest = rest_of (last_of program top.paragraph) frames.old;
        } ∷ pending_of program frames.old) }
{
    keep(&mut frames.below, frames.first)?;
    frames.below.push(Frame::Return {
        end: top.end,
        paragraph: top.paragraph,
    })?;
    frames.first = nothing();
    Ok(())
}

/// Takes off the last pending return, and what was to be done before it; none where no return is
/// pending.
pub fn take_return(frames: &mut Frames) -> Option<Return>
    ensures { (program : Program) → TakesReturn program result frames.old frames.new }
{
    frames.first = nothing();
    pop_return(&mut frames.below)
}
