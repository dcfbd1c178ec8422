//! From the start of one paragraph to the start of the next.

ghost use Rattle.std.specs.Prelude.{ℕ, [], suc, map, ◌≡◌, ◌≤◌, ◌<◌, length, drop};
ghost use Rattle.control_flow_theory.specs.language.Control.{control_of, section_last, seen_sentence};
ghost use Rattle.program_points.specs.paths.Step.{at, start};
ghost use Rattle.program_points.specs.paths.Accepted.{walk};
ghost use Rattle.overlap_trail.specs.Follow.{known_of, Known, sought_of};
ghost use Rattle.overlap_trail.specs.Checking.{aim_of, FollowsSentences, IsLeg, IsOnFrom, IsCallLeg, IsTakenOut};

use crate::follow::Followed;
use crate::judge::{LegContext, ends_at, meets_call, meets_end};
use crate::through::follow_stmts;
use cob_tree::{FileEntry, Paragraph, Program, Sentence};
use program_points::paths::{Lemma, Move};

/// The outcome of following moves through a paragraph, with the number of moves taken.
#[derive(Debug, Clone, Copy)]
pub enum ParagraphOutcome {
    /// The paragraph's end.
    ToEnd(usize),
    /// The end of the section's last paragraph.
    ToSectionEnd(usize),
    /// The start of a paragraph.
    ToStart(u32, usize),
    /// A PERFORM, and no move steps over it.
    Met { entry: u32, exit: u32, taken: usize },
    /// The moves don't lead on.
    Lost,
}

/// The outcome of following moves to the start of the next paragraph.
#[derive(Debug, Clone, Copy)]
pub enum ParagraphStep {
    /// The goal.
    There,
    /// The moves don't lead to the goal.
    Nowhere,
    /// The start of a paragraph, with this many moves taken.
    On { paragraph: usize, taken: usize },
}

/// The last paragraph of the section of this one.
pub fn section_last(paragraphs: &[Paragraph], number: usize) -> usize
    requires { number < length paragraphs.now }
    ensures { result ≡ section_last number (drop (suc number) paragraphs.now) }
{
    let mut last = number;
    for next in number + 1..paragraphs.len() {
        if paragraphs[next].section.is_some() {
            return last;
        }
        last = next;
    }
    last
}

/// Follows moves through the sentences of a paragraph.
pub fn follow_sentences(
    files: &[FileEntry],
    lemmas: &[Lemma],
    moves: &[Move],
    taken: usize,
    sentences: &[Sentence],
) -> ParagraphOutcome
    requires { taken ≤ length moves.now }
    ensures follows { (last : ℕ) →
        FollowsSentences (known_of files.now lemmas.now) moves.now last taken
        (map (seen_sentence last) sentences.now) result }
    ensures taken { IsTakenOut taken (length moves.now) result }
{
    let mut now = taken;
    for sentence in sentences {
        match follow_stmts(files, lemmas, moves, now, &sentence.stmts) {
            Followed::Through(behind) => now = behind,
            Followed::Left(behind) => now = behind,
            Followed::To(to, behind) => return ParagraphOutcome::ToStart(to, behind),
            Followed::Ended(behind) => return ParagraphOutcome::ToEnd(behind),
            Followed::Broken(behind) => return ParagraphOutcome::ToEnd(behind),
            Followed::Cycled(behind) => return ParagraphOutcome::ToEnd(behind),
            Followed::SectionEnded(behind) => return ParagraphOutcome::ToSectionEnd(behind),
            Followed::Met {
                entry,
                exit,
                taken: behind,
            } => {
                return ParagraphOutcome::Met {
                    entry,
                    exit,
                    taken: behind,
                };
            }
            Followed::Lost => return ParagraphOutcome::Lost,
        }
    }
    ParagraphOutcome::ToEnd(now)
}

/// The outcome at the end of a paragraph.
pub fn end_leg(
    program: &Program,
    context: LegContext<'_>,
    paragraph: usize,
    taken: usize,
) -> ParagraphStep
    requires { taken ≤ length context.moves.now }
    ensures leg { (known : Known) → IsLeg known
        (sought_of (control_of program.now) context.entry.range
        (aim_of context.entry.goal context.entry.hops.now)) context.entry.moves.now
        (walk (at paragraph []) (drop taken context.entry.moves.now)) taken result }
    ensures within { IsOnFrom paragraph (length program.now.paragraphs) result }
{
    if meets_end(context, paragraph, taken) {
        return ParagraphStep::There;
    }
    if ends_at(context.range.exit, paragraph) {
        return ParagraphStep::Nowhere;
    }
    let behind = program.paragraphs.len().saturating_sub(paragraph);
    if behind > 1 {
        ParagraphStep::On {
            paragraph: paragraph + 1,
            taken,
        }
    } else {
        ParagraphStep::Nowhere
    }
}

/// The outcome at a PERFORM that no move steps over.
pub fn call_leg(context: LegContext<'_>, entry: u32, exit: u32, taken: usize) -> ParagraphStep
    requires { taken ≤ length context.moves.now }
    ensures leg { IsCallLeg context.entry.range
        (aim_of context.entry.goal context.entry.hops.now) context.entry.moves.now entry exit taken
        result }
    ensures within { (paragraph count : ℕ) → IsOnFrom paragraph count result }
{
    if meets_call(context, entry, exit, taken) {
        ParagraphStep::There
    } else {
        ParagraphStep::Nowhere
    }
}

/// Follows moves through a paragraph, from its start.
pub fn one_leg(
    program: &Program,
    lemmas: &[Lemma],
    context: LegContext<'_>,
    paragraph: usize,
    taken: usize,
) -> ParagraphStep
    requires { taken ≤ length context.moves.now }
    ensures leg { IsLeg (known_of program.now.files lemmas.now)
        (sought_of (control_of program.now) context.entry.range
        (aim_of context.entry.goal context.entry.hops.now)) context.entry.moves.now
        (walk (start (control_of program.now) paragraph) (drop taken context.entry.moves.now))
        taken result }
    ensures within { IsOnFrom paragraph (length program.now.paragraphs) result }
{
    let files = program.files.as_slice();
    let paragraphs = program.paragraphs.as_slice();
    if paragraph >= paragraphs.len() {
        return end_leg(program, context, paragraph, taken);
    }
    let sentences = paragraphs[paragraph].sentences.as_slice();
    match follow_sentences(files, lemmas, context.moves, taken, sentences) {
        ParagraphOutcome::ToEnd(now) => end_leg(program, context, paragraph, now),
        ParagraphOutcome::ToSectionEnd(now) => {
            let last = section_last(paragraphs, paragraph);
            end_leg(program, context, last, now)
        }
        ParagraphOutcome::ToStart(to, now) => ParagraphStep::On {
            paragraph: to as usize,
            taken: now,
        },
        ParagraphOutcome::Met {
            entry,
            exit,
            taken: now,
        } => call_leg(context, entry, exit, now),
        ParagraphOutcome::Lost => ParagraphStep::Nowhere,
    }
}
