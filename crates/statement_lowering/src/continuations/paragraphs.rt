//! The rests of paragraphs.

ghost use Rattle.std.specs.Prelude.{[], ◌∷◌, ◌++◌, ◌≡◌, ◌+◌, ◌-◌, ◌<◌, ◌≤◌, ◌^◌, drop, length, sum_by, IfOk, IsTrue, OnOk};
ghost use Rattle.cob_tree.specs.Places.{stmt_places};
ghost use Rattle.control_flow_theory.specs.language.Control.{section_last};
ghost use Rattle.control_flow_theory.specs.language.OwnItems.{sentences_own, NamesOwnItems};
ghost use Rattle.lowering_labels.specs.points.Layout.{IsLayout, paragraph_size};
ghost use Rattle.statement_lowering.specs.continuations.Paragraphs.{AddsBegin, AddsParagraph, AreRestsOf, AreStacked, EndsBefore, IsBegin, IsTop, TakesTop, inside, paragraph_end, sentence_sizes};

use crate::LoweringContext;
use crate::continuations::continuation::{Continuation, Successors};
use crate::continuations::statements::{begun, push_spot, push_stmts};
use cob_base::NoMemory;
use cob_tree::{Paragraph, Program, Sentence};
use lowering_labels::points::{JumpTarget, jump_target_of, section_last, stmts_size};
use program_facts::completion::stmts_facts;
use std::alloc::Global;

/// The continuation at the beginning of a sentence, and the place at which the tree goes on there.
#[derive(Clone, Copy)]
struct Begin {
    after: JumpTarget,
    behind: Option<u32>,
}

/// What comes after the last sentence: the paragraph's end.
fn paragraph_end() -> Begin
    ensures { result ≡ paragraph_end }
{
    Begin {
        after: JumpTarget::Return,
        behind: None,
    }
}

/// The beginning of a sentence at a place, by that of the next one.
fn begin_of(sentence: &Sentence, place: u32, next: &Begin, telling: &LoweringContext<'_>) -> Begin
    requires { place + sum_by stmt_places sentence.now.stmts < 2 ^ 32 }
    ensures { IsBegin telling.now.layout.now sentence.now.stmts place next.now result }
{
    let stmts = sentence.stmts.as_slice();
    Begin {
        after: jump_target_of(stmts, place, telling.layout, next.after),
        behind: begun(stmts, place, next.behind),
    }
}

/// Puts a beginning on top.
fn stack(begins: &mut Vec<Begin>, begin: &Begin) -> Result<(), NoMemory>
    ensures { OnOk result (begins.new.items ≡ begins.old.items ++ begin.now ∷ []) }
{
    let begin = Begin {
        after: begin.after,
        behind: begin.behind,
    };
    match begins.push(begin) {
        Ok(()) => Ok(()),
        Err(_) => Err(NoMemory),
    }
}

/// Adds the beginning of a sentence at a place; the one on top comes after it.
fn push_begin(
    begins: &mut Vec<Begin>,
    sentence: &Sentence,
    place: u32,
    telling: &LoweringContext<'_>,
) -> Result<(), NoMemory>
    requires { place + sum_by stmt_places sentence.now.stmts < 2 ^ 32 }
    ensures { OnOk result (AddsBegin telling.now.layout.now sentence.now.stmts place
        begins.old.items begins.new.items) }
{
    let next = top(begins);
    let begin = begin_of(sentence, place, &next, telling);
    stack(begins, &begin)?;
    Ok(())
}

/// The beginnings of sentences that end at this place, from the last to the first; before all of
/// these that of what comes after them.
fn begins_of(
    alloc: Global,
    sentences: &[Sentence],
    end: u32,
    telling: &LoweringContext<'_>,
) -> Result<Vec<Begin>, NoMemory>
    requires fits { sentence_sizes sentences.now ≤ end }
    ensures { IfOk result (λ begins. AreStacked telling.now.layout.now
        (end - sentence_sizes sentences.now) sentences.now begins.items) }
{
    let mut begins = Vec::new(alloc);
    let last = paragraph_end();
    stack(&mut begins, &last)?;
    let mut place = end;
    for number in 0..sentences.len() {
        let sentence = &sentences[sentences.len() - 1 - number];
        place -= stmts_size(sentence.stmts.as_slice()) as u32;
        push_begin(&mut begins, sentence, place, telling)?;
    }
    Ok(begins)
}

/// The beginning on top.
fn top(begins: &Vec<Begin>) -> Begin
    ensures { IsTop begins.now.items result }
{
    match begins.last() {
        None => paragraph_end(),
        Some(first) => *first,
    }
}

/// The beginning on top, which is taken off.
fn taken(begins: &mut Vec<Begin>) -> Begin
    ensures { TakesTop begins.old.items begins.new.items result }
{
    match begins.pop() {
        None => paragraph_end(),
        Some(first) => first,
    }
}

/// Where control goes on from the statements of a sentence, by the beginning of the next one. Where
/// the sentence holds a NEXT SENTENCE, its end ends the tree.
fn in_sentence(next: &Begin, leaves: bool, paragraph: u32, last: u32) -> Successors
    ensures { result ≡ inside next.now leaves paragraph last }
{
    Successors {
        after: next.after,
        behind: if leaves { None } else { next.behind },
        sentence: next.after,
        behind_loop: JumpTarget::Return,
        cycle: JumpTarget::Return,
        paragraph,
        last,
    }
}

/// Adds the rests of a paragraph, whose place is the next one.
fn push_paragraph<'a>(
    alloc: Global,
    spots: &mut Vec<Continuation<'a>>,
    paragraph: &'a Paragraph,
    end: u32,
    number: u32,
    last: u32,
    telling: &LoweringContext<'_>,
) -> Result<(), NoMemory>
    requires place { length spots.old.items + 1 + paragraph_size paragraph.now ≡ end }
    requires fits { end ≤ telling.now.layout.now.end }
    requires small { telling.now.layout.now.end < 2 ^ 31 }
    requires own { IsTrue (sentences_own paragraph.now.sentences) }
    ensures { OnOk result (AddsParagraph telling.now paragraph.now number last spots.old.items
        spots.new.items) }
{
    let sentences = paragraph.sentences.as_slice();
    let mut begins = begins_of(alloc, sentences, end, telling)?;
    let first = taken(&mut begins);
    let own = in_sentence(&first, false, number, last);
    push_spot(spots, &[], &own)?;
    for sentence in sentences {
        let next = taken(&mut begins);
        let stmts = sentence.stmts.as_slice();
        let facts = stmts_facts(stmts, telling.files, telling.returning);
        let onward = in_sentence(&next, facts.leaves_sentence, number, last);
        push_stmts(spots, stmts, telling.layout, &onward)?;
    }
    Ok(())
}

/// The last paragraph of the section of a paragraph, by that of the paragraph before it.
fn section_end(paragraphs: &[Paragraph], number: u32, last: u32) -> u32
    requires there { number < length paragraphs.now }
    requires small { length paragraphs.now < 2 ^ 31 }
    requires before { EndsBefore paragraphs.now number last }
    ensures { result ≡ section_last number (drop (number + 1) paragraphs.now) }
{
    if number > 0 && number <= last {
        return last;
    }
    section_last(number, &paragraphs[number as usize + 1..])
}

/// The rests at all places of a program.
pub fn continuations_of<'a>(
    alloc: Global,
    program: &'a Program,
    telling: &LoweringContext<'_>,
) -> Result<Vec<Continuation<'a>>, NoMemory>
    requires layout { IsLayout program.now telling.now.layout.now.places.items
        telling.now.layout.now.end }
    requires small { telling.now.layout.now.end < 2 ^ 31 }
    requires own { NamesOwnItems program.now }
    ensures { IfOk result (λ spots. AreRestsOf telling.now program.now spots.items) }
{
    let paragraphs = program.paragraphs.as_slice();
    let mut spots = Vec::new(alloc);
    let mut number = 0u32;
    let mut last = 0u32;
    for paragraph in paragraphs {
        last = section_end(paragraphs, number, last);
        let end = telling.layout.place_of(number + 1);
        push_paragraph(alloc, &mut spots, paragraph, end, number, last, telling)?;
        number += 1;
    }
    Ok(spots)
}
