//! The terms of the largest condition or expression of a program, and the limit on the result.

ghost use Rattle.std.specs.Prelude.{◌≡◌, ◌-◌, ◌^◌, min, nat_lt, map};
ghost use Rattle.cob_tree.specs.Depth.{largest};
ghost use Rattle.cob_base.specs.Limit.{max_terms};
ghost use Rattle.program_facts.specs.term_counts.Program.{sentence_most, paragraph_most, file_most, terms_of, terms_passed, terms_limit};

use crate::term_counts::statement::{some_place_most, stmts_most};
use cob_base::limit::{MAX_TERMS, past};
use cob_base::{Limit, LimitKind};
use cob_tree::{FileEntry, Paragraph, Program, Sentence};

fn sentence_most(sentence: &Sentence) -> u32
    ensures { result ≡ min (sentence_most sentence.now) (2 ^ 32 - 1) }
{
    stmts_most(&sentence.stmts)
}

fn paragraph_most(paragraph: &Paragraph) -> u32
    ensures { result ≡ min (paragraph_most paragraph.now) (2 ^ 32 - 1) }
{
    let mut most = 0u32;
    for sentence in paragraph.sentences.as_slice() {
        most = most.max(sentence_most(sentence));
    }
    most
}

fn paragraphs_most(paragraphs: &[Paragraph]) -> u32
    ensures { result ≡ min (largest (map paragraph_most paragraphs.now)) (2 ^ 32 - 1) }
{
    let mut most = 0u32;
    for paragraph in paragraphs {
        most = most.max(paragraph_most(paragraph));
    }
    most
}

fn files_most(files: &[FileEntry]) -> u32
    ensures { result ≡ min (largest (map file_most files.now)) (2 ^ 32 - 1) }
{
    let mut most = 0u32;
    for file in files {
        most = most.max(some_place_most(&file.status));
    }
    most
}

/// How many terms the largest condition or expression has; at most the largest `u32`.
pub fn terms_of(program: &Program) -> u32
    ensures { result ≡ min (terms_of program.now) (2 ^ 32 - 1) }
{
    let first = paragraphs_most(program.paragraphs.as_slice());
    first.max(files_most(program.files.as_slice()))
}

/// Whether a condition or an expression of the program has more terms than the result may have.
pub fn passes_terms(program: &Program) -> bool
    ensures { result ≡ nat_lt max_terms (terms_of program.now) }
{
    terms_of(program) > MAX_TERMS
}

fn terms_passed() -> Limit
    ensures { result ≡ terms_passed }
{
    past(LimitKind::Terms, true, MAX_TERMS as u64 + 1)
}

/// The limit on terms of the result, where the program passes it.
pub fn terms_limit(program: &Program) -> Option<Limit>
    ensures { result ≡ terms_limit program.now }
{
    if passes_terms(program) {
        Some(terms_passed())
    } else {
        None
    }
}
