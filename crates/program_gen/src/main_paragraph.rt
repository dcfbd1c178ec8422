//! The first paragraph, which performs the groups.

ghost use Rattle.std.specs.Prelude.{◌≡◌, ◌≤◌};
ghost use Rattle.cob_base.specs.Answers.{Makes};
ghost use Rattle.program_gen.specs.Generated.{perform_group, performs_of, main_of};

use crate::parts::{counter, sentence, single};
use cob_base::{Items, NoMemory};
use cob_tree::{Control, Operand, Paragraph, Sentence, Stmt};
use cob_words::numbered::capital_word;
use std::alloc::Global;

/// `PERFORM G-group-1 THRU G-group-4`
fn perform_group(group: u32) -> Stmt
    requires low { 1 ≤ group }
    requires high { group ≤ 1249 }
    ensures { result ≡ perform_group group }
{
    Stmt::Perform {
        entry: 4 * group - 3,
        exit: 4 * group,
        control: Control::Once,
    }
}

/// A sentence for each group.
fn performs_of(alloc: Global, n: u32) -> Result<Items<Sentence>, NoMemory>
    requires { n ≤ 1249 }
    ensures { Makes (performs_of n 1) result }
{
    let mut sentences = Items::new(alloc);
    for group in 1..n + 1 {
        sentences.push(sentence(alloc, perform_group(group))?)?;
    }
    Ok(sentences)
}

/// The paragraph that performs each group, shows the counter and stops.
pub fn main_of(alloc: Global, n: u32) -> Result<Paragraph, NoMemory>
    requires { n ≤ 1249 }
    ensures { Makes (main_of n) result }
{
    let mut sentences = performs_of(alloc, n)?;
    let items = single(alloc, Operand::Place(counter(alloc)))?;
    let display = Stmt::Display {
        items,
        advance: true,
    };
    sentences.push(sentence(alloc, display)?)?;
    sentences.push(sentence(alloc, Stmt::StopRun)?)?;
    Ok(Paragraph {
        name: Some(capital_word(b"M")),
        section: None,
        sentences,
    })
}
