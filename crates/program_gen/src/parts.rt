//! The parts of the paragraphs.

ghost use Rattle.std.specs.Prelude.{◌≡◌, ◌≤◌, ◌<◌, ◌∷◌, [], Some};
ghost use Rattle.cob_base.specs.Answers.{Makes};
ghost use Rattle.program_gen.specs.Generated.{counter, counter_entry, count_one, jump_below, whole, sentence, group_word, jumping, leaving};

use cob_base::{Items, NoMemory, Word};
use cob_tree::{
    Arms, Calc, Cond, Entry, Expr, Number, Operand, Paragraph, Picture, Place, Rel, Sentence, Sign,
    SpelledDigits, Stmt, Target, Usage,
};
use cob_words::numbered::{capital_word, numbered, numbered_text};
use std::alloc::Global;

/// A list of one item.
pub fn single<T: Drop>(alloc: Global, item: T) -> Result<Items<T>, NoMemory>
    ensures { Makes (item ∷ []) result }
{
    let mut items = Items::new(alloc);
    items.push(item)?;
    Ok(items)
}

/// A number as it is written.
fn whole(alloc: Global, n: u32) -> Result<Number, NoMemory>
    ensures { Makes (whole n) result }
{
    let digits = numbered_text(alloc, b"", n)?;
    Ok(Number {
        negative: false,
        digits: SpelledDigits::new(digits),
        scale: 0,
    })
}

/// The item C.
pub fn counter(alloc: Global) -> Place
    ensures { result ≡ counter }
{
    Place {
        item: 0,
        of: Items::new(alloc),
        subs: Items::new(alloc),
        window: None,
    }
}

/// `01 C PIC 9(6) VALUE 0.`
pub fn counter_entry(alloc: Global) -> Result<Entry, NoMemory>
    ensures { Makes counter_entry result }
{
    let zero = whole(alloc, 0)?;
    Ok(Entry {
        level: 1,
        name: Some(capital_word(b"C")),
        file: None,
        redefines: None,
        picture: Some(Picture::Number {
            signed: false,
            whole: 6,
            part: 0,
        }),
        sign: Sign::Within,
        usage: Usage::Display,
        occurs: None,
        value: Some(Operand::Number(zero)),
        ranges: Items::new(alloc),
    })
}

/// `ADD 1 TO C`
fn count_one(alloc: Global) -> Result<Stmt, NoMemory>
    ensures { Makes count_one result }
{
    let one = whole(alloc, 1)?;
    let parts = single(alloc, Operand::Number(one))?;
    let target = Target {
        place: counter(alloc),
        rounded: false,
    };
    let into = single(alloc, target)?;
    Ok(Stmt::Arith {
        calc: Calc::Add(parts),
        into,
        arms: Arms {
            first: None,
            second: None,
        },
    })
}

/// `IF C < bound GO TO` a paragraph
fn jump_below(alloc: Global, bound: u32, to: u32) -> Result<Stmt, NoMemory>
    ensures { Makes (jump_below bound to) result }
{
    let left = Expr::Leaf(Operand::Place(counter(alloc)));
    let bound = whole(alloc, bound)?;
    let right = Expr::Leaf(Operand::Number(bound));
    let yes = single(alloc, Stmt::Go(to))?;
    Ok(Stmt::If {
        cond: Cond::Relation(left, Rel::Less, right),
        yes,
        no: Items::new(alloc),
    })
}

/// A sentence of one statement.
pub fn sentence(alloc: Global, stmt: Stmt) -> Result<Sentence, NoMemory>
    ensures { Makes (sentence stmt) result }
{
    let stmts = single(alloc, stmt)?;
    Ok(Sentence { stmts })
}

/// The name of a paragraph of a group: `G-group-number`.
fn group_word(alloc: Global, group: u32, number: u32) -> Result<Word, NoMemory>
    requires { group ≤ 1249 }
    ensures { Makes (group_word group number) result }
{
    let mut stem = numbered_text(alloc, b"G-", group)?;
    stem.add(b"-")?;
    numbered(alloc, stem.as_slice(), number)
}

/// A paragraph that counts, and while the counter is low goes to what the number picks.
pub fn jumping(alloc: Global, group: u32, number: u32, x: u32) -> Result<Paragraph, NoMemory>
    requires low { 1 ≤ group }
    requires high { group ≤ 1249 }
    ensures { Makes (jumping group number x) result }
{
    let name = group_word(alloc, group, number)?;
    let mut sentences = single(alloc, sentence(alloc, count_one(alloc)?)?)?;
    let picked = 1 + (x / 65536) % 4;
    let jump = jump_below(alloc, 10 * group, 4 * group - 4 + picked)?;
    sentences.push(sentence(alloc, jump)?)?;
    Ok(Paragraph {
        name: Some(name),
        section: None,
        sentences,
    })
}

/// The last paragraph of a group.
pub fn leaving(alloc: Global, group: u32) -> Result<Paragraph, NoMemory>
    requires { group ≤ 1249 }
    ensures { Makes (leaving group) result }
{
    let name = group_word(alloc, group, 4)?;
    let sentences = single(alloc, sentence(alloc, Stmt::Exit)?)?;
    Ok(Paragraph {
        name: Some(name),
        section: None,
        sentences,
    })
}
