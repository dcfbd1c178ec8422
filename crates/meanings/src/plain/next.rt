//! What a plain program does next.

ghost use Rattle.std.specs.Prelude.{◌≡◌, IfOk};
ghost use Rattle.meanings.specs.plain.Stepped.{next_of, next_stmt};
ghost use Rattle.meanings.specs.plain.Language.{seen_stmt};
ghost use Rattle.meanings.specs.plain.World.{displayed};

use crate::plain::state::Item;
use cob_base::{Items, NoMemory, Text};
use cob_tree::{Control, Operand, Stmt};
use std::alloc::Global;

/// What the head of a rest comes to.
#[derive(Debug, Drop)]
pub enum Next {
    /// Nothing is left in the paragraph.
    Ends,
    /// The head is dropped.
    Drops,
    Shows(Text),
    Goes(u32),
    Performs(u32, u32),
    Stops,
}

/// What the head of this rest comes to.
pub fn next_of(alloc: Global, rest: &[Item]) -> Result<Next, NoMemory>
    ensures { IfOk result (λ next. next ≡ next_of rest.now) }
{
    match rest {
        [] => Ok(Next::Ends),
        [first, ..] => match first {
            Item::Stmt(stmt) => next_stmt(alloc, stmt),
            Item::SentenceEnd => Ok(Next::Drops),
        },
    }
}

fn next_stmt(alloc: Global, stmt: &Stmt) -> Result<Next, NoMemory>
    ensures { IfOk result (λ next. next ≡ next_stmt (seen_stmt stmt.now)) }
{
    match stmt {
        Stmt::Display { items, advance } => Ok(Next::Shows(displayed(alloc, items, *advance)?)),
        Stmt::Go(to) => Ok(Next::Goes(*to)),
        Stmt::Perform {
            entry,
            exit,
            control,
        } => match control {
            Control::Once => Ok(Next::Performs(*entry, *exit)),
            Control::Times(_) => Ok(Next::Drops),
            Control::Until { .. } => Ok(Next::Drops),
            Control::Varying { .. } => Ok(Next::Drops),
        },
        Stmt::StopRun => Ok(Next::Stops),
        _ => Ok(Next::Drops),
    }
}

fn displayed(alloc: Global, items: &Items<Operand>, advance: bool) -> Result<Text, NoMemory>
    ensures { IfOk result (λ bytes. bytes ≡ displayed items.now advance) }
{
    let mut bytes = Text::new(alloc);
    for operand in items.as_slice() {
        match operand {
            Operand::Text(text) => bytes.add(text.as_slice())?,
            _ => {}
        }
    }
    if advance {
        bytes.add(b"\n")?;
    }
    Ok(bytes)
}
