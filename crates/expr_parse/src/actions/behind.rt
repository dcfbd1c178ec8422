//! What comes after the words of a reference.

ghost use Rattle.std.specs.Prelude.{Some};
ghost use Rattle.cob_base.specs.Answers.{Makes};
ghost use Rattle.cobol_grammar.specs.declared.expr_forms.reference.Suffix.TheVariants as suffixes;

use crate::actions::drops::drop_subs;
use cob_base::{Boxed, Items, NoMemory};
use cob_tree::{Sub, Window};
use cobol_grammar::expr_forms::{RefSuffixes, Suffix};
use std::alloc::Global;

/// A window alone.
pub fn window_suffix(alloc: Global, window: Window) -> Result<Suffix, NoMemory>
    ensures { Makes (suffixes.Window window) result }
{
    Ok(Suffix::Window(Boxed::new(alloc, window)?))
}

/// Subscripts and a window.
pub fn both_behind(
    alloc: Global,
    subs: Items<Sub>,
    window: Window,
    count: u32,
) -> Result<RefSuffixes, NoMemory>
    ensures { Makes (record { subs = subs; window = Some window; count = count }) result }
{
    match Boxed::new(alloc, window) {
        Ok(window) => Ok(RefSuffixes {
            subs,
            window: Some(window),
            count,
        }),
        Err(fault) => {
            drop_subs(subs);
            Err(fault)
        }
    }
}
