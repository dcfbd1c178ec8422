//! How often a PERFORM does what it holds or names.

use crate::cond::Cond;
use crate::place::{Operand, Place};
use cob_base::{Boxed, Copied, NoMemory};
use std::alloc::Global;

/// The control of a PERFORM.
#[derive(Debug)]
pub enum Control {
    /// Without TIMES, UNTIL or VARYING; an inline loop never has it.
    Once,
    Times(Operand),
    /// `after` says that the test comes after each turn.
    Until {
        after: bool,
        cond: Cond,
    },
    /// Boxed, so that other statements aren't as large.
    Varying {
        after: bool,
        item: Boxed<Place>,
        from: Boxed<Operand>,
        by: Boxed<Operand>,
        cond: Cond,
    },
}

impl Drop for Control {
    fn drop(self) {
        match self {
            Control::Once => {}
            Control::Times(_) => {}
            Control::Until { after: _, cond: _ } => {}
            Control::Varying {
                after: _,
                item: _,
                from: _,
                by: _,
                cond: _,
            } => {}
        }
    }
}

impl Copied for Control {
    fn copy(&self, alloc: Global) -> Result<Control, NoMemory> {
        match self {
            Control::Once => Ok(Control::Once),
            Control::Times(count) => Ok(Control::Times(count.copy(alloc)?)),
            Control::Until { after, cond } => Ok(Control::Until {
                after: *after,
                cond: cond.copy(alloc)?,
            }),
            Control::Varying {
                after,
                item,
                from,
                by,
                cond,
            } => Ok(Control::Varying {
                after: *after,
                item: item.copy(alloc)?,
                from: from.copy(alloc)?,
                by: by.copy(alloc)?,
                cond: cond.copy(alloc)?,
            }),
        }
    }
}
