//! How often a PERFORM does what it holds or names, as tokens.

ghost use Rattle.std.specs.Prelude.{◌≡◌, ◌++◌, OnOk};
ghost use Rattle.unparser.specs.Control.{after_tokens, until_tokens, control_tokens};

use crate::token::Tokens;
use cob_base::NoMemory;
use cob_tree::{Cond, Control, Program};

impl Tokens {
    fn after(&mut self, after: bool) -> Result<(), NoMemory>
        ensures { OnOk result (self.new ≡ self.old ++ after_tokens after) }
    {
        if !after {
            return Ok(());
        }
        self.word(b"WITH")?;
        self.word(b"TEST")?;
        self.word(b"AFTER")
    }

    fn until(&mut self, program: &Program, cond: &Cond) -> Result<(), NoMemory>
        ensures { OnOk result (self.new ≡ self.old ++ until_tokens program.now cond.now) }
    {
        self.word(b"UNTIL")?;
        self.cond(program, cond, false)
    }

    /// Adds the control of a PERFORM.
    pub fn control(&mut self, program: &Program, control: &Control) -> Result<(), NoMemory>
        ensures { OnOk result (self.new ≡ self.old ++ control_tokens program.now control.now) }
    {
        match control {
            Control::Once => Ok(()),
            Control::Times(count) => {
                self.operand(program, count)?;
                self.word(b"TIMES")
            }
            Control::Until { after, cond } => {
                self.after(*after)?;
                self.until(program, cond)
            }
            Control::Varying {
                after,
                item,
                from,
                by,
                cond,
            } => {
                self.after(*after)?;
                self.word(b"VARYING")?;
                self.place(program, item.get())?;
                self.word(b"FROM")?;
                self.operand(program, from.get())?;
                self.word(b"BY")?;
                self.operand(program, by.get())?;
                self.until(program, cond)
            }
        }
    }
}
