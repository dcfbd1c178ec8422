//! What EVALUATE compares, as tokens.

ghost use Rattle.std.specs.Prelude.{◌≡◌, ◌++◌, OnOk};
ghost use Rattle.unparser.specs.Choice.{subject_tokens, thru_tokens, test_tokens};

use crate::token::Tokens;
use cob_base::NoMemory;
use cob_tree::{Expr, Program, Subject, Test};

impl Tokens {
    /// Adds the subject of EVALUATE.
    pub fn subject(&mut self, program: &Program, subject: &Subject) -> Result<(), NoMemory>
        ensures { OnOk result (self.new ≡ self.old ++ subject_tokens program.now subject.now) }
    {
        match subject {
            Subject::True => self.word(b"TRUE"),
            Subject::False => self.word(b"FALSE"),
            Subject::Value(expr) => self.expr(program, expr, false),
        }
    }

    fn thru(&mut self, program: &Program, to: &Option<Expr>) -> Result<(), NoMemory>
        ensures { OnOk result (self.new ≡ self.old ++ thru_tokens program.now to.now) }
    {
        match to {
            None => Ok(()),
            Some(to) => {
                self.word(b"THRU")?;
                self.expr(program, to, false)
            }
        }
    }

    /// Adds a test of WHEN.
    pub fn test(&mut self, program: &Program, test: &Test) -> Result<(), NoMemory>
        ensures { OnOk result (self.new ≡ self.old ++ test_tokens program.now test.now) }
    {
        match test {
            Test::Any => self.word(b"ANY"),
            Test::Holds(cond) => self.cond(program, cond, false),
            Test::Value { not, from, to } => {
                self.not(*not)?;
                self.expr(program, from, false)?;
                self.thru(program, to)
            }
        }
    }
}
