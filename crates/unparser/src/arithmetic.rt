//! Arithmetic statements as tokens.

ghost use Rattle.std.specs.Prelude.{◌≡◌, ◌++◌, ◌∷◌, [], true, OnOk};
ghost use Rattle.cobol_lex.specs.declared.token.TokenKind.TheVariants as kind;
ghost use Rattle.unparser.specs.Token.{is_reserved_shape};
ghost use Rattle.unparser.specs.Arithmetic.{target_tokens, targets_tokens, product_front, calc_front, calc_back, end_word};

use crate::token::Tokens;
use cob_base::NoMemory;
use cob_tree::{Calc, Program, Target};

impl Tokens {
    fn target(&mut self, program: &Program, target: &Target) -> Result<(), NoMemory>
        ensures { OnOk result (self.new ≡ self.old ++ target_tokens program.now target.now) }
    {
        self.place(program, &target.place)?;
        if target.rounded {
            self.word(b"ROUNDED")
        } else {
            Ok(())
        }
    }

    /// Adds targets, with ROUNDED where they have it.
    pub fn targets(&mut self, program: &Program, targets: &[Target]) -> Result<(), NoMemory>
        ensures { OnOk result (self.new ≡ self.old ++ targets_tokens program.now targets.now) }
    {
        for target in targets {
            self.target(program, target)?;
        }
        Ok(())
    }

    /// Adds what comes before the targets.
    pub fn calc_front(&mut self, program: &Program, calc: &Calc) -> Result<(), NoMemory>
        ensures { OnOk result (self.new ≡ self.old ++ calc_front program.now calc.now) }
    {
        match calc {
            Calc::Add(parts) => {
                self.word(b"ADD")?;
                self.operands(program, parts.as_slice())?;
                self.word(b"TO")
            }
            Calc::AddGiving(parts) => {
                self.word(b"ADD")?;
                self.operands(program, parts.as_slice())?;
                self.word(b"GIVING")
            }
            Calc::Subtract(parts) => {
                self.word(b"SUBTRACT")?;
                self.operands(program, parts.as_slice())?;
                self.word(b"FROM")
            }
            Calc::SubtractGiving(parts, from) => {
                self.word(b"SUBTRACT")?;
                self.operands(program, parts.as_slice())?;
                self.word(b"FROM")?;
                self.operand(program, from)?;
                self.word(b"GIVING")
            }
            _ => self.product_front(program, calc),
        }
    }

    fn product_front(&mut self, program: &Program, calc: &Calc) -> Result<(), NoMemory>
        ensures { OnOk result (self.new ≡ self.old ++ product_front program.now calc.now) }
    {
        match calc {
            Calc::Multiply(by) => {
                self.word(b"MULTIPLY")?;
                self.operand(program, by)?;
                self.word(b"BY")
            }
            Calc::MultiplyGiving(one, by) => {
                self.word(b"MULTIPLY")?;
                self.operand(program, one)?;
                self.word(b"BY")?;
                self.operand(program, by)?;
                self.word(b"GIVING")
            }
            Calc::Divide(by) => {
                self.word(b"DIVIDE")?;
                self.operand(program, by)?;
                self.word(b"INTO")
            }
            Calc::DivideGiving(by, into) => {
                self.word(b"DIVIDE")?;
                self.operand(program, by)?;
                self.word(b"INTO")?;
                self.operand(program, into)?;
                self.word(b"GIVING")
            }
            _ => self.word(b"COMPUTE"),
        }
    }

    /// Adds what comes after the targets: the expression of COMPUTE.
    pub fn calc_back(&mut self, program: &Program, calc: &Calc) -> Result<(), NoMemory>
        ensures { OnOk result (self.new ≡ self.old ++ calc_back program.now calc.now) }
    {
        match calc {
            Calc::Compute(expr) => {
                self.mark(b'=')?;
                self.expr(program, expr, false)
            }
            _ => Ok(()),
        }
    }

    /// Adds the word that ends an arithmetic statement.
    pub fn end_word(&mut self, calc: &Calc) -> Result<(), NoMemory>
        ensures { OnOk result (self.new ≡ self.old ++ kind.Word (end_word calc.now) ∷ []) }
    {
        self.word(end_text(calc))
    }
}

fn end_text(calc: &Calc) -> &'static [u8]
    ensures text { result.now ≡ end_word calc.now }
    ensures shape { is_reserved_shape result.now ≡ true }
{
    match calc {
        Calc::Add(_) => b"END-ADD",
        Calc::AddGiving(_) => b"END-ADD",
        Calc::Subtract(_) => b"END-SUBTRACT",
        Calc::SubtractGiving(_, _) => b"END-SUBTRACT",
        Calc::Multiply(_) => b"END-MULTIPLY",
        Calc::MultiplyGiving(_, _) => b"END-MULTIPLY",
        Calc::Divide(_) => b"END-DIVIDE",
        Calc::DivideGiving(_, _) => b"END-DIVIDE",
        Calc::Compute(_) => b"END-COMPUTE",
    }
}
