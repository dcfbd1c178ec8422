//! Statements as units: a line for each, and the lines of what it holds.

ghost use Rattle.std.specs.Prelude.{◌≡◌, ◌++◌, ◌∷◌, [], false, true, map, Some, OnOk, codes};
ghost use Rattle.cob_tree.specs.declared.stmt.Stmt.{out-Stmt};
ghost use Rattle.cobol_lex.specs.declared.token.TokenKind.TheVariants as kind;
ghost use Rattle.unparser.specs.Arithmetic.{end_word};
ghost use Rattle.unparser.specs.Condition.{not_tokens};
ghost use Rattle.unparser.specs.Head.{head_step};
ghost use Rattle.cobol_print.specs.units.Unit.{unit_at, deeper};
ghost use Rattle.cobol_print.specs.units.Statement.{phrase_tokens, other_tokens, has_arms, when_unit, tests_lines, end_lines, stmt_lines, list_lines, held_by_else, held_by_loop, held_by_other, arm_lines, arms_lines, when_lines, whens_lines};

use crate::units::unit::{Units, deeper};
use cob_base::{Items, NoMemory};
use cob_tree::{Arms, Calc, Program, Stmt, Test, When};

/// The phrase of an arm.
#[derive(Clone, Copy, Debug)]
pub enum ArmPhrase {
    AtEnd,
    OnSizeError,
}

fn has_arms(arms: &Arms) -> bool
    ensures { result ≡ has_arms arms.now }
{
    arms.first.is_some() || arms.second.is_some()
}

impl Units {
    /// Adds the line of a phrase, with NOT where `not` is true.
    fn phrase(&mut self, phrase: ArmPhrase, not: bool, column: usize) -> Result<(), NoMemory>
        ensures { OnOk result
            (self.new ≡ self.old ++ unit_at column (not_tokens not ++ phrase_tokens phrase) ∷ []) }
    {
        let mut tokens = self.tokens();
        tokens.not(not)?;
        match phrase {
            ArmPhrase::AtEnd => tokens.two_words(b"AT", b"END")?,
            ArmPhrase::OnSizeError => {
                tokens.two_words(b"ON", b"SIZE")?;
                tokens.word(b"ERROR")?;
            }
        }
        self.push(column, tokens)
    }

    fn when_line(&mut self, program: &Program, test: &Test, column: usize) -> Result<(), NoMemory>
        ensures { OnOk result
            (self.new ≡ self.old ++ when_unit program.now column test.now ∷ []) }
    {
        let mut tokens = self.tokens();
        tokens.word(b"WHEN")?;
        tokens.test(program, test)?;
        self.push(column, tokens)
    }

    fn tests(&mut self, program: &Program, tests: &[Test], column: usize) -> Result<(), NoMemory>
        ensures { OnOk result (self.new ≡ self.old ++ tests_lines program.now column tests.now) }
    {
        for test in tests {
            self.when_line(program, test, column)?;
        }
        Ok(())
    }

    fn when_other(&mut self, column: usize) -> Result<(), NoMemory>
        ensures { OnOk result (self.new ≡ self.old ++ unit_at column other_tokens ∷ []) }
    {
        let mut tokens = self.tokens();
        tokens.two_words(b"WHEN", b"OTHER")?;
        self.push(column, tokens)
    }

    /// Adds the line that ends an arithmetic statement, where `asked` is true.
    fn end_arithmetic(&mut self, asked: bool, calc: &Calc, column: usize) -> Result<(), NoMemory>
        ensures { OnOk result
            (self.new ≡ self.old ++ end_lines asked (end_word calc.now) column) }
    {
        if !asked {
            return Ok(());
        }
        let mut tokens = self.tokens();
        tokens.end_word(calc)?;
        self.push(column, tokens)
    }

    fn end_read(&mut self, asked: bool, column: usize) -> Result<(), NoMemory>
        ensures { OnOk result
            (self.new ≡ self.old ++ end_lines asked (codes "END-READ") column) }
    {
        if asked {
            self.word(column, b"END-READ")
        } else {
            Ok(())
        }
    }

    fn statement_first_line(
        &mut self,
        program: &Program,
        stmt: &Stmt,
        column: usize,
    ) -> Result<(), NoMemory>
        ensures { OnOk result (self.new ≡
            self.old ++ unit_at column (head_step program.now (out-Stmt stmt.now)) ∷ []) }
    {
        let mut tokens = self.tokens();
        tokens.statement_first_line(program, stmt)?;
        self.push(column, tokens)
    }

    /// Adds a statement at this column, closed by its END word where it has one.
    #[cycle(stmt)]
    fn stmt(
        &mut self,
        program: &Program,
        stmt: &Stmt,
        column: usize,
        closed: bool,
    ) -> Result<(), NoMemory>
        ensures { OnOk result
            (self.new ≡ self.old ++ stmt_lines program.now stmt.now column closed) }
    {
        self.statement_first_line(program, stmt, column)?;
        match stmt {
            Stmt::Arith { calc, arms, .. } => {
                self.arms(program, arms, ArmPhrase::OnSizeError, column)?;
                self.end_arithmetic(has_arms(arms) || closed, calc, column)
            }
            Stmt::Read { arms, .. } => {
                self.arms(program, arms, ArmPhrase::AtEnd, column)?;
                self.end_read(has_arms(arms) || closed, column)
            }
            Stmt::If { yes, no, .. } => {
                self.list(program, yes, deeper(column), false)?;
                self.held_by_else(program, no, column)
            }
            Stmt::Evaluate { whens, other, .. } => {
                self.whens(program, whens, column)?;
                match other {
                    None => self.word(column, b"END-EVALUATE"),
                    Some(stmts) => self.other(program, stmts, column),
                }
            }
            Stmt::Loop { body, .. } => self.held_by_loop(program, body, column),
            _ => Ok(()),
        }
    }

    /// Adds statements, the last one closed or not; CONTINUE where there are none.
    #[cycle(stmt)]
    pub fn list(
        &mut self,
        program: &Program,
        stmts: &Items<Stmt>,
        column: usize,
        closed: bool,
    ) -> Result<(), NoMemory>
        ensures { OnOk result (self.new ≡
            self.old ++ list_lines (map (stmt_lines program.now) stmts.now) column closed) }
    {
        let mut left = stmts.len();
        if left == 0 {
            return self.word(column, b"CONTINUE");
        }
        for stmt in stmts.as_slice() {
            left = left.saturating_sub(1);
            self.stmt(program, stmt, column, closed && left == 0)?;
        }
        Ok(())
    }

    #[cycle(stmt)]
    fn held_by_else(
        &mut self,
        program: &Program,
        no: &Items<Stmt>,
        column: usize,
    ) -> Result<(), NoMemory>
        ensures { OnOk result
            (self.new ≡ self.old ++ held_by_else (map (stmt_lines program.now) no.now) column) }
    {
        if no.len() == 0 {
            return self.word(column, b"END-IF");
        }
        self.word(column, b"ELSE")?;
        self.list(program, no, deeper(column), false)?;
        self.word(column, b"END-IF")
    }

    #[cycle(stmt)]
    fn held_by_loop(
        &mut self,
        program: &Program,
        body: &Items<Stmt>,
        column: usize,
    ) -> Result<(), NoMemory>
        ensures { OnOk result
            (self.new ≡ self.old ++ held_by_loop (map (stmt_lines program.now) body.now) column) }
    {
        self.list(program, body, deeper(column), false)?;
        self.word(column, b"END-PERFORM")
    }

    #[cycle(stmt)]
    fn other(
        &mut self,
        program: &Program,
        stmts: &Items<Stmt>,
        column: usize,
    ) -> Result<(), NoMemory>
        ensures { OnOk result (self.new ≡ self.old ++ held_by_other
            (Some (map (stmt_lines program.now) stmts.now)) column) }
    {
        self.when_other(deeper(column))?;
        self.list(program, stmts, deeper(deeper(column)), false)?;
        self.word(column, b"END-EVALUATE")
    }

    #[cycle(stmt)]
    fn arms(
        &mut self,
        program: &Program,
        arms: &Arms,
        phrase: ArmPhrase,
        column: usize,
    ) -> Result<(), NoMemory>
        ensures { OnOk result
            (self.new ≡ self.old ++ (arms_lines program.now arms.now).lines phrase column) }
    {
        match &arms.first {
            None => {}
            Some(stmts) => self.arm(program, stmts, phrase, false, column)?,
        }
        match &arms.second {
            None => Ok(()),
            Some(stmts) => self.arm(program, stmts, phrase, true, column),
        }
    }

    #[cycle(stmt)]
    fn arm(
        &mut self,
        program: &Program,
        stmts: &Items<Stmt>,
        phrase: ArmPhrase,
        not: bool,
        column: usize,
    ) -> Result<(), NoMemory>
        ensures { OnOk result (self.new ≡
            self.old ++ arm_lines (map (stmt_lines program.now) stmts.now) phrase not column) }
    {
        self.phrase(phrase, not, deeper(column))?;
        self.list(program, stmts, deeper(deeper(column)), true)
    }

    #[cycle(stmt)]
    fn whens(
        &mut self,
        program: &Program,
        whens: &Items<When>,
        column: usize,
    ) -> Result<(), NoMemory>
        ensures { OnOk result
            (self.new ≡ self.old ++ whens_lines (map (when_lines program.now) whens.now) column) }
    {
        for when in whens.as_slice() {
            self.when(program, when, column)?;
        }
        Ok(())
    }

    #[cycle(stmt)]
    fn when(&mut self, program: &Program, when: &When, column: usize) -> Result<(), NoMemory>
        ensures { OnOk result (self.new ≡ self.old ++ when_lines program.now when.now column) }
    {
        self.tests(program, when.tests.as_slice(), deeper(column))?;
        self.list(program, &when.stmts, deeper(deeper(column)), false)
    }
}
