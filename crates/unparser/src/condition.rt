//! Conditions as tokens.

ghost use Rattle.std.specs.Prelude.{◌≡◌, ◌++◌, ◌∷◌, [], true, OnOk};
ghost use Rattle.cobol_lex.specs.declared.token.TokenKind.TheVariants as kind;
ghost use Rattle.unparser.specs.Condition.{rel_tokens, not_tokens, class_word, sign_word, cond_tokens};

use crate::token::Tokens;
use cob_base::{Boxed, NoMemory};
use cob_tree::{ClassKind, Cond, Program, Rel, SignKind};
use cobol_lex::TokenKind;

impl Tokens {
    fn rel(&mut self, rel: Rel) -> Result<(), NoMemory>
        ensures { OnOk result (self.new ≡ self.old ++ rel_tokens rel) }
    {
        match rel {
            Rel::Equal => self.mark(b'='),
            Rel::NotEqual => {
                self.word(b"NOT")?;
                self.mark(b'=')
            }
            Rel::Less => self.mark(b'<'),
            Rel::Greater => self.mark(b'>'),
            Rel::LessEqual => self.push(TokenKind::LessEqual),
            Rel::GreaterEqual => self.push(TokenKind::GreaterEqual),
        }
    }

    /// Adds NOT, where `said` is true.
    pub fn not(&mut self, said: bool) -> Result<(), NoMemory>
        ensures { OnOk result (self.new ≡ self.old ++ not_tokens said) }
    {
        if said { self.word(b"NOT") } else { Ok(()) }
    }

    fn class(&mut self, class: ClassKind) -> Result<(), NoMemory>
        ensures { OnOk result (self.new ≡ self.old ++ kind.Word (class_word class) ∷ []) }
    {
        match class {
            ClassKind::Numeric => self.word(b"NUMERIC"),
            ClassKind::Alphabetic => self.word(b"ALPHABETIC"),
        }
    }

    fn sign(&mut self, sign: SignKind) -> Result<(), NoMemory>
        ensures { OnOk result (self.new ≡ self.old ++ kind.Word (sign_word sign) ∷ []) }
    {
        match sign {
            SignKind::Positive => self.word(b"POSITIVE"),
            SignKind::Negative => self.word(b"NEGATIVE"),
            SignKind::Zero => self.word(b"ZERO"),
        }
    }

    /// Adds a condition; `within` says that it is an operand of AND, OR or NOT.
    #[cycle(cond)]
    pub fn cond(&mut self, program: &Program, cond: &Cond, within: bool) -> Result<(), NoMemory>
        ensures { OnOk result (self.new ≡ self.old ++ cond_tokens program.now cond.now within) }
    {
        match cond {
            Cond::Relation(left, rel, right) => {
                self.expr(program, left, false)?;
                self.rel(*rel)?;
                self.expr(program, right, false)
            }
            Cond::Class(place, kind, not) => {
                self.place(program, place)?;
                self.not(*not)?;
                self.class(*kind)
            }
            Cond::SignIs(expr, kind, not) => {
                self.expr(program, expr, false)?;
                self.not(*not)?;
                self.sign(*kind)
            }
            Cond::Named(place) => self.place(program, place),
            Cond::Not(inner) => {
                self.word(b"NOT")?;
                self.mark(b'(')?;
                self.part(program, inner, false)?;
                self.mark(b')')
            }
            Cond::And(left, right) => {
                self.opens(within)?;
                self.part(program, left, true)?;
                self.word(b"AND")?;
                self.part(program, right, true)?;
                self.closes(within)
            }
            Cond::Or(left, right) => {
                self.opens(within)?;
                self.part(program, left, true)?;
                self.word(b"OR")?;
                self.part(program, right, true)?;
                self.closes(within)
            }
        }
    }

    #[cycle(cond)]
    fn part(&mut self, program: &Program, part: &Boxed<Cond>, within: bool) -> Result<(), NoMemory>
        ensures { OnOk result (self.new ≡ self.old ++ cond_tokens program.now part.now within) }
    {
        self.cond(program, part.get(), within)
    }
}
