//! Lists of units.

ghost use Rattle.std.specs.Prelude.{◌≡◌, ◌++◌, [], ◌∷◌, true, min, ◌+◌, OnOk, MatchOption};
ghost use Rattle.cobol_lex.specs.declared.token.TokenKind.TheVariants as kind;
ghost use Rattle.unparser.specs.Token.{is_reserved_shape};
ghost use Rattle.cobol_print.specs.units.Unit.{unit_at, header, naming_header, section_header, deeper, ended};

use cob_base::{Items, NoMemory, Word};
use cobol_lex::TokenKind;
use std::alloc::Global;
use std::marker::Model;
use unparser::Tokens;

/// What is printed as one line, where it is short enough: tokens that begin at this column, which
/// counts from 1.
#[derive(Debug, Drop)]
pub struct PrintUnit {
    pub column: usize,
    pub tokens: Items<TokenKind>,
}

/// The units so far.
#[derive(Debug, Drop)]
pub struct Units {
    alloc: Global,
    list: Items<PrintUnit>,
}

impl Model for Units {
    ghost use Rattle.std.specs.Prelude.{List};
    ghost use Rattle.cobol_print.specs.declared.units.unit.PrintUnit.{PrintUnit};

    ghost Value = { List PrintUnit };

    ghost view = { λ units. units.list };
}

/// The column of what a line at this one holds: four further right, at most 32.
pub fn deeper(column: usize) -> usize
    ensures { result ≡ deeper column }
{
    column.saturating_add(4).min(32)
}

impl Units {
    /// No units.
    pub fn new(alloc: Global) -> Units
        ensures { result ≡ [] }
    {
        Units {
            alloc,
            list: Items::new(alloc),
        }
    }

    /// The list of the units.
    pub fn into_items(self) -> Items<PrintUnit>
        ensures { result ≡ self }
    {
        let Units { alloc: _, list } = self;
        list
    }

    /// An empty list of tokens, to be filled for a unit.
    pub fn tokens(&self) -> Tokens
        ensures { result ≡ [] }
    {
        Tokens::new(self.alloc)
    }

    /// Adds a unit of these tokens at this column.
    pub fn push(&mut self, column: usize, tokens: Tokens) -> Result<(), NoMemory>
        ensures { OnOk result (self.new ≡ self.old ++ unit_at column tokens ∷ []) }
    {
        let tokens = tokens.into_items();
        self.add(PrintUnit { column, tokens })
    }

    fn add(&mut self, unit: PrintUnit) -> Result<(), NoMemory>
        ensures { OnOk result (self.new ≡ self.old ++ unit ∷ []) }
    {
        self.list.push(unit)
    }

    fn take_last(&mut self) -> Option<PrintUnit>
        ensures { MatchOption result ((self.old ≡ []) × (self.new ≡ []))
            (λ last. self.old ≡ self.new ++ last ∷ []) }
    {
        self.list.pop()
    }

    /// Adds the units of another list.
    pub fn append(&mut self, more: Units) -> Result<(), NoMemory>
        ensures { OnOk result (self.new ≡ self.old ++ more) }
    {
        for unit in more.into_items().into_vec() {
            self.add(unit)?;
        }
        Ok(())
    }

    /// Adds a period to the last unit.
    pub fn end(&mut self) -> Result<(), NoMemory>
        ensures { OnOk result (self.new ≡ ended self.old) }
    {
        let Some(unit) = self.take_last() else {
            return Ok(());
        };
        let PrintUnit { column, mut tokens } = unit;
        tokens.push(TokenKind::Period)?;
        self.add(PrintUnit { column, tokens })
    }

    /// Adds a line of one word.
    pub fn word(&mut self, column: usize, text: &[u8]) -> Result<(), NoMemory>
        requires { is_reserved_shape text.now ≡ true }
        ensures { OnOk result
            (self.new ≡ self.old ++ unit_at column (kind.Word text.now ∷ []) ∷ []) }
    {
        let mut tokens = self.tokens();
        tokens.word(text)?;
        self.push(column, tokens)
    }

    /// Adds a line of a word of the language and a period.
    pub fn word_line(&mut self, text: &[u8]) -> Result<(), NoMemory>
        requires { is_reserved_shape text.now ≡ true }
        ensures { OnOk result
            (self.new ≡ self.old ++ unit_at 8 (kind.Word text.now ∷ kind.Period ∷ []) ∷ []) }
    {
        let mut tokens = self.tokens();
        tokens.word(text)?;
        tokens.push(TokenKind::Period)?;
        self.push(8, tokens)
    }

    /// Adds the header of a division or a section.
    pub fn header(&mut self, first: &[u8], second: &[u8]) -> Result<(), NoMemory>
        requires first { is_reserved_shape first.now ≡ true }
        requires second { is_reserved_shape second.now ≡ true }
        ensures { OnOk result (self.new ≡ self.old ++ header first.now second.now ∷ []) }
    {
        let mut tokens = self.tokens();
        tokens.two_words(first, second)?;
        tokens.push(TokenKind::Period)?;
        self.push(8, tokens)
    }

    /// Adds a header that begins with the name of a section.
    pub fn section_header(&mut self, name: Word, text: &[u8]) -> Result<(), NoMemory>
        requires { is_reserved_shape text.now ≡ true }
        ensures { OnOk result (self.new ≡ self.old ++ section_header name text.now ∷ []) }
    {
        let mut tokens = self.tokens();
        tokens.procedure(name)?;
        tokens.word(text)?;
        tokens.push(TokenKind::Period)?;
        self.push(8, tokens)
    }

    /// Adds a header, and after it a name with a period of its own.
    pub fn naming_header(&mut self, text: &[u8], name: Word) -> Result<(), NoMemory>
        requires { is_reserved_shape text.now ≡ true }
        ensures { OnOk result (self.new ≡ self.old ++ naming_header text.now name ∷ []) }
    {
        let mut tokens = self.tokens();
        tokens.word(text)?;
        tokens.push(TokenKind::Period)?;
        tokens.name(name)?;
        tokens.push(TokenKind::Period)?;
        self.push(8, tokens)
    }
}
