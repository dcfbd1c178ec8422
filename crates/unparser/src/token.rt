//! Lists of tokens.

ghost use Rattle.std.specs.Prelude.{◌≡◌, ◌++◌, [], ◌∷◌, true, OnOk};
ghost use Rattle.std.specs.List.{list_all};
ghost use Rattle.cobol_lex.specs.Byte.{is_digit};
ghost use Rattle.cobol_lex.specs.declared.token.TokenKind.TheVariants as kind;
ghost use Rattle.unparser.specs.Token.{is_reserved_shape, number_token, procedure_token, opened_by, closed_by};

use cob_base::{Boxed, Copied, Items, NoMemory, Text, Word};
use cob_tree::Number;
use cobol_lex::TokenKind;
use std::alloc::Global;
use std::marker::Model;

/// The tokens of a line so far.
#[derive(Debug, Drop)]
pub struct Tokens {
    alloc: Global,
    list: Vec<TokenKind>,
}

impl Model for Tokens {
    ghost use Rattle.std.specs.Prelude.{List};
    ghost use Rattle.cobol_lex.specs.declared.token.TokenKind.{TokenKind};

    ghost Value = { List TokenKind };

    ghost view = { λ tokens. tokens.list.items };
}

fn reserved_word(text: &[u8]) -> Word
    requires { is_reserved_shape text.now ≡ true }
    ensures { result ≡ text.now }
{
    match Word::new(text) {
        Some(word) => word,
        None => unreachable!(),
    }
}

fn is_digit(byte: u8) -> bool
    ensures { result ≡ is_digit byte }
{
    byte.is_ascii_digit()
}

fn are_digits(bytes: &[u8]) -> bool
    ensures { result ≡ list_all is_digit bytes.now }
{
    bytes.iter().all(|byte| is_digit(*byte))
}

impl Tokens {
    /// No tokens.
    pub fn new(alloc: Global) -> Tokens
        ensures { result ≡ [] }
    {
        Tokens {
            alloc,
            list: Vec::new(alloc),
        }
    }

    /// The list of the tokens.
    pub fn into_items(self) -> Items<TokenKind>
        ensures { result ≡ self }
    {
        let Tokens { alloc: _, list } = self;
        Items::from_vec(list)
    }

    /// Adds a token.
    pub fn push(&mut self, token: TokenKind) -> Result<(), NoMemory>
        ensures { OnOk result (self.new ≡ self.old ++ token ∷ []) }
    {
        self.list.push(token)?;
        Ok(())
    }

    /// Adds a word of the language.
    pub fn word(&mut self, text: &[u8]) -> Result<(), NoMemory>
        requires { is_reserved_shape text.now ≡ true }
        ensures { OnOk result (self.new ≡ self.old ++ kind.Word text.now ∷ []) }
    {
        self.name(reserved_word(text))
    }

    /// Adds two words of the language.
    pub fn two_words(&mut self, first: &[u8], second: &[u8]) -> Result<(), NoMemory>
        requires first { is_reserved_shape first.now ≡ true }
        requires second { is_reserved_shape second.now ≡ true }
        ensures { OnOk result
            (self.new ≡ self.old ++ kind.Word first.now ∷ kind.Word second.now ∷ []) }
    {
        self.word(first)?;
        self.word(second)
    }

    /// Adds a name.
    pub fn name(&mut self, name: Word) -> Result<(), NoMemory>
        ensures { OnOk result (self.new ≡ self.old ++ kind.Word name ∷ []) }
    {
        self.push(TokenKind::Word(name))
    }

    /// Adds the name of a paragraph or a section, which may be digits.
    pub fn procedure(&mut self, name: Word) -> Result<(), NoMemory>
        ensures { OnOk result (self.new ≡ self.old ++ procedure_token name ∷ []) }
    {
        if !are_digits(name.as_slice()) {
            return self.name(name);
        }
        self.digits(name.as_slice())
    }

    /// Adds a mark.
    pub fn mark(&mut self, mark: u8) -> Result<(), NoMemory>
        ensures { OnOk result (self.new ≡ self.old ++ kind.Mark mark ∷ []) }
    {
        self.push(TokenKind::Mark(mark))
    }

    /// Adds digits.
    pub fn digits(&mut self, digits: &[u8]) -> Result<(), NoMemory>
        ensures { OnOk result (self.new ≡ self.old ++ kind.Digits digits.now ∷ []) }
    {
        let mut copy = Text::new(self.alloc);
        copy.add(digits)?;
        self.push(TokenKind::Digits(copy))
    }

    /// Adds a literal.
    pub fn literal(&mut self, bytes: &Text) -> Result<(), NoMemory>
        ensures { OnOk result (self.new ≡ self.old ++ kind.Literal bytes.now ∷ []) }
    {
        let bytes = bytes.copy(self.alloc)?;
        self.push(TokenKind::Literal(bytes))
    }

    /// Adds a number as it was written.
    pub fn number(&mut self, number: &Number) -> Result<(), NoMemory>
        ensures { OnOk result (self.new ≡ self.old ++ number_token number.now ∷ []) }
    {
        if !number.negative && number.scale == 0 {
            return self.digits(number.digits.as_slice());
        }
        let number = number.copy(self.alloc)?;
        self.push(TokenKind::Decimal(Boxed::new(self.alloc, number)?))
    }

    /// Adds an opening parenthesis, where `asked` is true.
    pub fn opens(&mut self, asked: bool) -> Result<(), NoMemory>
        ensures { OnOk result (self.new ≡ self.old ++ opened_by asked) }
    {
        if asked { self.mark(b'(') } else { Ok(()) }
    }

    /// Adds a closing parenthesis, where `asked` is true.
    pub fn closes(&mut self, asked: bool) -> Result<(), NoMemory>
        ensures { OnOk result (self.new ≡ self.old ++ closed_by asked) }
    {
        if asked { self.mark(b')') } else { Ok(()) }
    }
}
