//! Reads a list of tokens from the left.

ghost use Rattle.std.specs.Prelude.{◌≡◌, ◌+◌, ◌<◌, ◌≤◌, ◌^◌, length};
ghost use Rattle.std.specs.Option.{option_copied};
ghost use Rattle.parser_combinators.specs.Form as form;
ghost use Rattle.parser_combinators.specs.Part as part;
ghost use Rattle.parser_combinators.specs.Reading.{Reads};
ghost use Rattle.parser_combinators.specs.Reading as reading;

use crate::note::{Note, Position};
use crate::why::{Unread, Why};
use cob_base::{Copied, Text, Word};
use cob_tree::Number;
use cobol_lex::{Token, TokenKind};
use std::alloc::Global;
use std::marker::Model;

/// What is left of a list of tokens, and the first name fault before it.
#[derive(Drop)]
pub struct Cursor<'a> {
    rest: &'a [Token],
    taken: usize,
    fault: Option<Note>,
}

impl<'a> Model for Cursor<'a> {
    ghost use Rattle.parser_combinators.specs.Form.{Input};

    ghost Value = { Input };

    ghost view = { λ c. record { rest = c.rest.now; taken = c.taken; fault = c.fault } };

    ghost use Rattle.std.specs.Prelude.{◌+◌, ◌<◌, ◌^◌, length};

    ghost invariant = { λ c. c.taken + length c.rest.now < 2 ^ 63 };
}

impl<'a> Cursor<'a> {
    /// A cursor before all these tokens, with no fault yet.
    pub fn new(rest: &'a [Token]) -> Cursor<'a>
        ensures { result ≡ reading.start rest.now }
    {
        Cursor {
            rest,
            taken: 0,
            fault: None,
        }
    }

    /// A cursor after the first `from` of these tokens, with no fault yet.
    pub fn from_index(tokens: &'a [Token], from: usize) -> Cursor<'a>
        requires { from ≤ length tokens.now }
        ensures { result ≡ reading.start_at from tokens.now }
    {
        Cursor {
            rest: &tokens[from..],
            taken: from,
            fault: None,
        }
    }

    /// How many tokens were taken, including those after which the reading began.
    pub fn index(&self) -> usize
        ensures { result ≡ self.now.taken }
    {
        self.taken
    }

    /// How many tokens are left.
    pub fn left(&self) -> usize
        ensures { result ≡ length self.now.rest }
    {
        self.rest.len()
    }

    /// The first name fault so far.
    pub fn fault(&self) -> Option<Note>
        ensures { result ≡ self.now.fault }
    {
        self.fault
    }

    /// What the next token is.
    pub fn peek(&self) -> Option<&TokenKind>
        ensures { option_copied result ≡ form.next self.now.rest }
    {
        match self.rest {
            [] => None,
            [token, ..] => Some(&token.kind),
        }
    }

    /// Notes a name fault, where there is one. Of all noted faults the first in the order of tokens
    /// is kept.
    pub fn note(&mut self, fault: Option<Note>)
        ensures { self.new ≡ form.with_fault fault self.old }
    {
        if let Some(late) = fault {
            self.fault = match self.fault {
                Some(early) if !late.precedes(early) => Some(early),
                _ => Some(late),
            };
        }
    }

    /// Whether the next token is this word, in capitals.
    pub fn sees(&self, word: &[u8]) -> bool
        ensures { result ≡ form.is_next (part.is_key word.now) self.now }
    {
        match self.rest {
            [
                Token {
                    kind: TokenKind::Word(found),
                    ..
                },
                ..
            ] => word == found.as_slice(),
            _ => false,
        }
    }

    /// Whether the next token is this mark.
    pub fn sees_mark(&self, byte: u8) -> bool
        ensures { result ≡ form.is_next (part.is_mark byte) self.now }
    {
        match self.rest {
            [
                Token {
                    kind: TokenKind::Mark(found),
                    ..
                },
                ..
            ] => byte == *found,
            _ => false,
        }
    }

    /// Whether the next token is a period.
    pub fn sees_period(&self) -> bool
        ensures { result ≡ form.is_next part.is_period self.now }
    {
        match self.rest {
            [
                Token {
                    kind: TokenKind::Period,
                    ..
                },
                ..
            ] => true,
            _ => false,
        }
    }

    /// Takes the next token, where there is one.
    pub fn skip(&mut self)
        ensures { self.new ≡ reading.behind_next self.old }
    {
        if let [_, rest @ ..] = self.rest {
            self.move_to(rest);
        }
    }

    fn position(&self, line: u32) -> Position
        ensures { result ≡ record { index = self.now.taken; line = line } }
    {
        Position {
            index: self.taken,
            line,
        }
    }

    /// Goes on after one token, to these that are left.
    fn move_to(&mut self, rest: &'a [Token])
        requires { self.old.taken + 1 + length rest.now < 2 ^ 63 }
        ensures { self.new ≡ form.past rest.now self.old }
    {
        self.rest = rest;
        self.taken += 1;
    }

    /// Takes this word, in capitals, and gives its position.
    pub fn key(&mut self, word: &[u8]) -> Result<Position, Unread>
        ensures { Reads ((part.key word.now).reads self.old) result self.new }
    {
        match self.rest {
            [
                Token {
                    kind: TokenKind::Word(found),
                    line,
                },
                rest @ ..,
            ] if word == found.as_slice() => {
                let position = self.position(*line);
                self.move_to(rest);
                Ok(position)
            }
            _ => Err(Unread::Stop(Why::Syntax)),
        }
    }

    /// Takes this mark, and gives its position.
    pub fn mark(&mut self, byte: u8) -> Result<Position, Unread>
        ensures { Reads ((part.mark byte).reads self.old) result self.new }
    {
        match self.rest {
            [
                Token {
                    kind: TokenKind::Mark(found),
                    line,
                },
                rest @ ..,
            ] if byte == *found => {
                let position = self.position(*line);
                self.move_to(rest);
                Ok(position)
            }
            _ => Err(Unread::Stop(Why::Syntax)),
        }
    }

    /// Takes a period, and gives its position.
    pub fn period(&mut self) -> Result<Position, Unread>
        ensures { Reads (part.period.reads self.old) result self.new }
    {
        match self.rest {
            [
                Token {
                    kind: TokenKind::Period,
                    line,
                },
                rest @ ..,
            ] => {
                let position = self.position(*line);
                self.move_to(rest);
                Ok(position)
            }
            _ => Err(Unread::Stop(Why::Syntax)),
        }
    }

    /// Takes this word, in capitals, where it is next.
    pub fn maybe(&mut self, word: &[u8])
        ensures { (part.maybe word.now).reads self.old ≡ form.Got tt self.new }
    {
        if self.sees(word) {
            self.skip();
        }
    }

    /// Why nothing is read here, where no deeper nesting is allowed; `begins` says whether the next
    /// token would begin one.
    pub fn too_deep(&self, why: Why, begins: bool) -> Unread
        ensures { result ≡ reading.unread_where begins why }
    {
        Unread::Stop(if begins { why } else { Why::Syntax })
    }

    /// Takes nothing, where no token is left.
    pub fn ended(&self) -> Result<(), Unread>
        ensures { Reads (part.ended.reads self.now) result self.now }
    {
        match self.rest {
            [] => Ok(()),
            _ => Err(Unread::Stop(Why::Syntax)),
        }
    }

    /// Takes a word, reserved or not, and gives it with its position.
    pub fn word(&mut self) -> Result<(Word, Position), Unread>
        ensures { Reads (part.word.reads self.old) result self.new }
    {
        match self.rest {
            [
                Token {
                    kind: TokenKind::Word(word),
                    line,
                },
                rest @ ..,
            ] => {
                let position = self.position(*line);
                self.move_to(rest);
                Ok((*word, position))
            }
            _ => Err(Unread::Stop(Why::Syntax)),
        }
    }

    /// Takes digits without sign and point, and gives them with their position.
    pub fn digits(&mut self, alloc: Global) -> Result<(Text, Position), Unread>
        ensures { Reads (part.digits.reads self.old) result self.new }
    {
        match self.rest {
            [
                Token {
                    kind: TokenKind::Digits(digits),
                    line,
                },
                rest @ ..,
            ] => {
                let position = self.position(*line);
                self.move_to(rest);
                Ok((digits.copy(alloc)?, position))
            }
            _ => Err(Unread::Stop(Why::Syntax)),
        }
    }

    /// Takes a number with sign or point, and gives it with its position.
    pub fn decimal(&mut self, alloc: Global) -> Result<(Number, Position), Unread>
        ensures { Reads (part.decimal.reads self.old) result self.new }
    {
        match self.rest {
            [
                Token {
                    kind: TokenKind::Decimal(number),
                    line,
                },
                rest @ ..,
            ] => {
                let position = self.position(*line);
                self.move_to(rest);
                Ok((number.get().copy(alloc)?, position))
            }
            _ => Err(Unread::Stop(Why::Syntax)),
        }
    }

    /// Takes a literal in quotation marks, and gives its bytes with its position.
    pub fn literal(&mut self, alloc: Global) -> Result<(Text, Position), Unread>
        ensures { Reads (part.literal.reads self.old) result self.new }
    {
        match self.rest {
            [
                Token {
                    kind: TokenKind::Literal(text),
                    line,
                },
                rest @ ..,
            ] => {
                let position = self.position(*line);
                self.move_to(rest);
                Ok((text.copy(alloc)?, position))
            }
            _ => Err(Unread::Stop(Why::Syntax)),
        }
    }

    /// Takes the picture after PIC, and gives it with its position.
    pub fn picture(&mut self, alloc: Global) -> Result<(Text, Position), Unread>
        ensures { Reads (part.picture.reads self.old) result self.new }
    {
        match self.rest {
            [
                Token {
                    kind: TokenKind::Picture(picture),
                    line,
                },
                rest @ ..,
            ] => {
                let position = self.position(*line);
                self.move_to(rest);
                Ok((picture.copy(alloc)?, position))
            }
            _ => Err(Unread::Stop(Why::Syntax)),
        }
    }

    /// The line of a fault here: that of the next token; that of the last of `tokens`, where none
    /// is left; or 1, where there is none at all.
    pub fn fault_line(&self, tokens: &[Token]) -> u32
        ensures { result ≡ reading.fault_line tokens.now self.now.rest }
    {
        match self.rest {
            [token, ..] => token.line,
            [] => last_line(tokens),
        }
    }
}

#[tactic(auto, using(std::proofs::lemmas::Option::slice_get_read, std::proofs::lemmas::Option::slice_get_past))]
fn last_line(tokens: &[Token]) -> u32
    ensures { result ≡ reading.last_line tokens.now }
{
    match tokens {
        [.., last] => last.line,
        [] => 1,
    }
}
