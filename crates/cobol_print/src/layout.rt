//! Tokens as lines.

ghost use Rattle.std.specs.Prelude.{◌≡◌, ◌≤◌, ◌++◌, [], false, OnOk, replicate};
ghost use Rattle.cobol_print.specs.Line.{turned, next_column, column_behind};
ghost use Rattle.cobol_lex.specs.Written.{written};
ghost use Rattle.cobol_print.specs.Layout.{byte_bytes, column_after, spread, start_bytes, rest_bytes, token_bytes, unit_bytes};

use crate::spacing::{BEHIND, TokenStart, no_space_behind, start_of};
use crate::spelling::{held_bytes, spelled};
use crate::units::PrintUnit;
use cob_base::{NoMemory, Text};
use cobol_lex::TokenKind;
use std::alloc::Global;

/// The lines so far, and the column of the next byte.
#[derive(Drop)]
pub struct Layout {
    pub out: Text,
    pub column: usize,
    /// Whether the next byte is inside a literal.
    pub inside: bool,
}

impl Layout {
    /// A layout without a line yet.
    pub fn new(alloc: Global) -> Layout
        ensures out { result.out ≡ [] }
        ensures column { result.column ≤ 73 }
    {
        Layout {
            out: Text::new(alloc),
            column: 1,
            inside: false,
        }
    }

    /// Adds a byte of a token, in a continuation line where this one is full.
    fn put(&mut self, byte: u8) -> Result<(), NoMemory>
        requires { self.old.column ≤ 73 }
        ensures out { OnOk result
            (self.new.out ≡ self.old.out ++ byte_bytes self.old.column self.old.inside byte) }
        ensures column { OnOk result
            (self.new.column ≡ next_column self.old.column self.old.inside) }
        ensures inside { OnOk result (self.new.inside ≡ turned self.old.inside byte) }
    {
        if self.column == BEHIND {
            self.out.add(b"\n      -    ")?;
            self.column = 12;
            if self.inside {
                self.out.add(b"\"")?;
                self.column = 13;
            }
        }
        self.out.add(&[byte])?;
        self.column += 1;
        if byte == b'"' {
            self.inside = !self.inside;
        }
        Ok(())
    }

    /// Adds the bytes of a token: at once, where they fit on the line.
    #[tactic(auto, using(crate::proofs::StreamLemmas::spread_fits, crate::proofs::StreamLemmas::column_fits))]
    fn put_all(&mut self, bytes: &[u8]) -> Result<(), NoMemory>
        requires { self.old.column ≤ 73 }
        ensures out { OnOk result
            (self.new.out ≡ self.old.out ++ spread self.old.column false bytes.now) }
        ensures column { OnOk result
            (self.new.column ≡ column_behind self.old.column false bytes.now) }
        ensures within { OnOk result (self.new.column ≤ 73) }
    {
        if bytes.len() > BEHIND - self.column {
            return self.put_each(bytes);
        }
        self.out.add(bytes)?;
        self.column += bytes.len();
        Ok(())
    }

    /// Adds the bytes of a token one by one.
    fn put_each(&mut self, bytes: &[u8]) -> Result<(), NoMemory>
        requires { self.old.column ≤ 73 }
        ensures out { OnOk result
            (self.new.out ≡ self.old.out ++ spread self.old.column false bytes.now) }
        ensures column { OnOk result
            (self.new.column ≡ column_behind self.old.column false bytes.now) }
        ensures within { OnOk result (self.new.column ≤ 73) }
    {
        self.inside = false;
        for byte in bytes {
            self.put(*byte)?;
        }
        Ok(())
    }

    fn add_spaces(&mut self, count: usize) -> Result<(), NoMemory>
        ensures out { OnOk result (self.new.out ≡ self.old.out ++ replicate count 32) }
        ensures column { self.new.column ≡ self.old.column }
    {
        let Some(length) = self.out.len().checked_add(count) else {
            return Err(NoMemory);
        };
        self.out.bytes.resize(length, b' ')?;
        Ok(())
    }

    /// Goes to the column where a token begins, on this line or a new one.
    fn go_to(&mut self, start: TokenStart) -> Result<(), NoMemory>
        requires { start.column ≤ 73 }
        ensures out { OnOk result
            (self.new.out ≡ self.old.out ++ start_bytes start self.old.column) }
        ensures column { OnOk result (self.new.column ≡ start.column) }
    {
        if start.breaks {
            self.out.add(b"\n       ")?;
            self.add_spaces(start.column.saturating_sub(8))?;
        } else {
            self.add_spaces(start.column.saturating_sub(self.column))?;
        }
        self.column = start.column;
        Ok(())
    }

    /// Adds the lines of a unit.
    pub fn add_unit(&mut self, alloc: Global, unit: &PrintUnit) -> Result<(), NoMemory>
        requires { unit.now.column ≤ 32 }
        ensures { OnOk result
            (self.new.out ≡ self.old.out ++ unit_bytes unit.now.column unit.now.tokens) }
    {
        let [first, rest @ ..] = unit.tokens.as_slice() else {
            return Ok(());
        };
        self.out.add(b"       ")?;
        self.add_spaces(unit.column.saturating_sub(8))?;
        self.column = unit.column;
        self.add_first(alloc, first)?;
        self.add_rest(alloc, unit.column, no_space_behind(first), rest)
    }

    /// Adds the token that a unit begins with.
    fn add_first(&mut self, alloc: Global, token: &TokenKind) -> Result<(), NoMemory>
        requires { self.old.column ≤ 73 }
        ensures out { OnOk result
            (self.new.out ≡ self.old.out ++ spread self.old.column false (written token.now)) }
        ensures column { OnOk result
            (self.new.column ≡ column_behind self.old.column false (written token.now)) }
        ensures within { OnOk result (self.new.column ≤ 73) }
    {
        if let Some(bytes) = held_bytes(token) {
            return self.put_all(bytes);
        }
        let bytes = spelled(alloc, token)?;
        self.put_all(bytes.as_slice())
    }

    /// Adds a token of a unit with this margin.
    fn add_token(
        &mut self,
        alloc: Global,
        margin: usize,
        clinging: bool,
        token: &TokenKind,
    ) -> Result<(), NoMemory>
        requires margin { margin ≤ 32 }
        requires column { self.old.column ≤ 73 }
        ensures out { OnOk result (self.new.out
            ≡ self.old.out ++ token_bytes margin self.old.column clinging token.now) }
        ensures column { OnOk result
            (self.new.column ≡ column_after margin self.old.column clinging token.now) }
        ensures within { OnOk result (self.new.column ≤ 73) }
    {
        if let Some(bytes) = held_bytes(token) {
            return self.add_bytes(margin, clinging, token, bytes);
        }
        let bytes = spelled(alloc, token)?;
        self.add_bytes(margin, clinging, token, bytes.as_slice())
    }

    /// Adds a token that is written with these bytes.
    fn add_bytes(
        &mut self,
        margin: usize,
        clinging: bool,
        token: &TokenKind,
        bytes: &[u8],
    ) -> Result<(), NoMemory>
        requires margin { margin ≤ 32 }
        requires column { self.old.column ≤ 73 }
        requires bytes { bytes.now ≡ written token.now }
        ensures out { OnOk result (self.new.out
            ≡ self.old.out ++ token_bytes margin self.old.column clinging token.now) }
        ensures column { OnOk result
            (self.new.column ≡ column_after margin self.old.column clinging token.now) }
        ensures within { OnOk result (self.new.column ≤ 73) }
    {
        let start = start_of(margin, self.column, clinging, token, bytes.len());
        self.go_to(start)?;
        self.put_all(bytes)
    }

    /// Adds the other tokens of a unit with this margin, and ends its last line.
    fn add_rest(
        &mut self,
        alloc: Global,
        margin: usize,
        clinging: bool,
        tokens: &[TokenKind],
    ) -> Result<(), NoMemory>
        requires margin { margin ≤ 32 }
        requires column { self.old.column ≤ 73 }
        ensures { OnOk result
            (self.new.out ≡ self.old.out ++ rest_bytes margin self.old.column clinging tokens.now) }
    {
        let mut clinging = clinging;
        for token in tokens {
            self.add_token(alloc, margin, clinging, token)?;
            clinging = no_space_behind(token);
        }
        self.out.add(b"\n")
    }
}
