//! The text of the kept lines.

ghost use Rattle.ref_format.specs.Joining.{has_mark};
ghost use Rattle.std.specs.Prelude.{◌≡◌, None, Some, OnOk, ◌++◌, []};

use crate::column::{behind_spaces, blank, controls};
use crate::fault::{FormatError, FormatFault};
use crate::program_text::ProgramText;
use cob_base::NoMemory;
use std::alloc::Global;

/// The literal that is open where a text ends.
#[derive(Clone, Copy)]
pub enum Literal {
    Closed,
    InQuotes,
    InApostrophes,
}

impl Literal {
    ghost use Rattle.ref_format.specs.Joining.{behind, behind_byte, lacks_mark as without_mark};

    fn behind(self, byte: u8) -> Literal
        ensures { result ≡ behind_byte self byte }
    {
        match (self, byte) {
            (Literal::Closed, b'"') => Literal::InQuotes,
            (Literal::Closed, b'\'') => Literal::InApostrophes,
            (Literal::InQuotes, b'"' | b'\n') => Literal::Closed,
            (Literal::InApostrophes, b'\'' | b'\n') => Literal::Closed,
            _ => self,
        }
    }

    fn behind_all(self, bytes: &[u8]) -> Literal
        ensures { result ≡ behind self bytes.now }
    {
        let mut literal = self;
        for byte in bytes {
            literal = literal.behind(*byte);
        }
        literal
    }

    /// The literal that is open after these bytes of a line, before which none is open.
    fn in_line(bytes: &[u8]) -> Literal
        ensures { result ≡ behind Literal.Closed bytes.now }
    {
        if has_mark(bytes) {
            Literal::Closed.behind_all(bytes)
        } else {
            Literal::Closed
        }
    }

    /// Whether these bytes lack the mark with which they would continue the literal.
    fn lacks_mark(self, bytes: &[u8]) -> bool
        ensures { result ≡ without_mark self bytes.now }
    {
        match self {
            Literal::Closed => false,
            Literal::InQuotes => !matches!(bytes, [b'"', ..]),
            Literal::InApostrophes => !matches!(bytes, [b'\'', ..]),
        }
    }
}

/// Whether the bytes hold a mark that could open a literal.
fn has_mark(bytes: &[u8]) -> bool
    ensures { result ≡ has_mark bytes.now }
{
    let mut quote = false;
    let mut apostrophe = false;
    for byte in bytes {
        quote |= *byte == b'"';
        apostrophe |= *byte == b'\'';
    }
    quote || apostrophe
}

/// The text of the lines so far.
#[derive(Drop)]
pub struct Joining {
    pub text: ProgramText,
    /// The line that was kept last.
    pub last: Option<u32>,
    pub literal: Literal,
}

impl Joining {
    ghost use Rattle.std.specs.Prelude.{Ok};
    ghost use Rattle.cob_base.specs.Answers.{Answers};
    ghost use Rattle.ref_format.specs.Line.{line_of};
    ghost use Rattle.ref_format.specs.Placed.{placed};
    ghost use Rattle.ref_format.specs.Joining.{IsSound, behind, line_end, trimmed, continuing};
    ghost use Rattle.ref_format.specs.Joining.{with_line, fault_of, joined_or, is_bad_continuation};
    ghost use Rattle.ref_format.specs.declared.fault.FormatError.TheVariants.{NoMemory as Memory};
    ghost use Rattle.ref_format.specs.declared.joining.Literal.TheVariants.{Closed};

    /// No line yet.
    pub fn new(alloc: Global) -> Joining
        ensures text { result.text ≡ [] }
        ensures last { result.last ≡ None }
        ensures literal { result.literal ≡ Closed }
    {
        Joining {
            text: ProgramText::new(alloc),
            last: None,
            literal: Literal::Closed,
        }
    }

    /// Takes the next kept line.
    pub fn add(&mut self, number: u32, card: &[u8; 72]) -> Result<(), FormatError>
        requires { IsSound self.old }
        ensures sound { OnOk result (IsSound self.new) }
        ensures last { OnOk result (self.new.last ≡ Some number) }
        ensures text { OnOk result
            (self.new.text ≡ with_line self.old.last self.old.text (line_of number card.now)) }
        ensures fault { let line = line_of number card.now in
            let fault = fault_of self.old.last self.old.literal line in
            Answers Memory (joined_or fault (Ok tt)) result }
    {
        if let Some(fault) = self.fault(number, card) {
            return Err(FormatError::Fault(fault));
        }
        if card[6] == b'-' {
            self.go_on(number, card)?;
        } else {
            self.end_line()?;
            self.put_line(number, &card[7..])?;
        }
        self.last = Some(number);
        Ok(())
    }

    fn fault(&self, number: u32, card: &[u8; 72]) -> Option<FormatFault>
        ensures { result ≡ fault_of self.now.last self.now.literal (line_of number card.now) }
    {
        if card[6] != b' ' && card[6] != b'-' {
            return Some(FormatFault::BadIndicator(number));
        }
        if controls(&card[7..]) {
            return Some(FormatFault::BadByte(number));
        }
        if card[6] == b'-' && self.breaks_off(card) {
            return Some(FormatFault::BadContinuation(number));
        }
        None
    }

    fn breaks_off(&self, card: &[u8; 72]) -> bool
        ensures { result ≡ is_bad_continuation self.now.last self.now.literal card.now }
    {
        self.last.is_none()
            || !blank(&card[7..11])
            || blank(&card[11..])
            || self.literal.lacks_mark(behind_spaces(&card[11..]))
    }

    /// Takes a continuation line.
    fn go_on(&mut self, number: u32, card: &[u8; 72]) -> Result<(), NoMemory>
        ensures text { OnOk result
            (self.new.text
            ≡ trimmed self.old.literal self.old.text
            ++ placed number (continuing self.old.literal card.now)) }
        ensures literal { OnOk result
            (self.new.literal ≡ behind self.old.literal (continuing self.old.literal card.now)) }
    {
        let rest = behind_spaces(&card[11..]);
        match (self.literal, rest) {
            (Literal::Closed, _) => {
                self.text.trim();
                self.put(number, rest)
            }
            (_, [_, more @ ..]) => self.put(number, more),
            (_, []) => Ok(()),
        }
    }

    /// Ends the line that was kept last.
    fn end_line(&mut self) -> Result<(), NoMemory>
        ensures { OnOk result (self.new.text ≡ self.old.text ++ line_end self.old.last) }
    {
        if let Some(line) = self.last {
            self.text.add(line, b"\n")?;
        }
        Ok(())
    }

    /// Adds the bytes of a line, before which no literal is open.
    fn put_line(&mut self, line: u32, bytes: &[u8]) -> Result<(), NoMemory>
        ensures text { OnOk result (self.new.text ≡ self.old.text ++ placed line bytes.now) }
        ensures literal { OnOk result (self.new.literal ≡ behind Closed bytes.now) }
    {
        self.text.add(line, bytes)?;
        self.literal = Literal::in_line(bytes);
        Ok(())
    }

    fn put(&mut self, line: u32, bytes: &[u8]) -> Result<(), NoMemory>
        ensures text { OnOk result (self.new.text ≡ self.old.text ++ placed line bytes.now) }
        ensures literal { OnOk result (self.new.literal ≡ behind self.old.literal bytes.now) }
    {
        self.text.add(line, bytes)?;
        self.literal = self.literal.behind_all(bytes);
        Ok(())
    }
}
