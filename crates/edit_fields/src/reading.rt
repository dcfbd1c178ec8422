//! A text read as a mask, byte by byte.

ghost use Rattle.std.specs.Prelude.{◌≡◌, ◌≤◌};
ghost use Rattle.edit_fields.specs.Reading as readings;

use crate::extent::Extent;
use crate::fault::MaskFault;
use crate::shape::Shape;
use crate::symbol::is_symbol;

/// How far the text has come in a run of a symbol.
#[derive(Clone, Copy, Debug, PartialEq, Eq)]
pub enum SymbolPlace {
    /// Where no count may come.
    Open,
    /// After a symbol at this byte, which may have a count.
    Behind(u32),
    /// In the count of that symbol, which has this value so far.
    Count(u32, u8),
}

/// What was read so far. A symbol whose count is being read counts once.
#[derive(Clone, Copy, Debug, PartialEq, Eq)]
pub struct Reading {
    pub shape: Shape,
    pub extent: Extent,
    pub place: SymbolPlace,
}

fn is_parenthesis(byte: u8) -> bool
    ensures { result ≡ readings.is_parenthesis byte }
{
    byte == b'(' || byte == b')'
}

/// Whether a text has no counts.
pub fn is_written_out(text: &[u8]) -> bool
    ensures { result ≡ readings.is_written_out text.now }
{
    text.iter().all(|byte| !is_parenthesis(*byte))
}

/// Whether it is a digit of a count.
pub fn is_digit(byte: u8) -> bool
    ensures { result ≡ readings.is_digit byte }
{
    byte >= b'0' && byte <= b'9'
}

// The fault of a byte that may not come in a count.
fn fault_of(position: u32, byte: u8) -> MaskFault
    ensures { result ≡ readings.fault_of position byte }
{
    if is_symbol(byte) || is_parenthesis(byte) || is_digit(byte) {
        MaskFault::Order(position)
    } else {
        MaskFault::Symbol(position)
    }
}

// The same outside a count.
fn symbol_fault(position: u32, byte: u8) -> MaskFault
    ensures { result ≡ readings.symbol_fault position byte }
{
    if is_symbol(byte) || is_parenthesis(byte) {
        MaskFault::Order(position)
    } else {
        MaskFault::Symbol(position)
    }
}

/// The count with one more digit; it stays at 200, where a mask is too long.
pub fn counted(count: u8, digit: u8) -> u8
    requires { digit ≤ 9 }
    ensures { result ≡ readings.counted count digit }
{
    let value = u16::from(count) * 10 + u16::from(digit);
    value.min(200) as u8
}

impl Reading {
    /// The reading before the first byte.
    pub fn start() -> Reading
        ensures { result ≡ readings.start }
    {
        Reading {
            shape: Shape::empty(),
            extent: Extent::none(),
            place: SymbolPlace::Open,
        }
    }

    /// The reading after one more byte, a letter of which is taken in capitals.
    #[tactic(auto, unfolding(crate::specs::Reading::step))]
    pub fn step(self, position: u32, byte: u8) -> Result<Reading, MaskFault>
        ensures { result ≡ readings.step position byte self }
    {
        match self.place {
            SymbolPlace::Open => self.symbol(position, byte),
            SymbolPlace::Behind(at) if byte == b'(' => Ok(self.at(SymbolPlace::Count(at, 0))),
            SymbolPlace::Behind(_) => self.symbol(position, byte),
            SymbolPlace::Count(at, count) => self.in_count(position, at, count, byte),
        }
    }

    fn at(self, place: SymbolPlace) -> Reading
        ensures { result ≡ record self { place = place } }
    {
        Reading { place, ..self }
    }

    // The reading with the symbol once more, where it may come.
    fn added(self, symbol: u8) -> Option<Reading>
        ensures { result ≡ readings.added symbol self }
    {
        let shape = self.shape.behind(symbol)?;
        Some(Reading {
            shape,
            extent: self.extent.longer(symbol),
            place: self.place,
        })
    }

    // The reading with the symbol so many times more.
    fn repeated(self, count: u8, symbol: u8) -> Option<Reading>
        ensures { result ≡ readings.repeated count symbol self }
    {
        let mut reading = self;
        for turn in 0..count {
            match reading.added(symbol) {
                Some(next) => reading = next,
                None => return None,
            }
        }
        Some(reading)
    }

    fn symbol(self, position: u32, byte: u8) -> Result<Reading, MaskFault>
        ensures { result ≡ readings.symbol position byte self }
    {
        let Some(reading) = self.added(byte) else {
            return Err(symbol_fault(position, byte));
        };
        if byte == b'V' {
            Ok(reading.at(SymbolPlace::Open))
        } else {
            Ok(reading.at(SymbolPlace::Behind(position)))
        }
    }

    fn in_count(self, position: u32, at: u32, count: u8, byte: u8) -> Result<Reading, MaskFault>
        ensures { result ≡ readings.in_count position at count byte self }
    {
        if is_digit(byte) {
            return Ok(self.at(SymbolPlace::Count(at, counted(count, byte - b'0'))));
        }
        if byte == b')' {
            return self.closed(position, at, count);
        }
        Err(fault_of(position, byte))
    }

    fn closed(self, position: u32, at: u32, count: u8) -> Result<Reading, MaskFault>
        ensures { result ≡ readings.closed position at count self }
    {
        if count == 0 {
            return Err(MaskFault::Order(position));
        }
        match self.repeated(count - 1, self.extent.last) {
            Some(reading) => Ok(reading.at(SymbolPlace::Open)),
            None => Err(MaskFault::Order(at)),
        }
    }

    fn is_counting(self) -> bool
        ensures { result ≡ readings.is_counting self.place }
    {
        match self.place {
            SymbolPlace::Count(_, _) => true,
            _ => false,
        }
    }

    /// What is wrong where no more bytes come.
    #[tactic(auto, unfolding(crate::specs::Reading::end_fault))]
    pub fn end_fault(self, last: u32) -> Option<MaskFault>
        ensures { result ≡ readings.end_fault last self }
    {
        if self.is_counting() || !self.shape.is_whole() {
            return Some(MaskFault::Order(last));
        }
        if self.shape.digits() > 18 {
            return Some(MaskFault::TooManyDigits(last));
        }
        if self.extent.is_short() && self.extent.edits && self.extent.ends_well() {
            None
        } else {
            Some(MaskFault::Order(last))
        }
    }
}
