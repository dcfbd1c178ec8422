//! A picture's text, read byte by byte.

ghost use Rattle.std.specs.Prelude.{◌≡◌, ◌<◌, ◌^◌, length};
ghost use Rattle.picture_data.specs.Reading as readings;

use crate::fault::{Flaw, PictureFault};
use crate::symbols::{PictureShape, PictureSymbols};
use cob_tree::Picture;

/// How far the text has come in a run of a symbol.
#[derive(Clone, Copy, Debug, PartialEq, Eq)]
pub enum SymbolPosition {
    /// Where no count may come.
    Open,
    /// After a symbol that may have a count.
    Behind,
    /// In the count, which has this value so far.
    Count(u32),
}

/// What was read so far of a picture. A symbol whose count is being read counts once.
#[derive(Clone, Copy, Debug, PartialEq, Eq)]
pub struct PictureReading {
    pub symbols: PictureSymbols,
    pub place: SymbolPosition,
}

impl PictureReading {
    /// The reading before the first byte.
    pub fn start() -> PictureReading
        ensures { result ≡ readings.start }
    {
        PictureReading {
            symbols: PictureSymbols {
                shape: PictureShape::Start,
                whole: 0,
                part: 0,
            },
            place: SymbolPosition::Open,
        }
    }

    /// The reading after one more byte, a letter of which is taken in capitals.
    #[tactic(auto, unfolding(crate::specs::Reading::step))]
    pub fn step(self, byte: u8) -> Result<PictureReading, Flaw>
        ensures { result ≡ readings.step byte self }
    {
        match self.place {
            SymbolPosition::Open => self.symbol(byte),
            SymbolPosition::Behind if byte == b'(' => Ok(PictureReading {
                symbols: self.symbols,
                place: SymbolPosition::Count(0),
            }),
            SymbolPosition::Behind => self.symbol(byte),
            SymbolPosition::Count(count) => self.in_count(count, byte),
        }
    }

    fn in_count(self, count: u32, byte: u8) -> Result<PictureReading, Flaw>
        ensures { result ≡ readings.in_count count byte self }
    {
        if byte.is_ascii_digit() {
            return self.digit(count, byte - 48);
        }
        if byte == b')' {
            return self.closed(count);
        }
        Err(flaw_of(byte))
    }

    fn digit(self, count: u32, digit: u8) -> Result<PictureReading, Flaw>
        requires { digit < 10 }
        ensures { result ≡ readings.digit count digit self }
    {
        let value = count as u64 * 10 + digit as u64;
        if value > 65_535 {
            return Err(self.symbols.shape.too_many());
        }
        self.symbols.added((value as u32).saturating_sub(1))?;
        Ok(PictureReading {
            symbols: self.symbols,
            place: SymbolPosition::Count(value as u32),
        })
    }

    fn closed(self, count: u32) -> Result<PictureReading, Flaw>
        ensures { result ≡ readings.closed count self }
    {
        if count == 0 {
            return Err(Flaw::Order);
        }
        Ok(PictureReading {
            symbols: self.symbols.added(count - 1)?,
            place: SymbolPosition::Open,
        })
    }

    fn symbol(self, byte: u8) -> Result<PictureReading, Flaw>
        ensures { result ≡ readings.symbol byte self }
    {
        let Some(shape) = self.symbols.shape.behind(byte) else {
            return Err(flaw_of(byte));
        };
        let symbols = PictureSymbols {
            shape,
            whole: self.symbols.whole,
            part: self.symbols.part,
        };
        if byte == b'S' || byte == b'V' {
            return Ok(PictureReading {
                symbols: symbols.added(0)?,
                place: SymbolPosition::Open,
            });
        }
        Ok(PictureReading {
            symbols: symbols.added(1)?,
            place: SymbolPosition::Behind,
        })
    }

    /// The picture, where no more bytes come.
    #[tactic(auto, unfolding(crate::specs::Reading::finish))]
    pub fn finish(self) -> Result<Picture, Flaw>
        ensures { result ≡ readings.finish self }
    {
        match self.place {
            SymbolPosition::Count(_) => Err(Flaw::Order),
            _ => self.symbols.picture(),
        }
    }
}

fn flaw_of(byte: u8) -> Flaw
    ensures { result ≡ readings.flaw_of byte }
{
    match byte {
        b'S' | b'V' | b'9' | b'A' | b'X' | b'(' | b')' => Flaw::Order,
        _ => Flaw::Symbol,
    }
}

/// The picture of a text that is no mask, its letters in either case.
pub fn plain_picture(text: &[u8]) -> Result<Picture, PictureFault>
    requires { length text.now < 2 ^ 31 }
    ensures { result ≡ readings.plain_picture text.now }
{
    let mut reading = PictureReading::start();
    for (before, byte) in text.iter().enumerate() {
        match reading.step(byte.to_ascii_uppercase()) {
            Ok(next) => reading = next,
            Err(flaw) => return Err(flaw.at(before as u32 + 1)),
        }
    }
    match reading.finish() {
        Ok(picture) => Ok(picture),
        Err(flaw) => Err(flaw.at(last_position(text.len() as u32))),
    }
}

fn last_position(count: u32) -> u32
    ensures { result ≡ readings.last_position count }
{
    if count == 0 { 1 } else { count }
}
