//! What the symbols of a picture mean together.

ghost use Rattle.std.specs.Prelude.{◌≡◌};
ghost use Rattle.picture_data.specs.Symbols as symbols;

use crate::fault::Flaw;
use cob_tree::Picture;

/// What the symbols so far can still become.
#[derive(Clone, Copy, Debug, PartialEq, Eq)]
pub enum PictureShape {
    /// Anything.
    Start,
    /// Nines alone: a number, or characters where an X or A comes.
    Nines,
    /// After an S.
    Signed,
    /// After the V.
    Point { signed: bool },
    /// A alone.
    Letters,
    /// X, A and 9.
    Any,
}

/// The symbols so far, with counts.
#[derive(Clone, Copy, Debug, PartialEq, Eq)]
pub struct PictureSymbols {
    pub shape: PictureShape,
    /// How many of them, without those after the V.
    pub whole: u32,
    /// How many after the V.
    pub part: u32,
}

impl PictureShape {
    /// The shape after one more symbol, where that symbol may come.
    pub fn behind(self, symbol: u8) -> Option<PictureShape>
        ensures { result ≡ symbols.behind symbol self }
    {
        match symbol {
            b'S' => self.behind_sign(),
            b'V' => self.behind_point(),
            b'9' => Some(self.behind_nine()),
            b'A' => self.behind_letter(),
            b'X' => self.behind_any(),
            _ => None,
        }
    }

    fn behind_sign(self) -> Option<PictureShape>
        ensures { result ≡ symbols.behind_sign self }
    {
        match self {
            PictureShape::Start => Some(PictureShape::Signed),
            _ => None,
        }
    }

    fn behind_point(self) -> Option<PictureShape>
        ensures { result ≡ symbols.behind_point self }
    {
        match self {
            PictureShape::Start | PictureShape::Nines => Some(PictureShape::Point {
                signed: false,
            }),
            PictureShape::Signed => Some(PictureShape::Point { signed: true }),
            _ => None,
        }
    }

    fn behind_nine(self) -> PictureShape
        ensures { result ≡ symbols.behind_nine self }
    {
        match self {
            PictureShape::Start => PictureShape::Nines,
            PictureShape::Letters => PictureShape::Any,
            _ => self,
        }
    }

    fn behind_letter(self) -> Option<PictureShape>
        ensures { result ≡ symbols.behind_letter self }
    {
        match self {
            PictureShape::Start | PictureShape::Letters => Some(PictureShape::Letters),
            PictureShape::Nines | PictureShape::Any => Some(PictureShape::Any),
            _ => None,
        }
    }

    fn behind_any(self) -> Option<PictureShape>
        ensures { result ≡ symbols.behind_any self }
    {
        match self {
            PictureShape::Start | PictureShape::Letters | PictureShape::Nines | PictureShape::Any =>
                Some(PictureShape::Any),
            _ => None,
        }
    }

    fn is_number(self) -> bool
        ensures { result ≡ symbols.is_number self }
    {
        match self {
            PictureShape::Signed | PictureShape::Point { .. } => true,
            _ => false,
        }
    }

    /// How many symbols there may be, not counting S and V.
    fn most(self) -> u64
        ensures { result ≡ symbols.most self }
    {
        if self.is_number() { 18 } else { 65_535 }
    }

    /// What is wrong where there are more.
    pub fn too_many(self) -> Flaw
        ensures { result ≡ symbols.too_many self }
    {
        if self.is_number() {
            Flaw::Digits
        } else {
            Flaw::Order
        }
    }
}

impl PictureSymbols {
    /// So many more of the last symbol.
    pub fn added(self, count: u32) -> Result<PictureSymbols, Flaw>
        ensures { result ≡ symbols.added count self }
    {
        let total = self.whole as u64 + self.part as u64 + count as u64;
        if total > self.shape.most() {
            return Err(self.shape.too_many());
        }
        Ok(match self.shape {
            PictureShape::Point { .. } => PictureSymbols {
                shape: self.shape,
                whole: self.whole,
                part: self.part + count,
            },
            _ => PictureSymbols {
                shape: self.shape,
                whole: self.whole + count,
                part: self.part,
            },
        })
    }

    /// The picture, where no more symbols come.
    pub fn picture(self) -> Result<Picture, Flaw>
        ensures { result ≡ symbols.picture self }
    {
        match self.shape {
            PictureShape::Start => Err(Flaw::Order),
            PictureShape::Nines => number(false, self.whole, 0),
            PictureShape::Signed => number(true, self.whole, 0),
            PictureShape::Point { signed } => number(signed, self.whole, self.part),
            PictureShape::Letters => Ok(Picture::Letters(self.whole)),
            PictureShape::Any => Ok(Picture::Any(self.whole)),
        }
    }
}

fn number(signed: bool, whole: u32, part: u32) -> Result<Picture, Flaw>
    ensures { result ≡ symbols.number signed whole part }
{
    let digits = whole as u64 + part as u64;
    if digits == 0 {
        return Err(Flaw::Order);
    }
    if digits > 18 {
        return Err(Flaw::Digits);
    }
    Ok(Picture::Number {
        signed,
        whole: whole as u8,
        part: part as u8,
    })
}
