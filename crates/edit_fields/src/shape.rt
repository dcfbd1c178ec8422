//! Which symbol of a mask may follow which.

ghost use Rattle.std.specs.Prelude.{◌≡◌};
ghost use Rattle.edit_fields.specs.Shape as shapes;

use crate::symbol::{is_insertion, is_point, is_sign, is_suppressor, is_tail_letter};

/// How far the symbols have come in a mask.
#[derive(Clone, Copy, Debug, PartialEq, Eq)]
pub enum Stage {
    /// There is no symbol yet.
    Start,
    /// A lead that ends in this symbol, which floats where it comes again.
    Lead(u8),
    /// Insertions or the point, without a lead before them.
    Body,
    /// The same after a lead, whose last symbol still floats where it comes again.
    Led(u8),
    /// A sign or `$` that isn't a lead, so it has to come again.
    Once(u8),
    /// The suppression string.
    InString,
    /// The nines.
    Nines,
    /// The first letter of CR or DB.
    Letter(u8),
    /// The tail.
    Ended,
}

/// The symbols so far, together.
#[derive(Clone, Copy, Debug, PartialEq, Eq)]
pub struct Shape {
    pub stage: Stage,
    /// The symbol of the suppression string, or 0 where there is none.
    pub string: u8,
    /// Whether a sign is in the lead, floats or is the tail.
    pub sign: bool,
    pub point: bool,
    pub nines: bool,
    /// The digits to the left of the point, and to the right of it.
    pub whole: u8,
    pub part: u8,
}

// A sum of counts that stays at 255, past each limit.
pub fn tally(count: u8, more: u8) -> u8
    ensures { result ≡ shapes.tally count more }
{
    count.saturating_add(more)
}

impl Shape {
    /// The shape of no symbols.
    pub fn empty() -> Shape
        ensures { result ≡ shapes.empty }
    {
        Shape {
            stage: Stage::Start,
            string: 0,
            sign: false,
            point: false,
            nines: false,
            whole: 0,
            part: 0,
        }
    }

    /// The mask with one more symbol, where it may come.
    #[tactic(auto, unfolding(crate::specs::Shape::behind))]
    pub fn behind(self, symbol: u8) -> Option<Shape>
        ensures { result ≡ shapes.behind symbol self }
    {
        if is_sign(symbol) {
            self.behind_sign(symbol)
        } else if symbol == b'$' {
            self.behind_dollar()
        } else if is_suppressor(symbol) {
            self.behind_suppressor(symbol)
        } else if symbol == b'9' {
            self.behind_nine()
        } else if is_insertion(symbol) {
            self.behind_insertion(symbol)
        } else if is_point(symbol) {
            self.behind_point()
        } else if is_tail_letter(symbol) {
            self.behind_letter(symbol)
        } else if symbol == b'R' {
            self.behind_last_letter()
        } else {
            None
        }
    }

    fn at(self, stage: Stage) -> Shape
        ensures { result ≡ record self { stage = stage } }
    {
        Shape { stage, ..self }
    }

    fn with_digit(self) -> Shape
        ensures { result ≡ shapes.with_digit self }
    {
        if self.point {
            Shape {
                part: tally(self.part, 1),
                ..self
            }
        } else {
            Shape {
                whole: tally(self.whole, 1),
                ..self
            }
        }
    }

    fn in_string(self, symbol: u8) -> Shape
        ensures { result ≡ shapes.in_string symbol self }
    {
        let string = Shape {
            stage: Stage::InString,
            string: symbol,
            ..self
        };
        string.with_digit()
    }

    fn in_nines(self) -> Shape
        ensures { result ≡ shapes.in_nines self }
    {
        let nines = Shape {
            stage: Stage::Nines,
            nines: true,
            ..self
        };
        nines.with_digit()
    }

    // The mask with a sign, where it has none: in the lead, floating or in the tail.
    fn signed(self, stage: Stage) -> Option<Shape>
        ensures { result ≡ shapes.signed stage self }
    {
        if self.sign {
            None
        } else {
            Some(Shape {
                stage,
                sign: true,
                ..self
            })
        }
    }

    // The mask at the beginning of a string that floats, which is left of the point.
    fn begun(self, stage: Stage) -> Option<Shape>
        ensures { result ≡ shapes.begun stage self }
    {
        if self.point {
            None
        } else {
            Some(self.at(stage))
        }
    }

    fn begun_signed(self, sign: u8) -> Option<Shape>
        ensures { result ≡ shapes.begun_signed sign self }
    {
        if self.point {
            None
        } else {
            self.signed(Stage::Once(sign))
        }
    }

    // The mask where the string goes on with this symbol, if the string is of it.
    fn again(self, first: u8, symbol: u8) -> Option<Shape>
        ensures { result ≡ shapes.again first symbol self }
    {
        if first == symbol {
            Some(self.in_string(symbol))
        } else {
            None
        }
    }

    fn sign_behind_lead(self, lead: u8, sign: u8) -> Option<Shape>
        ensures { result ≡ shapes.sign_behind_lead lead sign self }
    {
        if lead == sign {
            Some(self.in_string(sign))
        } else if lead == b'$' {
            self.begun_signed(sign)
        } else {
            None
        }
    }

    fn behind_sign(self, sign: u8) -> Option<Shape>
        ensures { result ≡ shapes.sign_by self.stage sign self }
    {
        match self.stage {
            Stage::Start => self.signed(Stage::Lead(sign)),
            Stage::Lead(lead) => self.sign_behind_lead(lead, sign),
            Stage::Body => self.begun_signed(sign),
            Stage::Led(lead) => self.sign_behind_lead(lead, sign),
            Stage::Once(first) => self.again(first, sign),
            Stage::InString if self.string == sign => Some(self.in_string(sign)),
            Stage::InString => self.signed(Stage::Ended),
            Stage::Nines => self.signed(Stage::Ended),
            Stage::Letter(_) => None,
            Stage::Ended => None,
        }
    }

    fn behind_dollar(self) -> Option<Shape>
        ensures { result ≡ shapes.dollar_by self.stage self }
    {
        match self.stage {
            Stage::Start => Some(self.at(Stage::Lead(b'$'))),
            Stage::Lead(lead) if lead == b'$' => Some(self.in_string(b'$')),
            Stage::Lead(_) => Some(self.at(Stage::Lead(b'$'))),
            Stage::Body => self.begun(Stage::Once(b'$')),
            Stage::Led(lead) if lead == b'$' => Some(self.in_string(b'$')),
            Stage::Led(_) => self.begun(Stage::Once(b'$')),
            Stage::Once(first) => self.again(first, b'$'),
            Stage::InString => self.again(self.string, b'$'),
            Stage::Nines => None,
            Stage::Letter(_) => None,
            Stage::Ended => None,
        }
    }

    fn behind_suppressor(self, symbol: u8) -> Option<Shape>
        ensures { result ≡ shapes.suppressor_by self.stage symbol self }
    {
        match self.stage {
            Stage::Start => Some(self.in_string(symbol)),
            Stage::Lead(_) => Some(self.in_string(symbol)),
            Stage::Body => Some(self.in_string(symbol)),
            Stage::Led(_) => Some(self.in_string(symbol)),
            Stage::Once(_) => None,
            Stage::InString => self.again(self.string, symbol),
            Stage::Nines => None,
            Stage::Letter(_) => None,
            Stage::Ended => None,
        }
    }

    fn behind_nine(self) -> Option<Shape>
        ensures { result ≡ shapes.nine_by self.stage self }
    {
        match self.stage {
            Stage::Start => Some(self.in_nines()),
            Stage::Lead(_) => Some(self.in_nines()),
            Stage::Body => Some(self.in_nines()),
            Stage::Led(_) => Some(self.in_nines()),
            Stage::Once(_) => None,
            Stage::InString if self.part == 0 => Some(self.in_nines()),
            Stage::InString => None,
            Stage::Nines => Some(self.in_nines()),
            Stage::Letter(_) => None,
            Stage::Ended => None,
        }
    }

    // The mask where the body goes on with a symbol that isn't a digit.
    fn behind_body(self) -> Option<Shape>
        ensures { result ≡ shapes.body_by self.stage self }
    {
        match self.stage {
            Stage::Start => Some(self.at(Stage::Body)),
            Stage::Lead(lead) => Some(self.at(Stage::Led(lead))),
            Stage::Body => Some(self),
            Stage::Led(_) => Some(self),
            Stage::Once(_) => Some(self),
            Stage::InString => Some(self),
            Stage::Nines => Some(self),
            Stage::Letter(_) => None,
            Stage::Ended => None,
        }
    }

    fn behind_insertion(self, symbol: u8) -> Option<Shape>
        ensures { result ≡ shapes.insertion_by self.stage symbol self }
    {
        match self.stage {
            Stage::Letter(letter) if letter == b'D' && symbol == b'B' => {
                Some(self.at(Stage::Ended))
            }
            _ => self.behind_body(),
        }
    }

    fn behind_point(self) -> Option<Shape>
        ensures { result ≡ shapes.point_by self.stage self }
    {
        if self.point {
            return None;
        }
        let pointed = Shape {
            point: true,
            ..self
        };
        pointed.behind_body()
    }

    fn behind_letter(self, letter: u8) -> Option<Shape>
        ensures { result ≡ shapes.letter_by self.stage letter self }
    {
        match self.stage {
            Stage::InString => self.signed(Stage::Letter(letter)),
            Stage::Nines => self.signed(Stage::Letter(letter)),
            _ => None,
        }
    }

    fn behind_last_letter(self) -> Option<Shape>
        ensures { result ≡ shapes.last_letter_by self.stage self }
    {
        match self.stage {
            Stage::Letter(letter) if letter == b'C' => Some(self.at(Stage::Ended)),
            _ => None,
        }
    }

    fn is_half(self) -> bool
        ensures { result ≡ shapes.is_half self.stage }
    {
        match self.stage {
            Stage::Letter(_) => true,
            _ => false,
        }
    }

    /// Whether the mask has a digit, and its tail is complete.
    pub fn is_whole(self) -> bool
        ensures { result ≡ shapes.is_whole self }
    {
        self.digits() != 0 && !self.is_half()
    }

    /// How many digits there are on both sides of the point.
    pub fn digits(self) -> u16
        ensures { result ≡ shapes.digits self }
    {
        u16::from(self.whole) + u16::from(self.part)
    }
}
