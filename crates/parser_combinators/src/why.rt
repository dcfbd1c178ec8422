//! Why a reading stops.

use cob_base::NoMemory;

/// Why the next tokens aren't read.
#[derive(Clone, Copy, Debug, PartialEq, Eq)]
pub enum Why {
    /// A token that can't come here, or none where more are needed.
    Syntax,
    /// More leaves and signs in one condition or expression than the limit.
    Terms,
    /// Parentheses nested deeper than the limit.
    Parens,
    /// Statements nested deeper than the limit.
    Nesting,
}

/// Why nothing is read.
#[derive(Clone, Copy, Debug, PartialEq, Eq)]
pub enum Unread {
    /// The cursor is then before the token that decides it, or after the last.
    Stop(Why),
    NoMemory,
}

impl From<NoMemory> for Unread {
    ghost use Rattle.parser_combinators.specs.declared.why.Unread.TheVariants as unread;
    ghost use Rattle.std.specs.Prelude.{◌≡◌};

    ghost from_gives = { λ _ e. e ≡ unread.NoMemory };

    fn from(_: NoMemory) -> Unread {
        Unread::NoMemory
    }
}
