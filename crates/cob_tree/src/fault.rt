//! What is wrong with a source, as the parts that read it find.

use cob_base::{Limit, NoMemory};
use thiserror::Error;

/// A name or a clause of a data entry that is used wrongly, with its line.
#[derive(Clone, Copy, Debug, PartialEq, Eq, Error)]
pub enum NameFault {
    #[error("line {0}: a name stands twice")]
    Duplicate(u32),
    #[error("line {0}: a name that nothing has")]
    Unknown(u32),
    #[error("line {0}: a name that several have")]
    Ambiguous(u32),
    #[error("line {0}: a level number")]
    Level(u32),
    #[error("line {0}: a picture")]
    Picture(u32),
    #[error("line {0}: REDEFINES")]
    Redefines(u32),
    #[error("line {0}: a value")]
    Value(u32),
    #[error("line {0}: a use that the item doesn't serve")]
    Usage(u32),
}

/// What is wrong with the text of a program.
#[derive(Clone, Copy, Debug, PartialEq, Eq, Error)]
pub enum ParseFault {
    /// The line of the first token up to which the tokens begin no program.
    #[error("line {0}: syntax")]
    Syntax(u32),
    #[error("{0}")]
    Name(NameFault),
}

/// Why no part of a program was parsed.
#[derive(Clone, Copy, Debug, PartialEq, Eq, Error)]
pub enum ParseError {
    #[error("{0}")]
    Fault(ParseFault),
    #[error("{0}")]
    Limit(Limit),
    #[error("out of memory")]
    NoMemory,
}

/// Why a program wasn't split into its procedures.
#[derive(Clone, Copy, Debug, PartialEq, Eq, Error)]
pub enum SplitFault {
    #[error("{0}")]
    Limit(Limit),
    #[error("out of memory")]
    NoMemory,
}

impl From<NoMemory> for SplitFault {
    ghost use Rattle.std.specs.Prelude.{◌≡◌};
    ghost use Rattle.cob_tree.specs.declared.fault.SplitFault.TheVariants.{NoMemory as Memory};

    ghost from_gives = { λ _ e. e ≡ Memory };

    fn from(_: NoMemory) -> SplitFault {
        SplitFault::NoMemory
    }
}
