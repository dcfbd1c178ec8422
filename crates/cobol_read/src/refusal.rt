//! Why no program is read.

use cob_base::{Limit, NoMemory, Word};
use cob_tree::ParseFault;
use cobol_lex::LexFault;
use ref_format::FormatFault;
use thiserror::Error;

/// Why a source isn't a program of this language.
#[derive(Debug, Drop, Error)]
pub enum ReadFault {
    #[error("{0}")]
    Format(FormatFault),
    #[error("{0}")]
    Lex(LexFault),
    /// A word that is left out, and its line.
    #[error("line {1}: {0:?} is left out")]
    LeftOut(Word, u32),
    /// The line of `**`, which is left out.
    #[error("line {0}: ** is left out")]
    Power(u32),
    #[error("{0}")]
    Parse(ParseFault),
}

/// Why no program is read.
#[derive(Debug, Drop, Error)]
pub enum ReadRefusal {
    #[error("{0}")]
    Fault(ReadFault),
    #[error("{0}")]
    Limit(Limit),
    #[error("out of memory")]
    NoMemory,
}

impl From<NoMemory> for ReadRefusal {
    ghost use Rattle.std.specs.Prelude.{◌≡◌};
    ghost use Rattle.cobol_read.specs.declared.refusal.ReadRefusal.TheVariants.{NoMemory as Memory};

    ghost from_gives = { λ _ e. e ≡ Memory };

    fn from(_: NoMemory) -> ReadRefusal {
        ReadRefusal::NoMemory
    }
}
