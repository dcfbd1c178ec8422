//! Why a source isn't restructured.

use cob_base::{Limit, NoMemory};
use cob_tree::{Program, SplitFault};
use cobol_read::{ReadFault, ReadRefusal};
use program_points::paths::Trail;
use thiserror::Error;

/// Why a source was refused.
#[derive(Debug, Drop, Error)]
pub enum Refused {
    /// The bytes aren't a program of the language.
    #[error("{0}")]
    NotSubset(ReadFault),
    /// The bytes are this program, and a flow path of it comes to a fault, which the trail shows.
    #[error("a fault of flow")]
    Flow(Program, Trail),
    #[error("{0}")]
    Limit(Limit),
    #[error("out of memory")]
    NoMemory,
}

impl From<NoMemory> for Refused {
    ghost use Rattle.std.specs.Prelude.{◌≡◌};
    ghost use Rattle.restructure_core.specs.declared.fault.Refused.TheVariants as refused;

    ghost from_gives = { λ _ e. e ≡ refused.NoMemory };

    fn from(_: NoMemory) -> Refused {
        Refused::NoMemory
    }
}

impl From<ReadRefusal> for Refused {
    ghost use Rattle.std.specs.Prelude.{◌≡◌};
    ghost use Rattle.restructure_core.specs.Fault.{of_read_refusal};

    ghost from_gives = { λ refusal e. e ≡ of_read_refusal refusal };

    fn from(refusal: ReadRefusal) -> Refused {
        match refusal {
            ReadRefusal::Fault(fault) => Refused::NotSubset(fault),
            ReadRefusal::Limit(limit) => Refused::Limit(limit),
            ReadRefusal::NoMemory => Refused::NoMemory,
        }
    }
}

impl From<SplitFault> for Refused {
    ghost use Rattle.std.specs.Prelude.{◌≡◌};
    ghost use Rattle.restructure_core.specs.Fault.{of_split_fault};

    ghost from_gives = { λ fault e. e ≡ of_split_fault fault };

    fn from(fault: SplitFault) -> Refused {
        match fault {
            SplitFault::Limit(limit) => Refused::Limit(limit),
            SplitFault::NoMemory => Refused::NoMemory,
        }
    }
}
