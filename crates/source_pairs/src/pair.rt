//! Two programs read from one source.

ghost use Rattle.std.specs.Prelude.{IfOk, IfErr};
ghost use Rattle.cobol_read.specs.Reading.{Reads};
ghost use Rattle.source_pairs.specs.Pair.{HasPairCause, IsRefusedFirst, IsRefusedSecond, ReadsTwo};

use crate::cut::cut_in_two;
use cob_base::limit::MAX_SOURCE;
use cob_tree::Program;
use cobol_read::{ReadRefusal, read};
use std::alloc::Global;

/// The two programs of a source.
#[derive(Drop)]
pub struct Programs {
    pub first: Program,
    pub second: Program,
}

/// Why a source isn't two programs.
#[derive(Debug, Drop)]
pub enum PairRefusal {
    /// It has more bytes than a source may have.
    TooLong,
    /// No line of it is the cut.
    NoSecond,
    /// What comes before the cut is refused; never since memory ran out, which is `NoMemory`.
    First(ReadRefusal),
    /// What comes behind the cut is refused; never since memory ran out.
    Second(ReadRefusal),
    NoMemory,
}

/// The two programs that these bytes are, or why they aren't two: of several reasons the first in
/// the order of the refusals above, those of the first program before those of the second.
pub fn read_two(alloc: Global, bytes: &[u8]) -> Result<Programs, PairRefusal>
    ensures found { IfOk result (λ programs. ReadsTwo bytes.now programs.first programs.second) }
    ensures refused { IfErr result (HasPairCause bytes.now) }
{
    if bytes.len() > MAX_SOURCE {
        return Err(PairRefusal::TooLong);
    }
    let Some(halves) = cut_in_two(bytes) else {
        return Err(PairRefusal::NoSecond);
    };
    let first = read_first(alloc, halves.first)?;
    let second = read_second(alloc, halves.second)?;
    Ok(Programs { first, second })
}

fn read_first(alloc: Global, bytes: &[u8]) -> Result<Program, PairRefusal>
    ensures found { IfOk result (Reads bytes.now) }
    ensures refused { IfErr result (IsRefusedFirst bytes.now) }
{
    match read(alloc, bytes) {
        Ok(program) => Ok(program),
        Err(ReadRefusal::NoMemory) => Err(PairRefusal::NoMemory),
        Err(refusal) => Err(PairRefusal::First(refusal)),
    }
}

fn read_second(alloc: Global, bytes: &[u8]) -> Result<Program, PairRefusal>
    ensures found { IfOk result (Reads bytes.now) }
    ensures refused { IfErr result (IsRefusedSecond bytes.now) }
{
    match read(alloc, bytes) {
        Ok(program) => Ok(program),
        Err(ReadRefusal::NoMemory) => Err(PairRefusal::NoMemory),
        Err(refusal) => Err(PairRefusal::Second(refusal)),
    }
}
