//! The bytes of a source.

ghost use Rattle.std.specs.Prelude.{◌≡◌, ◌+◌, ◌⊎◌, Err, IsErr, IfOk, IfErr};
ghost use Rattle.cob_base.specs.Faults.{Rose};
ghost use Rattle.cob_base.specs.Source.{source_call};
ghost use Rattle.cob_base.specs.Limit.{max_source};
ghost use Rattle.restructure_asks.specs.Reading.{IsRead, IsReadWithin};

use crate::refusal::Refusal;
use cob_base::limit::MAX_SOURCE;
use cob_base::{Source, Text, Took};
use std::alloc::Global;

/// The bytes of a source, to its end, or to the first byte past the limit on it.
pub fn read_source<S: Source>(alloc: Global, source: &mut S) -> Result<Text, Refusal>
    ensures read { IfOk result (IsRead (source_call S.left S.faults source.old source.new)) }
    ensures fault { result ≡ Err Refusal.ReadFault →
        Rose (S.faults source.old) (S.faults source.new) }
    ensures within { IsErr result → IsReadWithin (max_source + 1)
        (source_call S.left S.faults source.old source.new) }
    ensures only { IfErr result (λ refusal.
        (refusal ≡ Refusal.ReadFault) ⊎ (refusal ≡ Refusal.NoMemory)) }
{
    let mut text = Text::new(alloc);
    let mut buffer = [0u8; 4096];
    while text.len() <= MAX_SOURCE {
        let room = (MAX_SOURCE + 1 - text.len()).min(buffer.len());
        match source.take(&mut buffer[..room]) {
            Took::Failed => return Err(Refusal::ReadFault),
            Took::End => return Ok(text),
            Took::Bytes(0) => return Ok(text),
            Took::Bytes(count) => text.add(&buffer[..count])?,
        }
    }
    Ok(text)
}
