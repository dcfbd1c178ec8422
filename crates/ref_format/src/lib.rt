//! The reference format: bytes to program text.
//!
//! `unfold` drops comments, blank lines and comment entries, and joins the other lines, continued
//! ones too, to one text in which each byte has its line. `program_text` is to be compared with ISO
//! 1989:1985, Reference Format. These laws support it: `rows_are_read` (what is written as lines is
//! read as its text), `text_stands_on_kept_lines` and `lines_rise`. That `unfold` succeeds where
//! memory is ample is tested.
#![tactic(auto)]

mod column;
mod entry;
mod fault;
mod joining;
mod laws;
mod line;
mod line_runs;
mod placed;
mod program_text;

ghost use Rattle.std.specs.Prelude.{◌<◌, ◌^◌, length};
ghost use Rattle.cob_base.specs.Answers.{Answers};
ghost use Rattle.ref_format.specs.Joining.{program_text};
ghost use Rattle.ref_format.specs.declared.fault.FormatError.TheVariants.{NoMemory as Memory};

use column::card_of_line;
use entry::Entries;
pub use fault::{FormatError, FormatFault};
use joining::Joining;
pub use laws::{lines_rise, plain_lines_are_read, rows_are_read, text_stands_on_kept_lines};
use line::first_line;
pub use line_runs::LinesLeft;
pub use placed::Placed;
pub use program_text::ProgramText;
use std::alloc::Global;

/// The program text of a source in the reference format, each byte with its line, or the fault of
/// the first line that isn't in the format. On one line a wrong indicator counts before a control
/// character, and that before a wrong continuation. The source must have fewer than 2^31 bytes.
pub fn unfold(alloc: Global, bytes: &[u8]) -> Result<ProgramText, FormatError>
    requires { length bytes.now < 2 ^ 31 }
    ensures { Answers Memory (program_text bytes.now) result }
{
    let mut joining = Joining::new(alloc);
    let mut entries = Entries {
        over: false,
        inside: false,
    };
    let mut number = 0;
    let mut rest = bytes;
    while !rest.is_empty() {
        let (line, behind) = first_line(rest);
        let card = card_of_line(line);
        rest = behind;
        number += 1;
        if entries.drops(&card) {
            continue;
        }
        joining.add(number, &card)?;
    }
    let Joining {
        text,
        last: _,
        literal: _,
    } = joining;
    Ok(text)
}
