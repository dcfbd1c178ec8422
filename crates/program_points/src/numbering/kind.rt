//! The properties of loops and files on which control depends.

ghost use Rattle.std.specs.Prelude.{◌≡◌, option_map};
ghost use Rattle.control_flow_theory.specs.language.Control.{control_in};
ghost use Rattle.program_points.specs.numbering.Kind.{kind_in, is_silent};

use cob_tree::{Control, FileEntry};

/// Where a loop begins.
#[derive(Clone, Copy, Debug, PartialEq, Eq)]
pub enum LoopStart {
    /// At its test, or at its count.
    Before,
    /// At its first test; each later test comes after the augmenting ADD.
    Again,
    /// At its body.
    After,
}

/// Where the loop of a control begins; none for `Once`.
pub fn kind_of(control: &Control) -> Option<LoopStart>
    ensures { result ≡ option_map kind_in (control_in control.now) }
{
    match control {
        Control::Once => None,
        Control::Times(_) => Some(LoopStart::Before),
        Control::Until { after, .. } => Some(if *after {
            LoopStart::After
        } else {
            LoopStart::Before
        }),
        Control::Varying { after, .. } => Some(if *after {
            LoopStart::After
        } else {
            LoopStart::Again
        }),
    }
}

/// Whether the file has no status item, so that its end ends the run where there is no AT END.
pub fn is_silent(files: &[FileEntry], file: u32) -> bool
    ensures { result ≡ is_silent files.now file }
{
    match files.get(file as usize) {
        Some(entry) => entry.status.is_none(),
        None => false,
    }
}
