//! Places of paragraphs.

ghost use Rattle.std.specs.Prelude.{◌≡◌, ◌≤◌, length, map, IfOk};
ghost use Rattle.control_flow_theory.specs.language.Control.{seen_sentence};
ghost use Rattle.program_points.specs.numbering.Kind.{never_first_of};
ghost use Rattle.program_points.specs.numbering.Build.{BuildsRest, IsHere};

use crate::numbering::build::{Builder, Exits, Here};
use crate::point_table::ProgramPoint;
use cob_base::{Items, NoMemory};
use cob_tree::{FileEntry, Sentence};
use std::alloc::Global;

impl Builder {
    /// The place at which the last sentences of a paragraph, or all of them, begin.
    pub fn build_rest(
        &mut self,
        alloc: Global,
        files: &[FileEntry],
        here: Here,
        sentences: &Items<Sentence>,
    ) -> Result<u32, NoMemory>
        requires { IsHere self.old.count here }
        ensures builds { IfOk result
            (λ begin. BuildsRest (never_first_of files.now) self.old.count here.number
            self.old.places.items self.new.places.items self.old.ranges.items self.new.ranges.items
            (map (seen_sentence here.last) sentences.now) begin) }
        ensures count { self.new.count ≡ self.old.count }
        ensures longer { length self.old.places.items ≤ length self.new.places.items }
    {
        let end = self.end_place(here.number);
        let mut next = end;
        let list = sentences.as_slice();
        for at in (0..list.len()).rev() {
            let closing = self.add(ProgramPoint::Goes(next))?;
            let exits = Exits {
                after: closing,
                leave: next,
                broken: end,
                cycled: end,
            };
            next = self.build_stmts(alloc, files, here, &list[at].stmts, exits)?;
        }
        Ok(next)
    }
}
