//! The program text.

ghost use Rattle.std.specs.Prelude.{◌≡◌, [], ◌++◌, ◌-◌, ◌<◌, length, take, OnOk, OnErr};
ghost use Rattle.ref_format.specs.Placed.{bytes_of, lines_of, placed};
ghost use Rattle.ref_format.specs.Joining.{unspaced_end, ends_in_space};

use crate::line_runs::{LineRuns, LinesLeft};
use cob_base::NoMemory;
use std::alloc::Global;
use std::marker::Model;

/// The program text.
///
/// Contracts see a text as the list of its bytes, each with its line.
#[derive(Drop)]
pub struct ProgramText {
    bytes: Vec<u8>,
    lines: LineRuns,
}

impl Model for ProgramText {
    ghost use Rattle.std.specs.Prelude.{◌≡◌, List, length};
    ghost use Rattle.ref_format.specs.declared.placed.Placed.{Placed};
    ghost use Rattle.ref_format.specs.Placed.{on_lines};

    ghost Value = { List Placed };

    ghost view = { λ t. on_lines t.lines t.bytes.items };

    ghost invariant = { λ t. length t.lines ≡ length t.bytes.items };
}

impl ProgramText {
    /// An empty text.
    pub fn new(alloc: Global) -> ProgramText
        ensures { result ≡ [] }
    {
        ProgramText {
            bytes: Vec::new(alloc),
            lines: LineRuns::new(alloc),
        }
    }

    /// The bytes, without their lines.
    #[tactic(auto, using(crate::proofs::TextLemmas::bytes_on_lines))]
    pub fn bytes(&self) -> &[u8]
        ensures { result.now ≡ bytes_of self.now }
    {
        self.bytes.as_slice()
    }

    /// The lines of the bytes.
    #[tactic(auto, using(crate::proofs::TextLemmas::lines_on_lines))]
    pub fn lines(&self) -> LinesLeft<'_>
        ensures { result ≡ lines_of self.now }
    {
        self.lines.from_first()
    }

    /// Adds bytes of a line.
    #[tactic(auto, using(crate::proofs::TextLemmas::bytes_added))]
    pub fn add(&mut self, line: u32, bytes: &[u8]) -> Result<(), NoMemory>
        ensures ok { OnOk result (self.new ≡ self.old ++ placed line bytes.now) }
        ensures err { OnErr result (self.new ≡ self.old) }
    {
        let before = self.bytes.len();
        self.bytes.extend_from_slice(bytes)?;
        match self.lines.add(line, bytes.len()) {
            Ok(()) => Ok(()),
            Err(fault) => {
                self.bytes.truncate(before);
                Err(fault)
            }
        }
    }

    /// Drops the spaces at the end.
    #[tactic(auto, using(crate::proofs::TextLemmas::end_spaced, crate::proofs::TextLemmas::end_kept, crate::proofs::TextLemmas::some_spaced))]
    pub fn trim(&mut self)
        ensures { self.new ≡ unspaced_end self.old }
    {
        while self.ends_in_space() {
            self.drop_last();
        }
    }

    #[tactic(auto, using(crate::proofs::TextLemmas::none_spaced, crate::proofs::TextLemmas::last_spaced))]
    fn ends_in_space(&self) -> bool
        ensures { result ≡ ends_in_space self.now }
    {
        let count = self.bytes.len();
        if count == 0 {
            return false;
        }
        self.bytes[count - 1] == b' '
    }

    #[tactic(auto, using(crate::proofs::TextLemmas::last_dropped, crate::proofs::TextLemmas::length_on_lines))]
    fn drop_last(&mut self)
        requires { 0 < length self.old }
        ensures { self.new ≡ take (length self.old - 1) self.old }
    {
        let _ = self.bytes.pop();
        self.lines.drop_last();
    }
}
