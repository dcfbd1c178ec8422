//! Paragraphs and sections by name.

ghost use Rattle.std.specs.Prelude.{◌≡◌, ◌<◌, ◌^◌, length};
ghost use Rattle.std.specs.Option.{option_copied};
ghost use Rattle.cob_base.specs.Answers.{Makes};
ghost use Rattle.symbol_tables.specs.procedure_names.Procedures as procedures;

use cob_base::{Items, NoMemory, Word};
use cob_words::WordTable;
use parser_combinators::{NameKind, Note, Position};

/// The first header with a name.
#[derive(Clone, Copy, Debug, PartialEq, Eq)]
pub struct Header {
    /// The number of its first paragraph.
    pub first: u32,
    /// How many sections come before it, where it is one.
    pub section: Option<u32>,
    /// How many tokens come before it.
    pub index: usize,
}

/// Paragraphs and sections by name, and how many paragraphs there are.
#[derive(Drop)]
pub struct ProcedureTable {
    pub names: WordTable,
    /// For each name by its number.
    pub headers: Items<Header>,
    /// The first paragraph of each section.
    pub starts: Items<u32>,
    pub count: u32,
}

fn last_of(table: &ProcedureTable, header: Header) -> u32
    ensures { result ≡ procedures.last_of table.now header }
{
    match header.section {
        None => header.first,
        Some(section) => match table.starts.get(section as usize + 1) {
            None => table.count.saturating_sub(1),
            Some(next) => next.saturating_sub(1),
        },
    }
}

impl ProcedureTable {
    /// The first header with this name.
    pub fn header_of(&self, name: &Word) -> Option<Header>
        ensures { result ≡ procedures.header_of self.now name.now }
    {
        match self.names.number_of(name) {
            None => None,
            Some(number) => match self.headers.get(number as usize) {
                None => None,
                Some(header) => Some(*header),
            },
        }
    }

    /// The first and the last paragraph of the procedure with this name, which are its entry and
    /// its exit.
    pub fn range_of(&self, name: &Word) -> Option<(u32, u32)>
        ensures { result ≡ procedures.range_of self.now (procedures.header_of self.now name.now) }
    {
        match self.header_of(name) {
            None => None,
            Some(header) => Some((header.first, last_of(self, header))),
        }
    }

    /// The fault of the header at this position, where an earlier one has its name.
    pub fn duplicate_fault(&self, name: &Word, position: Position) -> Option<Note>
        ensures { result ≡ procedures.duplicate_fault (procedures.header_of self.now name.now)
            position }
    {
        match self.header_of(name) {
            None => None,
            Some(header) => {
                if header.index == position.index {
                    None
                } else {
                    Some(Note {
                        kind: NameKind::Duplicate,
                        position,
                    })
                }
            }
        }
    }

    /// Adds a name, unless the table has it.
    pub fn with_name(mut self, name: Word, header: Header) -> Result<ProcedureTable, NoMemory>
        requires { length self.names < 2 ^ 32 }
        ensures { Makes (procedures.with_name name header self) result }
    {
        match self.names.number_of(&name) {
            Some(_) => Ok(self),
            None => {
                self.names.add(name)?;
                self.headers.push(header)?;
                Ok(self)
            }
        }
    }
}
