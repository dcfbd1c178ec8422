//! What the first record of each file holds, by the file's number.

ghost use Rattle.std.specs.Prelude.{◌≡◌, ◌<◌, ℕ, Some, get_or, length, slice_get, IfOk, if◌then◌else◌};
ghost use Rattle.cob_base.specs.Answers.{Makes};
ghost use Rattle.symbol_tables.specs.data_names.Names.{kind_of};
ghost use Rattle.cobol_grammar.specs.expr_forms.Fault.{item_kind};
ghost use Rattle.cobol_grammar.specs.declared.expr_forms.side.ValueKind.{ValueKind};
ghost use Rattle.cobol_grammar.specs.Use as uses;

use crate::operand_uses::kind::{item_kind, kind_of};
use cob_base::{Items, NoMemory};
use cob_tree::Entry;
use cobol_grammar::expr_forms::ValueKind;
use std::alloc::Global;
use std::marker::Model;

/// The entries of a program, with what the first record of each file holds.
///
/// Contracts see the entries alone.
#[derive(Drop)]
pub struct Records<'a> {
    entries: &'a [Entry],
    /// What the first record of each file holds, by the file's number.
    kinds: Vec<ValueKind>,
}

impl<'a> Model for Records<'a> {
    ghost use Rattle.std.specs.Prelude.{◌≡◌, ◌<◌, List, ℕ, Some, length, slice_get};
    ghost use Rattle.std.specs.Coded.{coded_list};
    ghost use Rattle.cob_tree.specs.declared.entry.Entry.{Entry};
    ghost use Rattle.cob_tree.specs.contracts.entry.Entry as rows;
    ghost use Rattle.cobol_grammar.specs.Use.{record_kind};

    ghost Value = { List Entry };

    ghost coded = { coded_list rows.the_row.coded };

    ghost view = { λ r. r.entries.now };

    ghost invariant = { λ r. (file : ℕ) → file < length r.kinds.items → slice_get r.kinds.items file
        ≡ Some (record_kind r.entries.now file) };
}

impl<'a> Records<'a> {
    /// The records of these entries.
    pub fn of(alloc: Global, entries: &'a [Entry]) -> Result<Records<'a>, NoMemory>
        ensures { Makes entries.now result }
    {
        let kinds = kinds_of(alloc, entries)?;
        Ok(Records { entries, kinds })
    }

    /// All entries of the program.
    pub fn entries(&self) -> &[Entry]
        ensures { result.now ≡ self.now }
    {
        self.entries
    }

    /// What the first record of a file holds.
    pub fn kind(&self, file: u32) -> ValueKind
        ensures { result ≡ uses.record_kind self.now file }
    {
        match self.kinds.get(file as usize) {
            Some(kind) => *kind,
            None => record_kind(self.entries, file),
        }
    }
}

fn is_of_file(file: u32, other: Option<u32>) -> bool
    ensures { result ≡ uses.is_of_file file other }
{
    match other {
        None => false,
        Some(other) => other == file,
    }
}

// The kind that a search from the front finds.
fn record_kind(entries: &[Entry], file: u32) -> ValueKind
    ensures { result ≡ uses.record_kind entries.now file }
{
    let mut rest = entries;
    'entries: while let [entry, behind @ ..] = rest {
        if is_of_file(file, entry.file) {
            return item_kind(kind_of(entry, behind));
        }
        rest = behind;
    }
    ValueKind::Unknown
}

// How many kinds the table has: one more than the greatest number of a file. Any other number would
// do, since what the table lacks is searched for.
fn count_of(entries: &[Entry]) -> usize {
    let mut count = 0usize;
    for entry in entries {
        count = count.max(entry.file.map_or(0, |file| file as usize + 1));
    }
    count
}

// Sets the kind of an entry's file; those after it show whether it is a group.
fn put_kind(kinds: &mut [ValueKind], entry: &Entry, behind: &[Entry])
    ensures length { length kinds.new ≡ length kinds.old }
    ensures kinds { (file : ℕ) → (other : ValueKind) → file < length kinds.old →
        get_or kinds.new file other
        ≡ (if uses.is_of_file file entry.now.file then item_kind (kind_of entry.now behind.now)
        else get_or kinds.old file other) }
{
    let Some(file) = entry.file else {
        return;
    };
    let at = file as usize;
    if at < kinds.len() {
        kinds[at] = item_kind(kind_of(entry, behind));
    }
}

// The entries are taken from the last to the first, so that a file's first record stays.
fn kinds_of(alloc: Global, entries: &[Entry]) -> Result<Vec<ValueKind>, NoMemory>
    ensures { IfOk result (λ kinds. (file : ℕ) → file < length kinds.items →
        slice_get kinds.items file ≡ Some (uses.record_kind entries.now file)) }
{
    let mut kinds = vec![in alloc; ValueKind::Unknown; count_of(entries)]?;
    let mut at = entries.len();
    while at > 0 {
        at -= 1;
        put_kind(&mut kinds, &entries[at], &entries[at + 1..]);
    }
    Ok(kinds)
}
