//! What an entry redefines.

ghost use Rattle.std.specs.Prelude.{◌≡◌, ◌<◌, length, slice_get, Some, IfSome, if◌then◌else◌};
ghost use Rattle.std.specs.List.{list_any};
ghost use Rattle.std.specs.Str.{bytes_eq};
ghost use Rattle.parser_combinators.specs.declared.note.NameKind.TheVariants.{Redefines, Unknown};
ghost use Rattle.declaration_checks.specs.Fault.{fault_at};
ghost use Rattle.declaration_checks.specs.Redefining as redefining;
ghost use Rattle.declaration_checks.specs.Tables.{alikes_of, tables_of};

use crate::clause::{ClauseKind, clause_of};
use crate::fault::{fault_at, unless};
use crate::table::{Tables, alike_at};
use cob_base::Word;
use cob_tree::Entry;
use cob_words::first_places::WordPlaces;
use cobol_grammar::data_forms::Clause;
use parser_combinators::{NameKind, Note, Position};

fn is_called(name: &Word, entry: &Entry) -> bool
    ensures { result ≡ redefining.is_called name.now entry.now }
{
    match entry.name {
        None => false,
        Some(found) => found == *name,
    }
}

fn is_meant(name: &Word, entry: &Entry, other: &Entry) -> bool
    ensures { result ≡ redefining.is_meant name.now entry.now other.now }
{
    is_called(name, other) && !other.occurs.is_some() && !entry.occurs.is_some()
}

fn if_meant(name: &Word, entry: &Entry, number: usize, bases: &[Entry]) -> Option<usize>
    ensures value { result ≡ redefining.if_meant name.now entry.now number
        (slice_get bases.now number) }
    ensures within { IfSome result (λ found. found ≡ number) }
{
    match bases.get(number) {
        None => None,
        Some(other) => {
            if is_meant(name, entry, other) {
                Some(number)
            } else {
                None
            }
        }
    }
}

/// The entry that is redefined, where it may be redefined.
fn redefined(
    bases: &[Entry],
    alikes: &[Option<usize>],
    at: usize,
    entry: &Entry,
    name: &Word,
) -> Option<usize>
    requires table { alikes.now ≡ alikes_of bases.now }
    requires own { slice_get bases.now at ≡ Some entry.now }
    ensures value { result ≡ redefining.redefined bases.now at entry.now name.now }
    ensures within { IfSome result (λ number. number < length bases.now) }
{
    match alike_at(alikes, at) {
        None => None,
        Some(number) => if_meant(name, entry, number, bases),
    }
}

fn name_fault(names: &WordPlaces, name: &Word, at: Position) -> Option<Note>
    ensures { result ≡ (if list_any (bytes_eq name.now) names.now then fault_at Redefines at
        else fault_at Unknown at) }
{
    if names.has(name) {
        fault_at(NameKind::Redefines, at)
    } else {
        fault_at(NameKind::Unknown, at)
    }
}

/// The bytes of an entry.
pub fn size_at(sizes: &[u32], at: usize) -> u32
    ensures { result ≡ redefining.size_at (slice_get sizes.now at) }
{
    match sizes.get(at) {
        None => 0,
        Some(size) => *size,
    }
}

fn is_short(sizes: &[u32], at: usize, entry: &Entry, item: usize) -> bool
    ensures { result ≡ redefining.is_short sizes.now at entry.now item }
{
    entry.level == 1 || size_at(sizes, at) <= size_at(sizes, item)
}

fn redefined_fault(
    bases: &[Entry],
    sizes: &[u32],
    tables: &Tables,
    at: usize,
    entry: &Entry,
    name: &Word,
    name_at: Position,
) -> Option<Note>
    requires table { tables.now ≡ tables_of bases.now tables.now.usages }
    requires own { slice_get bases.now at ≡ Some entry.now }
    ensures { result ≡ redefining.redefined_fault bases.now sizes.now at entry.now name.now
        name_at }
{
    match redefined(bases, tables.alikes.as_slice(), at, entry, name) {
        None => name_fault(&tables.names, name, name_at),
        Some(item) => unless(
            is_short(sizes, at, entry, item),
            NameKind::Redefines,
            name_at,
        ),
    }
}

/// The fault of a REDEFINES clause.
pub fn redefines_fault(
    bases: &[Entry],
    sizes: &[u32],
    tables: &Tables,
    at: usize,
    entry: &Entry,
    clauses: &[Clause],
) -> Option<Note>
    requires table { tables.now ≡ tables_of bases.now tables.now.usages }
    requires own { slice_get bases.now at ≡ Some entry.now }
    ensures { result ≡ redefining.redefines_fault bases.now sizes.now at entry.now clauses.now }
{
    match clause_of(ClauseKind::Redefines, clauses) {
        Some(Clause::Redefines { name, name_at, .. }) => {
            redefined_fault(bases, sizes, tables, at, entry, name, *name_at)
        }
        _ => None,
    }
}

/// What an entry redefines by its clause.
pub fn redefined_in(
    bases: &[Entry],
    alikes: &[Option<usize>],
    at: usize,
    entry: &Entry,
    clauses: &[Clause],
) -> Option<usize>
    requires table { alikes.now ≡ alikes_of bases.now }
    requires own { slice_get bases.now at ≡ Some entry.now }
    ensures value { result ≡ redefining.redefined_in bases.now at entry.now clauses.now }
    ensures within { IfSome result (λ number. number < length bases.now) }
{
    match clause_of(ClauseKind::Redefines, clauses) {
        Some(Clause::Redefines { name, .. }) => redefined(bases, alikes, at, entry, name),
        _ => None,
    }
}
