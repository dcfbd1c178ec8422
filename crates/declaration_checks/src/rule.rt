//! The rules on an entry.

ghost use Rattle.std.specs.Prelude.{◌≡◌, ◌<◌, ◌^◌, Some, length, slice_get};
ghost use Rattle.std.specs.Option.{option_copied};
ghost use Rattle.symbol_tables.specs.data_names.Nesting.{nestings_of};
ghost use Rattle.declaration_checks.specs.Rule as rules;
ghost use Rattle.declaration_checks.specs.Tables.{tables_of};

use crate::base::spans_of;
use crate::clause::{duplicate_fault, other_fault};
use crate::fault::{fault_at, first_of};
use crate::item::{level_stands, occurs_fault, picture_fault, sign_fault};
use crate::literal::LiteralTarget;
use crate::redefining::{redefines_fault, size_at};
use crate::standing::{Standing, standing_of};
use crate::table::Tables;
use crate::usage::{usage_above, usage_fault};
use crate::value::{missing_fault, spans_fault, value_fault};
use cob_tree::{Entry, Usage};
use cobol_grammar::data_forms::EntryDraft;
use parser_combinators::{NameKind, Note};
use symbol_tables::data_names::{Nesting, nesting_at};

/// What a literal for this entry has to fit.
fn target_by(group: bool, sizes: &[u32], at: usize, entry: &Entry) -> LiteralTarget
    ensures { result ≡ rules.target_by group sizes.now at entry.now }
{
    LiteralTarget {
        group,
        picture: entry.picture,
        size: size_at(sizes, at),
    }
}

fn base_at(bases: &[Entry], at: usize) -> Option<&Entry>
    ensures { option_copied result ≡ slice_get bases.now at }
{
    bases.get(at)
}

fn fits_at(
    bases: &[Entry],
    sizes: &[u32],
    nestings: &[Nesting],
    draft: &EntryDraft,
    item: usize,
) -> Option<Note>
    requires { nestings.now ≡ nestings_of bases.now }
    ensures { result ≡ rules.fits_at bases.now sizes.now draft.now item (slice_get bases.now item) }
{
    match base_at(bases, item) {
        None => None,
        Some(entry) => spans_fault(
            &target_by(nesting_at(nestings, item).group, sizes, item, entry),
            spans_of(draft.clauses.as_slice()),
        ),
    }
}

fn fits_fault(
    bases: &[Entry],
    sizes: &[u32],
    nestings: &[Nesting],
    draft: &EntryDraft,
    item: Option<usize>,
) -> Option<Note>
    requires { nestings.now ≡ nestings_of bases.now }
    ensures { result ≡ rules.fits_fault bases.now sizes.now draft.now item }
{
    match item {
        None => None,
        Some(item) => fits_at(bases, sizes, nestings, draft, item),
    }
}

fn condition_fault(
    bases: &[Entry],
    sizes: &[u32],
    nestings: &[Nesting],
    draft: &EntryDraft,
    item: Option<usize>,
) -> Option<Note>
    requires { nestings.now ≡ nestings_of bases.now }
    ensures { result ≡ rules.condition_fault bases.now sizes.now draft.now item }
{
    let clauses = draft.clauses.as_slice();
    let again = first_of(duplicate_fault(clauses), other_fault(clauses));
    let missing = first_of(again, missing_fault(draft.at, clauses));
    first_of(missing, fits_fault(bases, sizes, nestings, draft, item))
}

fn clauses_fault(
    entry: &Entry,
    target: &LiteralTarget,
    standing: Standing,
    above: Option<Usage>,
    draft: &EntryDraft,
) -> Option<Note>
    ensures { result ≡ rules.clauses_fault entry.now target.now standing above draft.now }
{
    let clauses = draft.clauses.as_slice();
    let again = duplicate_fault(clauses);
    let picture = picture_fault(entry.picture, target.group, draft.at, clauses);
    let usage = usage_fault(entry.picture, target.group, above, draft.at, clauses);
    let sign = sign_fault(entry.picture, target.group, clauses);
    let occurs = occurs_fault(entry.level, standing.dims, clauses);
    let value = value_fault(entry, target, standing.barred, clauses);
    let pictured = first_of(first_of(again, picture), usage);
    first_of(first_of(first_of(pictured, sign), occurs), value)
}

fn item_fault(
    bases: &[Entry],
    sizes: &[u32],
    tables: &Tables,
    at: usize,
    entry: &Entry,
    draft: &EntryDraft,
) -> Option<Note>
    requires short { length bases.now < 2 ^ 31 }
    requires table { tables.now ≡ tables_of bases.now tables.now.usages }
    requires own { slice_get bases.now at ≡ Some entry.now }
    ensures { result
        ≡ rules.item_fault bases.now sizes.now tables.now.usages at entry.now draft.now }
{
    let nestings = tables.nestings.as_slice();
    let nesting = nesting_at(nestings, at);
    let target = target_by(nesting.group, sizes, at, entry);
    let standing = standing_of(bases, nestings, nesting.holder);
    let above = usage_above(tables.usages.as_slice(), nesting.holder);
    first_of(
        clauses_fault(entry, &target, standing, above, draft),
        redefines_fault(bases, sizes, tables, at, entry, draft.clauses.as_slice()),
    )
}

fn held_fault(
    bases: &[Entry],
    sizes: &[u32],
    tables: &Tables,
    at: usize,
    entry: &Entry,
    draft: &EntryDraft,
    holder: Option<usize>,
) -> Option<Note>
    requires short { length bases.now < 2 ^ 31 }
    requires table { tables.now ≡ tables_of bases.now tables.now.usages }
    requires own { slice_get bases.now at ≡ Some entry.now }
    ensures { result
        ≡ rules.held_fault bases.now sizes.now tables.now.usages at entry.now draft.now holder }
{
    if !level_stands(entry.level, holder) {
        return fault_at(NameKind::Level, draft.at);
    }
    if entry.level == 88 {
        condition_fault(bases, sizes, tables.nestings.as_slice(), draft, holder)
    } else {
        item_fault(bases, sizes, tables, at, entry, draft)
    }
}

/// The first fault of an entry.
pub fn entry_fault(
    bases: &[Entry],
    sizes: &[u32],
    tables: &Tables,
    at: usize,
    entry: &Entry,
    draft: &EntryDraft,
) -> Option<Note>
    requires short { length bases.now < 2 ^ 31 }
    requires table { tables.now ≡ tables_of bases.now tables.now.usages }
    requires own { slice_get bases.now at ≡ Some entry.now }
    ensures { result
        ≡ rules.entry_fault bases.now sizes.now tables.now.usages at entry.now draft.now }
{
    let holder = nesting_at(tables.nestings.as_slice(), at).holder;
    held_fault(bases, sizes, tables, at, entry, draft, holder)
}
