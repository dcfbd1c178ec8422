//! Usages, which groups hand down to what is in them, and the rules on them.

ghost use Rattle.std.specs.Prelude.{◌≡◌, ◌++◌, slice_get, Some, OnOk};
ghost use Rattle.cob_base.specs.Answers.{Makes};
ghost use Rattle.symbol_tables.specs.data_names.Nesting.{nestings_of};
ghost use Rattle.declaration_checks.specs.Clause.{clause_of as first_clause};
ghost use Rattle.declaration_checks.specs.Standing.{before, holder_of};
ghost use Rattle.declaration_checks.specs.declared.clause.ClauseKind.TheVariants.{Sign as SignKind, Usage as UsageKind};
ghost use Rattle.declaration_checks.specs.Usage as rules;

use crate::clause::{ClauseKind, clause_of, position_of};
use crate::fault::{first_of, unless};
use cob_base::{Items, NoMemory};
use cob_tree::{Entry, Picture, Usage};
use cobol_grammar::data_forms::{Clause, DataDraft, EntryDraft, FdDraft};
use parser_combinators::{NameKind, Note, Position};
use std::alloc::Global;
use symbol_tables::data_names::{Nesting, nesting_at};

/// The usage of an entry by its own USAGE clause.
fn own_usage(clauses: &[Clause]) -> Option<Usage>
    ensures { result ≡ rules.own_usage clauses.now }
{
    match clause_of(ClauseKind::Usage, clauses) {
        Some(Clause::Usage { usage, .. }) => Some(*usage),
        _ => None,
    }
}

fn usage_by(above: Option<Usage>, own: Option<Usage>) -> Option<Usage>
    ensures { result ≡ rules.usage_by above own }
{
    match above {
        None => own,
        Some(usage) => Some(usage),
    }
}

fn entry_usage(entry: &Entry, above: Option<Usage>, own: Option<Usage>) -> Option<Usage>
    ensures { result ≡ rules.entry_usage entry.now above own }
{
    if entry.level == 88 {
        None
    } else {
        usage_by(above, own)
    }
}

/// The usage of the entry of this number, by its clause or handed down to it.
pub fn found_usage(usages: &[Option<Usage>], at: usize) -> Option<Usage>
    ensures { result ≡ rules.found_usage (slice_get usages.now at) }
{
    match usages.get(at) {
        None => None,
        Some(usage) => *usage,
    }
}

/// What is handed down by the item or group of this number, if there is one.
pub fn usage_above(usages: &[Option<Usage>], holder: Option<usize>) -> Option<Usage>
    ensures { result ≡ rules.usage_above usages.now holder }
{
    match holder {
        None => None,
        Some(item) => found_usage(usages, item),
    }
}

// The usage of the entry of this number, where those before it have these.
fn next_usage(
    bases: &[Entry],
    nestings: &[Nesting],
    usages: &[Option<Usage>],
    at: usize,
    entry: &Entry,
    own: Option<Usage>,
) -> Option<Usage>
    requires table { nestings.now ≡ nestings_of bases.now }
    requires entry { slice_get bases.now at ≡ Some entry.now }
    ensures { result ≡ rules.entry_usage entry.now
        (rules.usage_above usages.now (holder_of entry.now (before bases.now at))) own }
{
    let above = usage_above(usages, nesting_at(nestings, at).holder);
    entry_usage(entry, above, own)
}

fn hand(
    bases: &[Entry],
    nestings: &[Nesting],
    usages: &mut Items<Option<Usage>>,
    own: &Option<Usage>,
) -> Result<(), NoMemory>
    requires table { nestings.now ≡ nestings_of bases.now }
    ensures { OnOk result (usages.new ≡ rules.handed bases.now usages.old own.now) }
{
    let at = usages.len();
    match bases.get(at) {
        None => Ok(()),
        Some(entry) => usages.push(next_usage(bases, nestings, usages.as_slice(), at, entry, *own)),
    }
}

/// The usages of entries that have these of their own.
pub fn usages_of(
    alloc: Global,
    bases: &[Entry],
    nestings: &[Nesting],
    owns: &[Option<Usage>],
) -> Result<Items<Option<Usage>>, NoMemory>
    requires table { nestings.now ≡ nestings_of bases.now }
    ensures { Makes (rules.usages_of bases.now owns.now) result }
{
    let mut usages = Items::new(alloc);
    for own in owns {
        hand(bases, nestings, &mut usages, own)?;
    }
    Ok(usages)
}

fn add_usages(owns: &mut Items<Option<Usage>>, drafts: &[EntryDraft]) -> Result<(), NoMemory>
    ensures { OnOk result (owns.new ≡ owns.old ++ rules.section_usages drafts.now) }
{
    for draft in drafts {
        owns.push(own_usage(draft.clauses.as_slice()))?;
    }
    Ok(())
}

#[tactic(auto, using(crate::proofs::UsageLemmas::record_usages_step))]
fn record_usages(alloc: Global, fds: &[FdDraft]) -> Result<Items<Option<Usage>>, NoMemory>
    ensures { Makes (rules.record_usages fds.now) result }
{
    let mut owns = Items::new(alloc);
    for fd in fds {
        add_usages(&mut owns, fd.entries.as_slice())?;
    }
    Ok(owns)
}

/// The usages of a program's entries by their own clauses.
pub fn own_usages(alloc: Global, data_part: &DataDraft) -> Result<Items<Option<Usage>>, NoMemory>
    ensures { Makes (rules.own_usages data_part.now) result }
{
    let mut owns = record_usages(alloc, data_part.fds.as_slice())?;
    add_usages(&mut owns, data_part.storage.as_slice())?;
    Ok(owns)
}

fn same_usage(usage: Usage, other: Usage) -> bool
    ensures { result ≡ rules.same_usage usage other }
{
    match usage {
        Usage::Display => matches!(other, Usage::Display),
        Usage::Binary => matches!(other, Usage::Binary),
        Usage::Packed => matches!(other, Usage::Packed),
    }
}

fn is_computational(usage: Option<Usage>) -> bool
    ensures { result ≡ rules.is_computational usage }
{
    match usage {
        Some(Usage::Binary) => true,
        Some(Usage::Packed) => true,
        _ => false,
    }
}

fn may_compute(picture: Option<Picture>) -> bool
    ensures { result ≡ rules.may_compute picture }
{
    match picture {
        None => true,
        Some(Picture::Number { .. }) => true,
        Some(_) => false,
    }
}

fn other_usage(above: Option<Usage>, clauses: &[Clause]) -> Option<Note>
    ensures { result ≡ rules.other_usage above (first_clause UsageKind clauses.now) }
{
    match above {
        None => None,
        Some(above) => match clause_of(ClauseKind::Usage, clauses) {
            Some(Clause::Usage { at, usage }) => {
                unless(same_usage(*usage, above), NameKind::Usage, *at)
            }
            _ => None,
        },
    }
}

fn usage_place(at: Position, clauses: &[Clause]) -> Position
    ensures { result ≡ rules.usage_place at (first_clause UsageKind clauses.now) }
{
    match clause_of(ClauseKind::Usage, clauses) {
        None => at,
        Some(clause) => position_of(clause),
    }
}

fn form_fault(
    picture: Option<Picture>,
    group: bool,
    usage: Option<Usage>,
    place: Position,
) -> Option<Note>
    ensures { result ≡ rules.form_fault picture group usage place }
{
    unless(
        group || may_compute(picture) || !is_computational(usage),
        NameKind::Usage,
        place,
    )
}

fn beside_fault(usage: Option<Usage>, clauses: &[Clause]) -> Option<Note>
    ensures { result ≡ rules.beside_fault usage (first_clause SignKind clauses.now) }
{
    match clause_of(ClauseKind::Sign, clauses) {
        None => None,
        Some(clause) => unless(
            !is_computational(usage),
            NameKind::Usage,
            position_of(clause),
        ),
    }
}

/// The fault of an entry's usage, where `above` is handed down to it; `at` is the entry's position.
pub fn usage_fault(
    picture: Option<Picture>,
    group: bool,
    above: Option<Usage>,
    at: Position,
    clauses: &[Clause],
) -> Option<Note>
    ensures { result ≡ rules.usage_fault picture group above at clauses.now }
{
    let usage = usage_by(above, own_usage(clauses));
    let other = other_usage(above, clauses);
    let form = form_fault(picture, group, usage, usage_place(at, clauses));
    first_of(first_of(other, form), beside_fault(usage, clauses))
}
