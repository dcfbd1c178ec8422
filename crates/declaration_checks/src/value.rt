//! The rules on VALUE.

ghost use Rattle.std.specs.Prelude.{◌≡◌};
ghost use Rattle.declaration_checks.specs.Value as values;

use crate::clause::{ClauseKind, clause_of};
use crate::fault::{fault_at, first_of, unless};
use crate::literal::{LiteralTarget, fits};
use cob_tree::Entry;
use cobol_grammar::data_forms::{Clause, SpanDraft, ThruDraft};
use parser_combinators::{NameKind, Note, Position};

/// The fault of a level 88 without values, at its first token.
pub fn missing_fault(at: Position, clauses: &[Clause]) -> Option<Note>
    ensures { result ≡ values.missing_fault at clauses.now }
{
    match clause_of(ClauseKind::Value, clauses) {
        None => fault_at(NameKind::Value, at),
        Some(_) => None,
    }
}

fn to_fault(target: &LiteralTarget, thru: &Option<ThruDraft>) -> Option<Note>
    ensures { result ≡ values.to_fault target.now thru.now }
{
    match thru {
        None => None,
        Some(thru) => unless(fits(&thru.to, target), NameKind::Value, thru.to_at),
    }
}

fn span_fault(target: &LiteralTarget, span: &SpanDraft) -> Option<Note>
    ensures { result ≡ values.span_fault target.now span.now }
{
    first_of(
        unless(fits(&span.from, target), NameKind::Value, span.from_at),
        to_fault(target, &span.thru),
    )
}

/// The fault of the values of a level 88.
#[tactic(auto, using(crate::proofs::StepLemmas::fold_step))]
pub fn spans_fault(target: &LiteralTarget, spans: &[SpanDraft]) -> Option<Note>
    ensures { result ≡ values.spans_fault target.now spans.now }
{
    let mut fault = None;
    for span in spans {
        fault = first_of(fault, span_fault(target, span));
    }
    fault
}

fn may_have_value(entry: &Entry, group: bool, barred: bool) -> bool
    ensures { result ≡ values.may_have_value entry.now group barred }
{
    !(entry.file.is_some() || entry.redefines.is_some() || (group && entry.occurs.is_some()))
        && !barred
}

fn thru_fault(thru: &Option<ThruDraft>) -> Option<Note>
    ensures { result ≡ values.thru_fault thru.now }
{
    match thru {
        None => None,
        Some(thru) => fault_at(NameKind::Value, thru.at),
    }
}

fn second_fault(spans: &[SpanDraft]) -> Option<Note>
    ensures { result ≡ values.second_fault spans.now }
{
    match spans {
        [] => None,
        [span, ..] => fault_at(NameKind::Value, span.from_at),
    }
}

fn literals_fault(target: &LiteralTarget, spans: &[SpanDraft]) -> Option<Note>
    ensures { result ≡ values.literals_fault target.now spans.now }
{
    match spans {
        [] => None,
        [span, others @ ..] => first_of(
            first_of(
                unless(fits(&span.from, target), NameKind::Value, span.from_at),
                thru_fault(&span.thru),
            ),
            second_fault(others),
        ),
    }
}

/// The fault of an item's VALUE clause; `barred` says that a group above it bars one.
pub fn value_fault(
    entry: &Entry,
    target: &LiteralTarget,
    barred: bool,
    clauses: &[Clause],
) -> Option<Note>
    ensures { result ≡ values.value_fault entry.now target.now barred clauses.now }
{
    match clause_of(ClauseKind::Value, clauses) {
        Some(Clause::Value { at, spans }) => first_of(
            unless(
                may_have_value(entry, target.group, barred),
                NameKind::Value,
                *at,
            ),
            literals_fault(target, spans.as_slice()),
        ),
        _ => None,
    }
}
