//! Clauses by their kind.

ghost use Rattle.std.specs.Prelude.{◌≡◌};
ghost use Rattle.std.specs.List.{find, list_any};
ghost use Rattle.std.specs.Option.{option_copied};
ghost use Rattle.declaration_checks.specs.Clause as spec;

use crate::fault::fault_at;
use cobol_grammar::data_forms::Clause;
use parser_combinators::{NameKind, Note, Position};

/// The kinds of clauses of a data description entry.
#[derive(Clone, Copy, Debug)]
pub enum ClauseKind {
    Redefines,
    Picture,
    Usage,
    Sign,
    Occurs,
    Value,
}

impl ClauseKind {
    fn number(self) -> u8
        ensures { result ≡ spec.kind_number self }
    {
        match self {
            ClauseKind::Redefines => 0,
            ClauseKind::Picture => 1,
            ClauseKind::Usage => 2,
            ClauseKind::Sign => 3,
            ClauseKind::Occurs => 4,
            ClauseKind::Value => 5,
        }
    }
}

fn kind_of(clause: &Clause) -> ClauseKind
    ensures { result ≡ spec.kind_of clause.now }
{
    match clause {
        Clause::Redefines { .. } => ClauseKind::Redefines,
        Clause::Picture { .. } => ClauseKind::Picture,
        Clause::Usage { .. } => ClauseKind::Usage,
        Clause::Sign { .. } => ClauseKind::Sign,
        Clause::Occurs { .. } => ClauseKind::Occurs,
        Clause::Value { .. } => ClauseKind::Value,
    }
}

/// Where a clause begins.
pub fn position_of(clause: &Clause) -> Position
    ensures { result ≡ spec.position_of clause.now }
{
    match clause {
        Clause::Redefines { at, .. } => *at,
        Clause::Picture { at, .. } => *at,
        Clause::Usage { at, .. } => *at,
        Clause::Sign { at, .. } => *at,
        Clause::Occurs { at, .. } => *at,
        Clause::Value { at, .. } => *at,
    }
}

fn is_of(kind: ClauseKind, clause: &Clause) -> bool
    ensures { result ≡ spec.is_of kind clause.now }
{
    kind_of(clause).number() == kind.number()
}

/// The first clause of a kind.
pub fn clause_of(kind: ClauseKind, clauses: &[Clause]) -> Option<&Clause>
    ensures { option_copied result ≡ spec.clause_of kind clauses.now }
{
    clauses.iter().find(|clause| is_of(kind, clause))
}

/// Whether there is a clause of this kind.
pub fn has_clause(kind: ClauseKind, clauses: &[Clause]) -> bool
    ensures { result ≡ list_any (spec.is_of kind) clauses.now }
{
    clauses.iter().any(|clause| is_of(kind, clause))
}

/// The fault of the first clause that is there twice, at its second occurrence.
#[tactic(auto, using(crate::proofs::StepLemmas::again_from_step))]
pub fn duplicate_fault(clauses: &[Clause]) -> Option<Note>
    ensures { result ≡ spec.duplicate_fault clauses.now }
{
    for (at, clause) in clauses.iter().enumerate() {
        if has_clause(kind_of(clause), &clauses[..at]) {
            return fault_at(NameKind::Usage, position_of(clause));
        }
    }
    None
}

fn is_other(clause: &Clause) -> bool
    ensures { result ≡ spec.is_other clause.now }
{
    !is_of(ClauseKind::Value, clause)
}

/// The fault of the first clause that isn't VALUE.
pub fn other_fault(clauses: &[Clause]) -> Option<Note>
    ensures { result ≡ spec.other_fault clauses.now }
{
    match clauses.iter().find(|clause| is_other(clause)) {
        None => None,
        Some(clause) => fault_at(NameKind::Usage, position_of(clause)),
    }
}
