//! What is wrong with how operands are used in statements, and what is made of them in the tree.

ghost use Rattle.std.specs.Prelude.{◌≡◌};
ghost use Rattle.cobol_grammar.specs.expr_forms.Fault as faults;
ghost use Rattle.cobol_grammar.specs.Use as uses;

use crate::operand_uses::record::Records;
use cob_base::Items;
use cob_tree::{Figure, Operand, Place};
use cobol_grammar::SubjectKind;
use cobol_grammar::expr_forms::{ExprContent, ParsedExpr, Side, ValueKind};
use expr_parse::actions::whole_fault_at;
use parser_combinators::{NameKind, Note, Position};
use std::alloc::Global;

fn bare_place(alloc: Global) -> Place
    ensures { result ≡ uses.bare_place 0 }
{
    Place {
        item: 0,
        of: Items::new(alloc),
        subs: Items::new(alloc),
        window: None,
    }
}

/// An operand as the tree has it.
pub fn operand_of(what: ParsedExpr) -> Operand
    ensures { result ≡ uses.operand_of what }
{
    match what {
        ParsedExpr::Ref(place) => Operand::Place(place),
        ParsedExpr::Literal(operand) => operand,
        ParsedExpr::Enclosed(place) => Operand::Place(place),
        ParsedExpr::Sum(_) => Operand::Figure(Figure::Zero),
    }
}

/// A reference as the tree has it.
pub fn place_of(alloc: Global, what: ParsedExpr) -> Place
    ensures { result ≡ uses.place_of what }
{
    match what {
        ParsedExpr::Ref(place) => place,
        ParsedExpr::Literal(_) => bare_place(alloc),
        ParsedExpr::Enclosed(place) => place,
        ParsedExpr::Sum(_) => bare_place(alloc),
    }
}

/// The item that a reference names.
pub fn entry_of(side: &Side) -> u32
    ensures { result ≡ uses.entry_of side.now.what }
{
    match &side.what {
        ParsedExpr::Ref(place) => place.item,
        ParsedExpr::Literal(_) => 0,
        ParsedExpr::Enclosed(place) => place.item,
        ParsedExpr::Sum(_) => 0,
    }
}

fn usage(position: Position) -> Option<Note>
    ensures { result ≡ faults.usage position }
{
    Some(Note {
        kind: NameKind::Usage,
        position,
    })
}

fn unless_whole(whole: bool, position: Position) -> Option<Note>
    ensures { result ≡ uses.unless_whole whole position }
{
    if whole { None } else { usage(position) }
}

fn to_group_fault(make: ExprContent, whole: bool, position: Position) -> Option<Note>
    ensures { result ≡ uses.to_group_fault make whole position }
{
    match make {
        ExprContent::Literal => unless_whole(whole, position),
        _ => None,
    }
}

fn number_moved(make: ExprContent, whole: bool, to: ValueKind, position: Position) -> Option<Note>
    ensures { result ≡ uses.number_moved make whole to position }
{
    match to {
        ValueKind::Text => unless_whole(whole, position),
        ValueKind::Group => to_group_fault(make, whole, position),
        _ => None,
    }
}

fn to_number_fault(to: ValueKind, position: Position) -> Option<Note>
    ensures { result ≡ uses.to_number_fault to position }
{
    match to {
        ValueKind::Number(_) => usage(position),
        _ => None,
    }
}

fn moved_fault(
    make: ExprContent,
    from: ValueKind,
    to: ValueKind,
    position: Position,
) -> Option<Note>
    ensures { result ≡ uses.moved_fault make from to position }
{
    match from {
        ValueKind::Number(whole) => number_moved(make, whole, to, position),
        ValueKind::Edited | ValueKind::Figure => to_number_fault(to, position),
        _ => None,
    }
}

/// The fault of a MOVE, where it has one.
pub fn move_fault(from: &Side, to: &Side) -> Option<Note>
    ensures { result ≡ uses.move_fault from.now to.now }
{
    moved_fault(from.make, from.kind, to.kind, from.position)
}

/// What is kept of a subject of EVALUATE.
pub fn known_of(side: &Side) -> SubjectKind
    ensures { result ≡ uses.known_of side.now }
{
    SubjectKind {
        kind: side.kind,
        make: side.make,
        position: side.position,
    }
}

/// The fault of a move of a file's first record, where it has one.
pub fn into_fault(records: &Records<'_>, file: Option<u32>, to: &Side) -> Option<Note>
    ensures { result ≡ uses.into_fault records.now file to.now }
{
    match file {
        None => None,
        Some(file) => moved_fault(ExprContent::Item, records.kind(file), to.kind, to.position),
    }
}

fn inexact_fault(make: ExprContent, kind: ValueKind, position: Position) -> Option<Note>
    ensures { result ≡ faults.inexact_fault make kind position }
{
    match make {
        ExprContent::Joined => usage(position),
        _ => whole_fault_at(position, kind),
    }
}

fn compared_as(kind: ValueKind) -> ValueKind
    ensures { result ≡ faults.compared_as kind }
{
    match kind {
        ValueKind::Edited | ValueKind::Group => ValueKind::Text,
        _ => kind,
    }
}

fn compared_fault(
    left: ValueKind,
    right: ValueKind,
    known: &SubjectKind,
    side: &Side,
) -> Option<Note>
    ensures { result ≡ uses.compared_fault left right known.now side.now }
{
    match (left, right) {
        (ValueKind::Text, ValueKind::Number(_)) => {
            inexact_fault(side.make, side.kind, side.position)
        }
        (ValueKind::Number(_), ValueKind::Text) => {
            inexact_fault(known.make, known.kind, known.position)
        }
        (ValueKind::Number(_), ValueKind::Figure) => usage(side.position),
        (ValueKind::Figure, ValueKind::Number(_)) => usage(known.position),
        _ => None,
    }
}

/// The fault of comparing a subject of EVALUATE with this, where there is one.
#[tactic(auto, unfolding(cobol_grammar::specs::Use::subject_fault))]
pub fn subject_fault(known: &SubjectKind, side: &Side) -> Option<Note>
    ensures { result ≡ uses.subject_fault known.now side.now }
{
    compared_fault(compared_as(known.kind), compared_as(side.kind), known, side)
}
