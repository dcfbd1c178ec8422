//! What is wrong with how a side is used.

ghost use Rattle.std.specs.Prelude.{◌≡◌};
ghost use Rattle.cobol_grammar.specs.expr_forms.Fault as faults;

use cobol_grammar::expr_forms::{Chain, ExprContent, Side, ValueKind};
use parser_combinators::{NameKind, Note, Position};
use symbol_tables::data_names::{ItemKind, Referent};

fn fault_at(kind: NameKind, position: Position) -> Option<Note>
    ensures { result ≡ faults.fault_at kind position }
{
    Some(Note { kind, position })
}

fn usage(position: Position) -> Option<Note>
    ensures { result ≡ faults.usage position }
{
    fault_at(NameKind::Usage, position)
}

/// Whether a value is a number without decimals, as far as is known.
pub fn is_whole(kind: ValueKind) -> bool
    ensures { result ≡ faults.is_whole kind }
{
    match kind {
        ValueKind::Number(whole) => whole,
        ValueKind::Unknown => true,
        _ => false,
    }
}

/// The fault of an operand of an operator or a sign.
#[tactic(auto, unfolding(cobol_grammar::specs::expr_forms::Fault::number_fault))]
pub fn number_fault(side: &Side) -> Option<Note>
    ensures { result ≡ faults.number_fault side.now }
{
    match side.kind {
        ValueKind::Number(_) | ValueKind::Unknown => None,
        _ => usage(side.leaf),
    }
}

/// The fault of what takes a result after GIVING, or of COMPUTE.
#[tactic(auto, unfolding(cobol_grammar::specs::expr_forms::Fault::result_fault))]
pub fn result_fault(side: &Side) -> Option<Note>
    ensures { result ≡ faults.result_fault side.now }
{
    match side.kind {
        ValueKind::Number(_) | ValueKind::Edited | ValueKind::Unknown => None,
        _ => usage(side.leaf),
    }
}

/// The fault of the last operand of a sum, where that operand has an operator.
pub fn last_fault(chain: &Chain) -> Option<Note>
    ensures { result ≡ faults.number_fault chain.now.last }
{
    number_fault(&chain.last)
}

/// The fault of what must be a number without decimals.
#[tactic(auto, unfolding(cobol_grammar::specs::expr_forms::Fault::whole_fault_at))]
pub fn whole_fault_at(position: Position, kind: ValueKind) -> Option<Note>
    ensures { result ≡ faults.whole_fault_at position kind }
{
    match kind {
        ValueKind::Number(whole) => { if whole { None } else { usage(position) } }
        ValueKind::Unknown => None,
        _ => usage(position),
    }
}

/// The fault of an expression of a window.
pub fn whole_fault(side: &Side) -> Option<Note>
    ensures { result ≡ faults.whole_fault side.now }
{
    whole_fault_at(side.position, side.kind)
}

/// The fault of what is compared or tested.
#[tactic(auto, unfolding(cobol_grammar::specs::expr_forms::Fault::value_fault))]
pub fn value_fault(side: &Side) -> Option<Note>
    ensures { result ≡ faults.value_fault side.now }
{
    match side.kind {
        ValueKind::Condition => usage(side.leaf),
        _ => None,
    }
}

/// The fault of what is used as a condition.
#[tactic(auto, unfolding(cobol_grammar::specs::expr_forms::Fault::condition_fault))]
pub fn condition_fault(side: &Side) -> Option<Note>
    ensures { result ≡ faults.condition_fault side.now }
{
    match side.kind {
        ValueKind::Condition | ValueKind::Unknown => None,
        _ => usage(side.leaf),
    }
}

fn inexact_fault(side: &Side) -> Option<Note>
    ensures { result ≡ faults.inexact_fault side.now.make side.now.kind side.now.position }
{
    match side.make {
        ExprContent::Joined => usage(side.position),
        _ => whole_fault_at(side.position, side.kind),
    }
}

fn compared_as(kind: ValueKind) -> ValueKind
    ensures { result ≡ faults.compared_as kind }
{
    match kind {
        ValueKind::Edited | ValueKind::Group => ValueKind::Text,
        _ => kind,
    }
}

fn kinds_fault(left: &Side, right: &Side) -> Option<Note>
    ensures { result ≡ faults.kinds_fault (faults.compared_as left.now.kind)
        (faults.compared_as right.now.kind) left.now right.now }
{
    match (compared_as(left.kind), compared_as(right.kind)) {
        (ValueKind::Text, ValueKind::Number(_)) => inexact_fault(right),
        (ValueKind::Number(_), ValueKind::Text) => inexact_fault(left),
        (ValueKind::Number(_), ValueKind::Figure) => usage(right.position),
        (ValueKind::Figure, ValueKind::Number(_)) => usage(left.position),
        _ => None,
    }
}

/// The fault of two sides of a relation.
#[tactic(auto, unfolding(cobol_grammar::specs::expr_forms::Fault::relation_fault))]
pub fn relation_fault(left: &Side, right: &Side) -> Option<Note>
    ensures { result ≡ faults.relation_fault left.now right.now }
{
    match (left.make, right.make) {
        (ExprContent::Literal, ExprContent::Literal) => usage(right.position),
        _ => kinds_fault(left, right),
    }
}

/// The entry that a reference stands for, or the first where it stands for none.
pub fn item_of(found: Referent) -> u32
    ensures { result ≡ faults.item_of found }
{
    match found {
        Referent::Item { item, .. } => item,
        _ => 0,
    }
}

fn item_kind(kind: ItemKind) -> ValueKind
    ensures { result ≡ faults.item_kind kind }
{
    match kind {
        ItemKind::Number { whole } => ValueKind::Number(whole),
        ItemKind::Text => ValueKind::Text,
        ItemKind::Edited => ValueKind::Edited,
        ItemKind::Group => ValueKind::Group,
        ItemKind::Condition => ValueKind::Condition,
    }
}

/// What a reference without window stands for.
pub fn kind_of(found: Referent) -> ValueKind
    ensures { result ≡ faults.kind_of found }
{
    match found {
        Referent::Item { kind, .. } => item_kind(kind),
        _ => ValueKind::Unknown,
    }
}

/// Whether it is the name of a level 88.
pub fn is_condition(kind: ValueKind) -> bool
    ensures { result ≡ faults.is_condition kind }
{
    match kind {
        ValueKind::Condition => true,
        _ => false,
    }
}

/// The fault of a name with so many subscripts after it, and with a window or none.
#[tactic(auto, unfolding(cobol_grammar::specs::expr_forms::Fault::found_fault))]
pub fn found_fault(found: Referent, subs: usize, windowed: bool, position: Position) -> Option<Note>
    ensures { result ≡ faults.found_fault found subs windowed position }
{
    match found {
        Referent::Unknown => fault_at(NameKind::Unknown, position),
        Referent::Ambiguous => fault_at(NameKind::Ambiguous, position),
        Referent::Item { kind, dims, .. } => {
            if dims == subs && !(is_condition(item_kind(kind)) && windowed) {
                None
            } else {
                usage(position)
            }
        }
    }
}
