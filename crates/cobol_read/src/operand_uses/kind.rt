//! What an entry holds.

ghost use Rattle.std.specs.Prelude.{◌≡◌};
ghost use Rattle.symbol_tables.specs.data_names.Names as names;
ghost use Rattle.cobol_grammar.specs.expr_forms.Fault as faults;

use cob_tree::{Entry, Picture};
use cobol_grammar::expr_forms::ValueKind;
use symbol_tables::data_names::{ItemKind, is_group};

fn picture_kind(picture: Option<Picture>) -> ItemKind
    ensures { result ≡ names.picture_kind picture }
{
    match picture {
        Some(Picture::Number { part, .. }) => ItemKind::Number { whole: part == 0 },
        Some(Picture::Edited(_)) => ItemKind::Edited,
        _ => ItemKind::Text,
    }
}

/// What an entry holds; those after it show whether it is a group.
pub fn kind_of(entry: &Entry, behind: &[Entry]) -> ItemKind
    ensures { result ≡ names.kind_of entry.now behind.now }
{
    if entry.level == 88 {
        ItemKind::Condition
    } else if is_group(entry, behind) {
        ItemKind::Group
    } else {
        picture_kind(entry.picture)
    }
}

/// The kind of value that an item of this kind has.
pub fn item_kind(kind: ItemKind) -> ValueKind
    ensures { result ≡ faults.item_kind kind }
{
    match kind {
        ItemKind::Number { whole } => ValueKind::Number(whole),
        ItemKind::Text => ValueKind::Text,
        ItemKind::Edited => ValueKind::Edited,
        ItemKind::Group => ValueKind::Group,
        ItemKind::Condition => ValueKind::Condition,
    }
}
