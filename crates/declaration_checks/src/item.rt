//! The rules on an entry's level, picture, sign and repetitions.

ghost use Rattle.std.specs.Prelude.{◌≡◌};
ghost use Rattle.declaration_checks.specs.Item as items;

use crate::base::{is_count, number_of};
use crate::clause::{ClauseKind, clause_of};
use crate::fault::{first_of, unless};
use cob_tree::Picture;
use cobol_grammar::data_forms::Clause;
use parser_combinators::{NameKind, Note, Position};

/// Whether an entry of this level may be in this item or group, or in none.
pub fn level_stands(level: u8, holder: Option<usize>) -> bool
    ensures { result ≡ items.level_stands level holder }
{
    level == 1 || level == 77 || (level != 0 && holder.is_some())
}

/// The fault of an entry's picture. `at` is the position of the entry.
pub fn picture_fault(
    picture: Option<Picture>,
    group: bool,
    at: Position,
    clauses: &[Clause],
) -> Option<Note>
    ensures { result ≡ items.picture_fault picture group at clauses.now }
{
    match clause_of(ClauseKind::Picture, clauses) {
        Some(Clause::Picture { text_at, .. }) => unless(
            !group && picture.is_some(),
            NameKind::Picture,
            *text_at,
        ),
        _ => unless(group, NameKind::Picture, at),
    }
}

fn is_signed(picture: Option<Picture>) -> bool
    ensures { result ≡ items.is_signed picture }
{
    match picture {
        Some(Picture::Number { signed, .. }) => signed,
        _ => false,
    }
}

fn sign_stands(signed: bool, leading: bool, separate: bool) -> bool
    ensures { result ≡ items.sign_stands signed leading separate }
{
    if separate { signed } else { !leading }
}

/// The fault of a SIGN clause.
pub fn sign_fault(picture: Option<Picture>, group: bool, clauses: &[Clause]) -> Option<Note>
    ensures { result ≡ items.sign_fault picture group clauses.now }
{
    match clause_of(ClauseKind::Sign, clauses) {
        Some(
            Clause::Sign {
                at,
                leading,
                separate,
            },
        ) => unless(
            sign_stands(!group && is_signed(picture), *leading, *separate),
            NameKind::Usage,
            *at,
        ),
        _ => None,
    }
}

fn may_repeat(level: u8, dims: usize) -> bool
    ensures { result ≡ items.may_repeat level dims }
{
    level != 1 && level != 77 && dims <= 2
}

/// The fault of an OCCURS clause, where so many groups above repeat.
pub fn occurs_fault(level: u8, dims: usize, clauses: &[Clause]) -> Option<Note>
    ensures { result ≡ items.occurs_fault level dims clauses.now }
{
    match clause_of(ClauseKind::Occurs, clauses) {
        Some(
            Clause::Occurs {
                at,
                count,
                count_at,
            },
        ) => first_of(
            unless(may_repeat(level, dims), NameKind::Usage, *at),
            unless(
                is_count(number_of(count.as_slice())),
                NameKind::Usage,
                *count_at,
            ),
        ),
        _ => None,
    }
}
