//! Relation signs.

ghost use Rattle.std.specs.Prelude.{◌≡◌};
ghost use Rattle.parser_combinators.specs.Reading.{Reads};
ghost use Rattle.cobol_grammar.specs.cond_forms.Relation as relations;

use crate::test_words::token::rel_token;
use cob_tree::Rel;
use parser_combinators::{Cursor, Unread};

fn opposite(rel: Rel) -> Rel
    ensures { result ≡ relations.opposite rel }
{
    match rel {
        Rel::Equal => Rel::NotEqual,
        Rel::NotEqual => Rel::Equal,
        Rel::Less => Rel::GreaterEqual,
        Rel::Greater => Rel::LessEqual,
        Rel::LessEqual => Rel::Greater,
        Rel::GreaterEqual => Rel::Less,
    }
}

fn signed(negated: bool, rel: Rel) -> Rel
    ensures { result ≡ relations.signed negated rel }
{
    if negated { opposite(rel) } else { rel }
}

#[tactic(auto, unfolding(cobol_grammar::specs::cond_forms::Relation::or_equal))]
fn or_equal(cursor: &mut Cursor<'_>, negated: bool, narrow: Rel, wide: Rel) -> Result<Rel, Unread>
    ensures { Reads ((relations.or_equal negated narrow wide).reads cursor.old)
        result cursor.new }
{
    if negated {
        return Ok(opposite(narrow));
    }
    if cursor.sees(b"OR") {
        cursor.key(b"OR")?;
        cursor.key(b"EQUAL")?;
        cursor.maybe(b"TO");
        Ok(wide)
    } else {
        Ok(narrow)
    }
}

#[tactic(auto, unfolding(cobol_grammar::specs::cond_forms::Relation::equal))]
fn equal(cursor: &mut Cursor<'_>, negated: bool) -> Result<Rel, Unread>
    ensures { Reads ((relations.equal negated).reads cursor.old) result cursor.new }
{
    cursor.key(b"EQUAL")?;
    cursor.maybe(b"TO");
    Ok(signed(negated, Rel::Equal))
}

#[tactic(auto, unfolding(cobol_grammar::specs::cond_forms::Relation::ordered))]
fn ordered(
    cursor: &mut Cursor<'_>,
    word: &[u8],
    negated: bool,
    narrow: Rel,
    wide: Rel,
) -> Result<Rel, Unread>
    ensures { Reads ((relations.ordered word.now negated narrow wide).reads cursor.old)
        result cursor.new }
{
    cursor.key(word)?;
    cursor.maybe(b"THAN");
    or_equal(cursor, negated, narrow, wide)
}

#[tactic(auto, unfolding(cobol_grammar::specs::cond_forms::Relation::sign_rel))]
fn sign_rel(cursor: &mut Cursor<'_>, negated: bool) -> Result<Rel, Unread>
    ensures { Reads ((relations.sign_rel negated).reads cursor.old) result cursor.new }
{
    let rel = rel_token(cursor)?;
    Ok(signed(negated, rel))
}

#[tactic(auto, unfolding(cobol_grammar::specs::cond_forms::Relation::other_rel))]
fn other_rel(cursor: &mut Cursor<'_>, negated: bool) -> Result<Rel, Unread>
    ensures { Reads ((relations.other_rel negated).reads cursor.old) result cursor.new }
{
    if cursor.sees(b"LESS") {
        ordered(cursor, b"LESS", negated, Rel::Less, Rel::LessEqual)
    } else {
        sign_rel(cursor, negated)
    }
}

/// Reads a relation sign, which comes after NOT where `negated` says so.
#[tactic(auto, unfolding(cobol_grammar::specs::cond_forms::Relation::rel))]
pub fn rel(cursor: &mut Cursor<'_>, negated: bool) -> Result<Rel, Unread>
    ensures { Reads ((relations.rel negated).reads cursor.old) result cursor.new }
{
    if cursor.sees(b"EQUAL") {
        equal(cursor, negated)
    } else if cursor.sees(b"GREATER") {
        ordered(cursor, b"GREATER", negated, Rel::Greater, Rel::GreaterEqual)
    } else {
        other_rel(cursor, negated)
    }
}
