//! A field with its digits taken apart.

ghost use Rattle.std.specs.Prelude.{◌≡◌, ◌≤◌, slice_get};
ghost use Rattle.edit_fields.specs.Field as fields;

use crate::field::Field;
use std::marker::Model;

/// A field with each digit taken from its number once.
///
/// Contracts see the field.
#[derive(Drop)]
pub struct Figure {
    field: Field,
    // From the right.
    numerals: [u8; 20],
}

impl Model for Figure {
    ghost use Rattle.edit_fields.specs.declared.field.Field.{Field};

    ghost Value = { Field };

    ghost use Rattle.edit_fields.specs.Figure.{the_field, IsTakenApart};

    ghost view = { the_field };

    ghost invariant = { IsTakenApart };
}

// The digits of a number, from the right.
#[inline(always)]
fn numerals_of(number: u64) -> [u8; 20]
    ensures { result ≡ fields.numerals 20 number }
{
    let mut numerals = [0; 20];
    let mut rest = number;
    for place in 0..20 {
        if rest == 0 {
            return numerals;
        }
        numerals[place] = (rest % 10) as u8;
        rest /= 10;
    }
    numerals
}

#[inline(always)]
fn numeral_at(numerals: &[u8], right: usize) -> Option<u8>
    ensures { result ≡ slice_get numerals.now right }
{
    numerals.get(right).copied()
}

impl Figure {
    /// The figure of a field.
    #[inline(always)]
    pub fn of(field: Field) -> Figure
        ensures { result ≡ field }
    {
        Figure {
            field,
            numerals: numerals_of(field.number),
        }
    }

    /// The field itself.
    #[inline(always)]
    pub fn field(&self) -> Field
        ensures { result ≡ self.now }
    {
        self.field
    }

    /// The digit that has so many digits to the right of it.
    #[inline(always)]
    pub fn digit(&self, right: usize) -> u8
        ensures digit { result ≡ fields.digit_of right self.now.number }
        ensures short { result ≤ 9 }
    {
        match numeral_at(&self.numerals, right) {
            Some(numeral) => numeral,
            None => 0,
        }
    }
}
