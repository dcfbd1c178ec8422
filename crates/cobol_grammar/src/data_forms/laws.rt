//! What holds of the forms. These functions do nothing; their contracts are laws.

ghost use Rattle.std.specs.Prelude.{true};
ghost use Rattle.parser_combinators.specs.Form.{Form};
ghost use Rattle.parser_combinators.specs.Reading.{IsReader};
ghost use Rattle.parser_combinators.proofs.MakerLaws.{Law};
ghost use Rattle.cob_tree.specs.declared.place.Place.{Place};
ghost use Rattle.cobol_grammar.specs.data_forms.Data.{data_part};
ghost use Rattle.cobol_grammar.specs.data_forms.Divisions.{divisions};

/// How a status item is referred to.
pub trait Refers {
    ghost status: { Form Place };
}

/// Whatever lawful form status items have, the divisions before the PROCEDURE DIVISION read what
/// they spell and nothing else, and stop at the first token up to which the tokens aren't cut.
pub fn divisions_are_read<R: Refers>()
    ensures data_part { IsReader data_part }
    ensures divisions { Law true R.status → IsReader (divisions R.status) }
{}
