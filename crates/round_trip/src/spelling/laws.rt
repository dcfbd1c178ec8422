//! The tokens that spell the parts of statements. These functions do nothing; their contracts are
//! laws.

ghost use Rattle.round_trip.specs.spelling.Laws.{
  PartsOfAreTold,
  PartsAreSpelled,
  ProceduresAreSpelled,
  TermsHaveRoom,
  UsesAreFree,
};

/// What comes after a part doesn't belong to it, and what is kept of a part determines what the
/// tree has.
pub fn parts_are_told()
    ensures { PartsOfAreTold }
{}

/// Parts that can be printed are spelled by the tokens with which they are printed.
pub fn parts_are_spelled()
    ensures { PartsAreSpelled }
{}

/// No fault is noted of uses that fit the kinds of operands and expressions.
pub fn uses_are_free()
    ensures { UsesAreFree }
{}

/// Places and operands with few terms have room.
pub fn terms_have_room()
    ensures { TermsHaveRoom }
{}

/// The tokens with which the paragraphs of a program are printed spell them, where their parts
/// spell what they have to.
pub fn printed_procedures_are_spelled()
    ensures { ProceduresAreSpelled }
{}
