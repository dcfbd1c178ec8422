//! What holds of the generated programs. These functions do nothing; their contracts are laws.

ghost use Rattle.end_to_end_laws.specs.generated.Laws.{
  GeneratedProgramsArePrintable,
  GeneratedProgramsAreTitled,
  GeneratedProgramsKeepRules,
  GeneratedProgramsHaveProcedures,
  GeneratedProgramsAreSpelled,
};

/// Generated programs can be printed.
pub fn generated_programs_are_printable()
    ensures { GeneratedProgramsArePrintable }
{}

/// The names of generated programs are valid names, and the value of the counter is a literal.
pub fn generated_programs_are_titled()
    ensures { GeneratedProgramsAreTitled }
{}

/// The entry of the counter, which is in working storage, keeps the rules.
pub fn generated_programs_keep_rules()
    ensures { GeneratedProgramsKeepRules }
{}

/// Each paragraph of a generated program is found by its name.
pub fn generated_programs_have_procedures()
    ensures { GeneratedProgramsHaveProcedures }
{}

/// The tokens with which the paragraphs of generated programs are printed spell them, with their
/// own names and procedures.
pub fn generated_programs_are_spelled()
    ensures { GeneratedProgramsAreSpelled }
{}
