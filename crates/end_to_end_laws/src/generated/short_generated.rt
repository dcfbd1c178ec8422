//! Generated programs are short: what is printed of one has no more bytes and tokens than a source
//! may have. Nothing here runs.

ghost use Rattle.end_to_end_laws.specs.generated.short_generated.Laws.{GeneratedProgramsAreShort};

/// What is printed of a generated program has at most 4,194,304 bytes, and 500,000 tokens.
pub fn generated_programs_are_short()
    ensures { GeneratedProgramsAreShort }
{}
