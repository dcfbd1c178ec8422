//! How many ranges a structured program names.

ghost use Rattle.fixed_point_laws.specs.Ranges.{StructuredProgramsNameFew, StructuredProgramsPassNoRanges};

/// A structured program names no more ranges, main included, than it has paragraphs; so one of at
/// most 5,000 doesn't pass the limit on ranges.
pub fn structured_programs_name_few()
    ensures few { StructuredProgramsNameFew }
    ensures within { StructuredProgramsPassNoRanges }
{}
