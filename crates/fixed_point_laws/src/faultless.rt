//! No flow path of a structured program comes to a fault.

ghost use Rattle.fixed_point_laws.specs.Faultless.{StructuredProgramsAreFaultless};

/// No flow path of a structured program comes to a fault.
pub fn structured_programs_are_faultless()
    ensures { StructuredProgramsAreFaultless }
{}
