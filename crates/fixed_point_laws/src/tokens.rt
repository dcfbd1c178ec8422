//! How many tokens a program is printed as.

ghost use Rattle.fixed_point_laws.specs.Tokens.{EachPartIsAToken};

/// A program whose paragraphs have names is printed as at least a token for each paragraph and for
/// each statement.
pub fn each_part_is_a_token()
    ensures { EachPartIsAToken }
{}
