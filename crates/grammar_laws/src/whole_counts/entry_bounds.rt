//! What divisions declare where no rule on files and entries is broken: the file of an entry is
//! there, what it redefines comes before it, each level 88 has a value and no picture, only a
//! signed picture has a separate sign, and only a number whose sign is within it is binary or
//! packed.
//!
//! Nothing here runs.

ghost use Rattle.grammar_laws.specs.whole_counts.entry_bounds.Laws.{EntriesAreBound};

/// Where the drafts' values are literals and no rule is broken, the file of each entry is there,
/// what it redefines comes before it, each level 88 has a value and no picture, only a signed
/// picture has a separate sign, and only a number whose sign is within it is binary or packed.
pub fn entries_are_bound()
    ensures { EntriesAreBound }
{}
