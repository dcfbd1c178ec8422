//! What divisions declare where no rule on files and entries is broken: each entry has a level, the
//! first isn't a level 88, values are literals, and status items are named. Nothing here runs.

ghost use Rattle.grammar_laws.specs.well_scoped.named_entries.Laws.{EntriesAreNamed};

/// Where the drafts' status items are named and their values are literals, and no rule is broken,
/// the same holds of what they declare.
pub fn entries_are_named()
    ensures { EntriesAreNamed }
{}
