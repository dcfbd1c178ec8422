//! A program with entries of whole numbers after its own keeps the rules that it kept, and each
//! name stands for what it stood for; a name of such an entry stands for its item. Nothing here
//! runs.

ghost use Rattle.round_trip.specs.declarations.added_entries.Laws.{AddedEntriesKeepRules};
ghost use Rattle.round_trip.specs.declarations.added_entries.References.{NamesStay, AddedNamesStand};

/// Files and entries keep the rules, and names are valid.
pub fn added_entries_keep_rules()
    ensures { AddedEntriesKeepRules }
{}

/// Each other name stands for what it stood for, and what could be printed can still be printed.
pub fn names_stay()
    ensures { NamesStay }
{}

/// The name of an added item stands for it.
pub fn added_names_stand()
    ensures { AddedNamesStand }
{}
