//! The control of a program: statements that act, choices with their arms, loops, PERFORM and the
//! jumps, over the tree's own parts.
//!
//! `specs/language/Language.antt` has the types, `specs/language/Control.antt` the fold that takes
//! a program of the tree to them, and `specs/language/Items.antt` what is still to do at a place
//! and the returns that are pending. There is no code here: the functions state that the fold loses
//! nothing, and for which programs.

ghost use Rattle.control_flow_theory.specs.language.Laws.{ControlLosesNothing, OwnItemsAlone, SourceControlLosesNothing};

/// Two programs with the same control have the same statements, sentence by sentence: where it
/// holds no word on an added item, and so where each item number of one of them is below 2^31.
pub fn control_loses_nothing()
    ensures any { ControlLosesNothing }
    ensures source { SourceControlLosesNothing }
{}

/// A program whose item numbers are all below 2^31 has no word on an added item.
pub fn own_items_make_no_added_words()
    ensures { OwnItemsAlone }
{}
