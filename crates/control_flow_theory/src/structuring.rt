//! Closing a range's graph: a loop with a flag, one with several exits, the dispatch, and all rules
//! in their order.
//!
//! The first three are cases of one lemma: nodes become a loop whose turns walk their trees and
//! leave a number in a cell (`specs/structuring/Gathers.antt`). `specs/structuring/Closes.antt` has
//! the order of all rules. The laws are `closed_keeps` and `closing_ends`: what is left is one node
//! that doesn't jump, and it does what the graph did. Nothing here runs: the contracts are the
//! laws.

ghost use Rattle.control_flow_theory.specs.structuring.Laws.{GatheringKeeps, FlagKeeps, ExitsKeep, NodeExitsKeep, ExitsGraphKeeps, DispatchKeeps, DispatchGraphKeeps, TargetsRise, ClosedEnds, ClosedKeeps, RulesEnd, KeptMainsAreTied, SameMainsAreTied};
ghost use Rattle.control_flow_theory.specs.structuring.Examples.{ALoopWithTwoExits, TwoLabelsFromTwoEntries, TheDispatchWalksAlike, ItMeetsThePremises, ItTakesSevenUnits};

/// A set of nodes that has become one loop, whose turns walk their trees and leave a number in a
/// cell, walks as it did: by steps, within eight times the units, and never lost where it never
/// was.
pub fn gathering_keeps<Memory, Left>()
    ensures { GatheringKeeps Memory Left }
{}

/// The same for a loop with a flag.
pub fn flag_keeps<Memory, Left>()
    ensures { FlagKeeps Memory Left }
{}

/// The same for a loop with several exits.
pub fn exits_keep<Memory, Left>()
    ensures any { ExitsKeep Memory Left }
    ensures own { NodeExitsKeep Memory Left }
    ensures graph { ExitsGraphKeeps Memory Left }
    ensures rise { TargetsRise }
{}

/// The same for the dispatch over all nodes of a range.
pub fn dispatch_keeps<Memory, Left>()
    ensures nodes { DispatchKeeps Memory Left }
    ensures graph { DispatchGraphKeeps Memory Left }
{}

/// What a rule keeps for every walk it keeps for the walk of the whole program.
pub fn mains_are_tied<Memory, Left>()
    ensures kept { KeptMainsAreTied Memory Left }
    ensures same { SameMainsAreTied Memory Left }
{}

/// A family whose graphs are closed by all rules in their order, including Exits and the dispatch,
/// does what it did.
pub fn closed_keeps<Memory, Left>()
    ensures { ClosedKeeps Memory Left }
{}

/// All rules in their order leave one node, after which nothing comes; and there is a dispatch only
/// where no other rule applies.
pub fn closing_ends()
    ensures one { ClosedEnds }
    ensures none { RulesEnd }
{}

/// Examples of two small graphs: a loop with two exits takes an exit number, and two labels that
/// jump into each other from two entries take a state; the second walks alike before and after, and
/// the premises of the laws hold of it.
pub fn worked_graphs_close_as_said()
    ensures exits { ALoopWithTwoExits }
    ensures state { TwoLabelsFromTwoEntries }
    ensures walks { TheDispatchWalksAlike }
    ensures premises { ItMeetsThePremises }
    ensures units { ItTakesSevenUnits }
{}
