//! From a source to its structured program: lowering, the rules and rendering composed.
//!
//! `the_headline_over_control` has premises on the parts and on the plan alone. The links between
//! the steps are here: the graphs' family is the lowered one, what the closed graphs name and
//! perform, and which plans there are. Nothing here runs: the contracts are the laws.

ghost use Rattle.control_flow_theory.specs.main_theorem.Chain.{TheHeadline, ClosedGraphsStand, ClosingLosesNoPerform, ClosedGraphsArePerformed, SomeResultBehaves};
ghost use Rattle.control_flow_theory.specs.main_theorem.CallsReached.{WhatIsCalledStands, OrderByPathsIsOfGraphs, SomeResultByPaths};
ghost use Rattle.control_flow_theory.specs.main_theorem.NamedCells.{LoweredNodesNameCounters, NumberedCountersAreNamed};
ghost use Rattle.control_flow_theory.specs.main_theorem.NamedCellsExample.{OneCounterIsNamed};
ghost use Rattle.control_flow_theory.specs.main_theorem.PlanExample.{APlanCanBeMade, ThePlanIsFollowed};
ghost use Rattle.control_flow_theory.specs.main_theorem.Numbering.{CountersCanBeNumbered};
ghost use Rattle.control_flow_theory.specs.main_theorem.MainTheorem.{WhatIsWrittenBehavesAlike, SomePartsAgree};

use crate::rendering::Carrying;

/// A program that isn't faulty, lowered, closed by the rules and written, is structured and behaves
/// as it did.
pub fn the_headline_over_control<Memory, Other, Left, World, C: Carrying<Memory, Other>>()
    ensures { TheHeadline C.carries Left World }
{}

/// Where what is in the lowered graphs may be written, and what the rules write for each added
/// cell, so may what closing leaves: each choice by a cell is where the cell isn't zero.
pub fn closed_graphs_stand()
    ensures { ClosedGraphsStand }
{}

/// What a node of a graph performs, the one node that closing leaves performs; so each procedure
/// but the first is performed by an earlier one, where each range is.
pub fn closing_loses_no_perform()
    ensures node { ClosingLosesNoPerform }
    ensures order { ClosedGraphsArePerformed }
{}

/// For any parts there is a structured result that behaves as the source.
pub fn some_result_behaves<Memory, Left, World>()
    ensures { SomeResultBehaves Memory Left World }
{}

/// Where a free flow path of a range's level comes to a PERFORM, a reached node of the range
/// performs that range; so where each range of the order but main is performed by a path of an
/// earlier one, it is by a kept node of an earlier one.
pub fn what_is_called_stands()
    ensures node { WhatIsCalledStands }
    ensures order { OrderByPathsIsOfGraphs }
{}

/// Where the performed ranges are given by paths alone, for any parts there is a structured result
/// that behaves as the source.
pub fn some_result_by_paths<Memory, Left, World>()
    ensures { SomeResultByPaths Memory Left World }
{}

/// A lowered node of a source names no cell but the counter of a loop by TIMES, by the number of
/// its place, and holds no choice by a cell; so where the counters of kept loops are numbered and
/// listed, each kept node names its range's cells. Numbering them by their place among the kept
/// ones is such a numbering.
pub fn lowered_nodes_name_counters()
    ensures node { LoweredNodesNameCounters }
    ensures graph { NumberedCountersAreNamed }
    ensures example { OneCounterIsNamed }
    ensures numbering { CountersCanBeNumbered }
{}

/// A program that jumps to its own paragraph is a source, isn't faulty and has a plan; so for any
/// parts that do what lowering knows of them there is a structured result that behaves as it does.
pub fn a_plan_can_be_made<Memory, Left, World>()
    ensures plan { APlanCanBeMade }
    ensures result { ThePlanIsFollowed Memory Left World }
{}

/// The headline, with its premises on the program's plan and on the parts in two records: what is
/// written is structured and behaves as the source. Whatever a source's parts do, some parts of a
/// result meet the premises.
pub fn what_is_written_behaves_alike<Memory, Other, Left, World, C: Carrying<Memory, Other>>()
    ensures headline { WhatIsWrittenBehavesAlike C.carries Left World }
    ensures met { SomePartsAgree Memory Left World }
{}
