//! Lowering takes a program's ranges to graphs of trees; what it needs to know is defined by flow
//! paths.
//!
//! In `specs/lowering`, `Lower.antt` builds a tree from a rest, with a line for each statement;
//! `Completes.antt` says what can complete and cuts what comes after the rest; `flow/Paths.antt` is
//! the source step with ways in place of data. The law is `lowered_family_keeps_meaning`: of a
//! program that isn't faulty, the walk of the reached nodes shows what the source shows, and isn't
//! lost. Nothing here runs: the contracts are the laws.

ghost use Rattle.control_flow_theory.specs.lowering.Laws.{LoweringKeepsMeaning, LoweredMainIsSound, LoweredRangeIsSound, NotFaultyHasNoFlowFault, LoweredFamilyKeepsMeaning, LoweredFamilyIsSound, NumberedFamilyKeepsMeaning, WhatCompletesIsPassed};
ghost use Rattle.control_flow_theory.specs.lowering.Reached.{UnreachedMakesNoDifference, KeptNodesAreFound};
ghost use Rattle.control_flow_theory.specs.lowering.Examples.{LabelInsideAnArmRunsOn, CuttingComesFirst, LoopsAreLeft, SectionsAreLeft, LoopsCompleteByExit};
ghost use Rattle.control_flow_theory.specs.lowering.Renamed.{NumberingMakesNoDifference};
ghost use Rattle.control_flow_theory.specs.lowering.WellFormed.{LoweredGraphsAreWellFormed, ReachedGraphsAreWellFormed};
ghost use Rattle.control_flow_theory.specs.lowering.flow.Called.{ReachedNodesPerformWhatIsCalled};

/// The walk of a lowered family does what the source does, where the source meets no fault of its
/// flow.
pub fn lowering_keeps_meaning<Memory, Left>()
    ensures { LoweringKeepsMeaning Memory Left }
{}

/// No walk of a lowered range is lost, from any memory and any cells, where the source meets no
/// fault of its flow from there.
pub fn lowered_ranges_are_sound<Memory, Left>()
    ensures main { LoweredMainIsSound Memory Left }
    ensures part { LoweredRangeIsSound Memory Left }
{}

/// Nodes that aren't reached from the entry make no difference to a walk.
pub fn unreached_nodes_make_no_difference<Memory, Left>()
    ensures walks { UnreachedMakesNoDifference Memory Left }
    ensures nodes { KeptNodesAreFound }
{}

/// How the cells of a range are numbered makes no difference to a walk.
pub fn numbering_makes_no_difference<Memory, Left>()
    ensures { NumberingMakesNoDifference Memory Left }
{}

/// No run of a program that isn't faulty meets a fault of its flow.
pub fn what_is_not_faulty_meets_no_fault<Memory, Left>()
    ensures { NotFaultyHasNoFlowFault Memory Left }
{}

/// A free flow path passes each statement that can complete, where the table names only ranges that
/// return.
pub fn what_completes_is_passed()
    ensures { WhatCompletesIsPassed }
{}

/// A reached node performs only what a free flow path of its range's level performs.
pub fn reached_nodes_perform_what_is_called()
    ensures { ReachedNodesPerformWhatIsCalled }
{}

/// The walk of the reached nodes of a program that isn't faulty does what the program does, and
/// isn't lost.
pub fn lowered_family_keeps_meaning<Memory, Left>()
    ensures meaning { LoweredFamilyKeepsMeaning Memory Left }
    ensures sound { LoweredFamilyIsSound Memory Left }
    ensures numbered { NumberedFamilyKeepsMeaning Memory Left }
{}

/// In the nodes of a range no body holds an escape, each Pick has its arms, each jump leads to a
/// node, and labels are in ascending order; the same holds of those nodes that are reached.
pub fn lowered_graphs_are_well_formed()
    ensures all { LoweredGraphsAreWellFormed }
    ensures reached { ReachedGraphsAreWellFormed }
{}

/// Examples of small programs: the tree of a label inside an arm runs on after the arm, cutting
/// comes first, EXIT PERFORM and EXIT SECTION go on after their loop and their section, and a loop
/// tested after completes where it is left.
pub fn lowered_examples()
    ensures runs_on { LabelInsideAnArmRunsOn }
    ensures cut_first { CuttingComesFirst }
    ensures loops { LoopsAreLeft }
    ensures sections { SectionsAreLeft }
    ensures completes { LoopsCompleteByExit }
{}
