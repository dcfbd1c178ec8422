//! Join, Inline and the loop in its four forms keep what the walk of a family does.
//!
//! In `specs/graph_rules`, `Joins.antt`, `Inlines.antt` and `Loops.antt` are the rules as
//! relations, `Shapes.antt` and `Reduced.antt` the functions that belong to these relations. Each
//! law says: the same by steps, within eight times the units both ways, and sound where it was
//! sound. Nothing here runs: the contracts are the laws.

ghost use Rattle.control_flow_theory.specs.graph_rules.Laws.{JoinGives, OneJoinGives, JoinsAddUp, NoJoinIsLeft, InlineGives, EndlessGives, FlagGives, FormGives, ShapingEnds, ShapedIsClosed, SingleIsLast, ShapedKeeps, ShapedMainIsTied, WalkTakesItsUnits, WalksAreTied, JoinKeeps, PruneKeeps, InlineKeeps, TestedKeeps, LoopKeeps, WalkSeesItsCells, KeptFromAgreeing, SoundBySteps};
ghost use Rattle.control_flow_theory.specs.graph_rules.Examples.{AFlagLoop, ALoopBefore, ALoopAfter, AnEndlessLoop, AJoinAndAnInline};

/// The walk of a range by recursion is its walk step by step, and takes exactly the units that the
/// steps cost.
pub fn a_walk_takes_its_units<Memory, Left>()
    ensures units { WalkTakesItsUnits Memory Left }
    ensures tied { WalksAreTied Memory Left }
{}

/// What a walk does depends on the program's memory and the cells of its family, and the rules keep
/// it from any two memories that agree on them.
pub fn walks_from_agreeing_memories<Memory, Left>()
    ensures sees { WalkSeesItsCells Memory Left }
    ensures kept { KeptFromAgreeing Memory Left }
{}

/// A family is sound exactly where no step of its walks is lost.
pub fn a_family_is_sound_by_its_steps<Memory, Left>()
    ensures { SoundBySteps Memory Left }
{}

/// A family in which choices of ends became statements does what it did.
pub fn join_keeps<Memory, Left>()
    ensures { JoinKeeps Memory Left }
{}

/// Nodes to which no jump leads may be left out.
pub fn prune_keeps<Memory, Left>()
    ensures { PruneKeeps Memory Left }
{}

/// A family in which a node took the place of the jump to it does what it did.
pub fn inline_keeps<Memory, Left>()
    ensures { InlineKeeps Memory Left }
{}

/// A family in which a node became a loop that is tested before or after does what it did.
pub fn tested_keeps<Memory, Left>()
    ensures { TestedKeeps Memory Left }
{}

/// A family in which a node became an endless loop or one with a flag does what it did.
pub fn loop_keeps<Memory, Left>()
    ensures { LoopKeeps Memory Left }
{}

/// What the functions of the rules give is as their relations say.
pub fn functions_give_the_rules()
    ensures join { JoinGives }
    ensures one_join { OneJoinGives }
    ensures joins { JoinsAddUp }
    ensures no_join { NoJoinIsLeft }
    ensures inline { InlineGives }
    ensures endless { EndlessGives }
    ensures flag { FlagGives }
    ensures form { FormGives }
{}

/// Shaping ends where neither Loop nor Inline applies, and keeps a graph closed.
pub fn shaping_ends()
    ensures ends { ShapingEnds }
    ensures closed { ShapedIsClosed }
    ensures single { SingleIsLast }
{}

/// A shaped family walks as it did.
pub fn shaped_keeps<Memory, Left>()
    ensures all { ShapedKeeps Memory Left }
    ensures main { ShapedMainIsTied Memory Left }
{}

/// Examples of small graphs: a loop with a flag, tested before, tested after and endless, a join
/// and a node in place of a jump.
pub fn small_graphs_are_shaped_as_said()
    ensures flag { AFlagLoop }
    ensures before { ALoopBefore }
    ensures after { ALoopAfter }
    ensures endless { AnEndlessLoop }
    ensures joined { AJoinAndAnInline }
{}
