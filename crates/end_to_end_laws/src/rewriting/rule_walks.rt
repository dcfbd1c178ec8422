//! Each rule, as it is applied to a graph, keeps what walks do: in a sound family of graphs the new
//! graph makes another, and from memories that agree a walk of m units in either is covered by one
//! of 8 * (m + 1) units in the other. The premise of each law is the contract of the call that
//! applies the rule. Nothing here runs.

ghost use Rattle.end_to_end_laws.specs.rewriting.rule_walks.Laws.{
  DispatchKeepsWalks,
  ExitsKeepWalks,
  InlineKeepsWalks,
  JoinKeepsWalks,
  JoinedTreesKeepWalks,
  LoopKeepsWalks,
};

/// Join keeps what walks do, within eight times the units: where `join` of `tree_rules` changes a
/// tree of a graph, and where `join_at` changes the tree at a label.
pub fn joins_keep_walks<Memory, Left>()
    ensures tree { JoinedTreesKeepWalks Memory Left }
    ensures graph { JoinKeepsWalks Memory Left }
{}

/// Inline keeps what walks do, as `inline` of `tree_rules` applies it to a graph.
pub fn inlining_keeps_walks<Memory, Left>()
    ensures { InlineKeepsWalks Memory Left }
{}

/// Loop keeps what walks do, as `close_loop` of `loop_rules` applies it to a graph.
pub fn loops_keep_walks<Memory, Left>()
    ensures { LoopKeepsWalks Memory Left }
{}

/// Exits keeps what walks do, as `close_exits` of `region_rewrite` applies it to a graph.
pub fn loops_with_exits_keep_walks<Memory, Left>()
    ensures { ExitsKeepWalks Memory Left }
{}

/// The dispatch keeps what walks do, as `dispatch` of `state_dispatch` applies it to a graph.
pub fn dispatches_keep_walks<Memory, Left>()
    ensures { DispatchKeepsWalks Memory Left }
{}
