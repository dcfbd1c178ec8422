//! The counters of graphs have suitable items: a cell of a graph is a cell of the closed graph, of
//! the same kind, and the table of the cells of closed graphs has for each counter an item that can
//! hold how many turns of a loop by TIMES are left. Nothing here runs.

ghost use Rattle.procedure_split.specs.counter_serving.Laws.{ClosedCountersAreServed, ClosedGraphsKeepCells};

/// Closing a graph adds cells after its own, and changes none of these.
pub fn closed_graphs_keep_cells()
    ensures { ClosedGraphsKeepCells }
{}

/// What lowering writes of the counters of graphs may be written with the table of the cells of the
/// closed graphs.
pub fn closed_counters_are_served()
    ensures { ClosedCountersAreServed }
{}
