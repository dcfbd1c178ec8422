//! The graphs of the ranges of a plan.

ghost use Rattle.std.specs.Prelude.{[], ◌∷◌, ◌++◌, ◌≡◌, ◌≤◌, ◌*◌, length, IfOk, IfSome, OnOk, MatchResult};
ghost use Rattle.cob_base.specs.Limit.{max_nodes};
ghost use Rattle.cob_tree.specs.declared.program.Program.{Program};
ghost use Rattle.control_flow_theory.specs.language.Control.{control_of};
ghost use Rattle.control_flow_theory.specs.language.OwnItems.{NamesOwnItems};
ghost use Rattle.program_facts.specs.completion.FlowFacts.{flow_facts_of};
ghost use Rattle.cobol_theory.specs.cobol_parts.Named.{NamesOwnParagraphs};
ghost use Rattle.pending_returns.specs.levels.Reach.{IsMarked};
ghost use Rattle.flow_graph.specs.label_trees.Node.{IsWhole};
ghost use Rattle.flow_graph.specs.Reaching.{IsRangeIn};
ghost use Rattle.procedure_split.specs.shaped_ranges.Limit.{AreLowered, IsLoweringFault, nodes_passed};
ghost use Rattle.procedure_split.specs.shaped_ranges.Shaping.{AllReady, IsReady};
ghost use Rattle.procedure_split.specs.shaped_ranges.Graphing.{AreLoweredIn, AreRangesIn, AreRangesOf, IsCountedOn, IsGraphWithin, IsLoweringFaultIn, IsPastBy};

use crate::plan::RangePlan;
use added_items::counters::number_counters;
use branch_tree::Graph;
use cob_base::limit::{MAX_NODES, past};
use cob_base::{Limit, LimitKind, NoMemory};
use cob_tree::{Program, Range, SplitFault};
use flow_graph::graph_sizes::graph_size;
use flow_graph::lower_within;
use flow_graph::range_sizes::{TreeSizeCache, range_size};
use lowering_labels::points::layout_of;
use pending_returns::levels::Reach;
use statement_lowering::LoweringContext;
use statement_lowering::continuations::{Continuation, continuations_of};
use std::alloc::Global;

/// How many places a program may have: labels have numbers below three times this.
const PLACES: u64 = 1 << 30;

fn nodes_passed(counted: u64) -> Limit
    ensures { result ≡ nodes_passed counted }
{
    past(LimitKind::Nodes, false, counted)
}

/// The graph of a range, its counters numbered. None where it has more than `most` labels and
/// statements.
fn graph_of(
    alloc: Global,
    reach: &mut Reach,
    spots: &[Continuation<'_>],
    range: Range,
    context: &LoweringContext<'_>,
    most: u64,
) -> Result<Option<Graph>, NoMemory>
    requires marked { IsMarked reach.old.places.items reach.old.marks.items }
    requires whole { IsWhole context.now spots.now }
    requires size { length reach.old.marks.items ≡ 3 * length spots.now }
    requires range { (program : Program) × IsRangeIn context.now spots.now range program }
    requires few { most ≤ max_nodes }
    ensures graph { IfOk result (IsGraphWithin context.now spots.now range most) }
    ensures ready { IfOk result (λ found. IfSome found IsReady) }
    ensures marked { IsMarked reach.new.places.items reach.new.marks.items }
    ensures size { length reach.new.marks.items ≡ length reach.old.marks.items }
{
    match lower_within(alloc, reach, spots, range, context, most)? {
        None => Ok(None),
        Some(graph) => {
            let mut graph = graph;
            match number_counters(alloc, &mut graph) {
                Ok(()) => Ok(Some(graph)),
                Err(fault) => {
                    drop(graph);
                    Err(fault)
                }
            }
        }
    }
}

/// Adds a graph.
fn keep_graph(graphs: &mut Vec<Graph>, graph: Graph) -> Result<(), NoMemory>
    ensures { OnOk result (graphs.new.items ≡ graphs.old.items ++ graph ∷ []) }
{
    match graphs.push(graph) {
        Ok(()) => Ok(()),
        Err(left) => {
            drop(left);
            Err(NoMemory)
        }
    }
}

/// How many labels and statements the graphs of ranges have, added to a count.
fn counted_on(
    alloc: Global,
    reach: &mut Reach,
    spots: &[Continuation<'_>],
    ranges: &[Range],
    context: &LoweringContext<'_>,
    others: u64,
) -> Result<u64, NoMemory>
    requires marked { IsMarked reach.old.places.items reach.old.marks.items }
    requires whole { IsWhole context.now spots.now }
    requires size { length reach.old.marks.items ≡ 3 * length spots.now }
    requires ranges { (program : Program) × AreRangesIn context.now spots.now program ranges.now }
    ensures { IfOk result (IsCountedOn context.now spots.now ranges.now others) }
{
    let mut known = TreeSizeCache::new(alloc, spots)?;
    let mut count = others;
    for range in ranges {
        let size = range_size(alloc, reach, &mut known, spots, *range, context)?;
        count = count.saturating_add(size);
    }
    Ok(count)
}

/// The limit that a count of labels and statements passes, or out of memory.
fn past_limit(counted: Result<u64, NoMemory>) -> SplitFault
    ensures { IsPastBy counted result }
{
    match counted {
        Err(_) => SplitFault::NoMemory,
        Ok(u64::MAX) => SplitFault::NoMemory,
        Ok(count) => SplitFault::Limit(nodes_passed(count)),
    }
}

/// The graphs of these ranges. From the first one with which they pass the limit, graphs are only
/// counted: that one's own is dropped as soon as it passes what is left.
fn graphs_of(
    alloc: Global,
    reach: &mut Reach,
    spots: &[Continuation<'_>],
    ranges: &[Range],
    context: &LoweringContext<'_>,
) -> Result<Vec<Graph>, SplitFault>
    requires marked { IsMarked reach.old.places.items reach.old.marks.items }
    requires whole { IsWhole context.now spots.now }
    requires size { length reach.old.marks.items ≡ 3 * length spots.now }
    requires ranges { (program : Program) × AreRangesIn context.now spots.now program ranges.now }
    ensures lowered { MatchResult result
        (λ graphs. AreLoweredIn context.now spots.now ranges.now graphs.items)
        (λ fault. IsLoweringFaultIn context.now spots.now ranges.now fault) }
    ensures ready { IfOk result (λ graphs. AllReady graphs.items) }
{
    let mut graphs = Vec::new(alloc);
    let mut count = 0u64;
    for at in 0..ranges.len() {
        match graph_of(alloc, reach, spots, ranges[at], context, MAX_NODES - count) {
            Err(_) => {
                drop(graphs);
                return Err(SplitFault::NoMemory);
            }
            Ok(None) => {
                drop(graphs);
                let counted = counted_on(alloc, reach, spots, &ranges[at..], context, count);
                return Err(past_limit(counted));
            }
            Ok(Some(graph)) => {
                count += graph_size(&graph);
                match keep_graph(&mut graphs, graph) {
                    Ok(()) => {}
                    Err(_) => {
                        drop(graphs);
                        return Err(SplitFault::NoMemory);
                    }
                }
            }
        }
    }
    Ok(graphs)
}

/// The graphs of the ranges of a plan, in its order. The errors are Limit, exactly where they have
/// more than 500,000 labels and statements, and out of memory, also where the program has 2^30
/// places or more.
pub fn lower_ranges(
    alloc: Global,
    program: &Program,
    plan: &RangePlan,
) -> Result<Vec<Graph>, SplitFault>
    requires items { NamesOwnItems program.now }
    requires paragraphs { NamesOwnParagraphs program.now }
    requires ranges { AreRangesOf (control_of program.now) plan.now.order }
    ensures lowered { MatchResult result
        (λ graphs. AreLowered (flow_facts_of program.now.files plan.now.returning)
        (control_of program.now) plan.now.order graphs.items)
        (λ fault. IsLoweringFault (flow_facts_of program.now.files plan.now.returning)
        (control_of program.now) plan.now.order fault) }
    ensures ready { IfOk result (λ graphs. AllReady graphs.items) }
{
    if program.places() >= PLACES {
        return Err(SplitFault::NoMemory);
    }
    let layout = layout_of(alloc, program)?;
    if layout.end as u64 >= PLACES {
        return Err(SplitFault::NoMemory);
    }
    let context = LoweringContext {
        files: program.files.as_slice(),
        returning: plan.returning.as_slice(),
        layout: &layout,
    };
    let spots = continuations_of(alloc, program, &context)?;
    let mut reach = Reach::new(alloc, spots.len() * 3)?;
    graphs_of(
        alloc,
        &mut reach,
        spots.as_slice(),
        plan.order.as_slice(),
        &context,
    )
}
