//! Inline: a node takes the place of the only jump to it.

ghost use Rattle.std.specs.Prelude.{◌≡◌, true, OnOk, OnErr};
ghost use Rattle.control_flow_theory.specs.semantics.Doing.{is_above};
ghost use Rattle.control_flow_theory.specs.graph_rules.Reduced.{has_node, inline_graph, tree_in};
ghost use Rattle.control_flow_theory.specs.graph_rules.Shapes.{leaves_to};
ghost use Rattle.graph_rewriting.specs.Helds.{seen_work};
ghost use Rattle.tree_rules.specs.Inlining.{Inlines, InlinesInto, may_inline};

use crate::putting::put;
use branch_tree::Label;
use cob_base::NoMemory;
use graph_rewriting::Work;
use std::alloc::Global;

/// Whether exactly one leaf of the graph jumps to the node with the label, from another node, and
/// it isn't the entry.
pub fn may_inline(work: &Work, label: Label) -> bool
    ensures { result ≡ may_inline (seen_work work.now) label }
{
    match work.node(label) {
        None => false,
        Some(node) => {
            if label == work.entry() {
                return false;
            }
            if node.tree.jumps_to(label) {
                return false;
            }
            work.incoming(label) == 1
        }
    }
}

/// Replaces the jump to the node, on which Inline applies, by the node; a leaf of the other node
/// has this jump. Without memory the graph stays.
fn put_into(alloc: Global, work: &mut Work, label: Label, from: Label) -> Result<(), NoMemory>
    requires applies { may_inline (seen_work work.old) label ≡ true }
    requires has { has_node (seen_work work.old).nodes from ≡ true }
    requires jumps { is_above (leaves_to label (tree_in (seen_work work.old).nodes from)) ≡ true }
    ensures ok { OnOk result (seen_work work.new ≡ inline_graph label (seen_work work.old)) }
    ensures err { OnErr result (seen_work work.new ≡ seen_work work.old) }
{
    work.sound();
    let Some(by) = work.take(alloc, label) else {
        unreachable!()
    };
    match work.take(alloc, from) {
        None => unreachable!(),
        Some(tree) => {
            let mut tree = tree;
            let back = put(&mut tree, label, by);
            work.put(from, tree);
            match back {
                None => {
                    work.remove(label);
                    Ok(())
                }
                Some(by) => {
                    work.put(label, by);
                    Err(NoMemory)
                }
            }
        }
    }
}

/// Inline on the node with the label: the label of the node whose leaf jumped to it, where the rule
/// applied, and none where it doesn't. With none, and without memory, the graph stays.
pub fn inline_into(alloc: Global, work: &mut Work, label: Label) -> Result<Option<Label>, NoMemory>
    ensures { InlinesInto result label (seen_work work.old) (seen_work work.new) }
{
    if !may_inline(work, label) {
        return Ok(None);
    }
    work.sound();
    match work.source(label) {
        None => unreachable!(),
        Some(from) => {
            put_into(alloc, work, label, from)?;
            Ok(Some(from))
        }
    }
}

/// Inline on the node with the label: true where the rule applied, false where it doesn't. With
/// false, and without memory, the graph stays.
pub fn inline(alloc: Global, work: &mut Work, label: Label) -> Result<bool, NoMemory>
    ensures { Inlines result label (seen_work work.old) (seen_work work.new) }
{
    let into = inline_into(alloc, work, label)?;
    Ok(into.is_some())
}
