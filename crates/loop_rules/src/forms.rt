//! The forms of a loop.

ghost use Rattle.std.specs.Prelude.{◌≡◌, ◌<◌, true, false, ◌&&◌, is_some, Some, length, slice_get, OnOk, OnErr};
ghost use Rattle.std.specs.Vec.{vec_len, vec_capacity};
ghost use Rattle.std.specs.VecDeque.{deque_len, deque_capacity};
ghost use Rattle.control_flow_theory.specs.semantics.Graph as graph;
ghost use Rattle.control_flow_theory.specs.language.Language.{Until, Loop, Nested};
ghost use Rattle.control_flow_theory.specs.graph_rules.Reduced.{stays};
ghost use Rattle.tree_rules.specs.Targets.{seen_targets};
ghost use Rattle.loop_rules.specs.Forms.{loop_by, looped_by, end_by, is_nothing, bare_by, leaf_by, way, two_ways, ways, form_at, form_for, formed_if};
ghost use Rattle.loop_rules.specs.declared.forms.LoopForm.TheVariants as FormIs;
ghost use Rattle.control_flow_theory.specs.graph_rules.Shapes.{followed, alone};
ghost use Rattle.branch_tree.specs.Choosers.{seen_test};
ghost use Rattle.branch_tree.specs.Tree.{seen_tree, seen_trees, seen_body, seen_end, stated};

use branch_tree::{End, Label, Leaves, Picker, Piece, Test, Tree, drop_pieces, drop_trees};
use cob_base::{Items, NoMemory};
use std::alloc::Global;
use std::collections::VecDeque;
use std::mem;
use tree_rules::Targets;

/// How a loop is tested: before or after its body, or by a flag. With a turned test the loop goes
/// on where it holds.
#[derive(Clone, Copy)]
pub enum LoopForm {
    Before { turned: bool },
    After { turned: bool },
    Flag,
}

/// How a loop turns: tested after or before, until the test holds or until it fails, with what its
/// leaves do.
pub struct Turning {
    pub after: bool,
    pub turned: bool,
    pub test: Test,
    pub leaves: Leaves,
}

/// Adds a loop after the other pieces; there is room for it.
fn put_loop(pieces: &mut VecDeque<Piece>, turning: Turning, body: Tree)
    requires { deque_len pieces.old < deque_capacity pieces.old }
    ensures { seen_body pieces.new.items
        ≡ followed (seen_body pieces.old.items) (alone (loop_by turning (seen_tree body))) }
{
    let Turning {
        after,
        turned,
        test,
        leaves,
    } = turning;
    pieces.push_back_reserved(Piece::Loop {
        after,
        turned,
        test,
        leaves,
        body,
    });
}

/// Makes the tree the body of a loop after these pieces, which have room for it, and sets the end.
pub fn looped(tree: &mut Tree, before: Vec<Piece>, turning: Turning, end: End)
    requires { vec_len before < vec_capacity before }
    ensures { seen_tree tree.new ≡ looped_by turning (seen_body before.items) (seen_tree tree.old)
        (seen_end end) }
{
    let empty = Tree {
        body: VecDeque::from_vec(before),
        end,
    };
    let body = mem::replace(tree, empty);
    put_loop(&mut tree.body, turning, body);
}

fn is_nothing(body: &VecDeque<Piece>) -> bool
    ensures { result ≡ is_nothing (seen_body body.now.items) }
{
    body.is_empty()
}

fn both(one: bool, other: bool) -> bool
    ensures { result ≡ (one && other) }
{
    one && other
}

/// Whether the tree is only the leaf to the one target.
fn is_bare(tree: &Tree, live: &Targets) -> bool
    ensures { result ≡ bare_by (seen_targets live.now) (seen_tree tree.now) }
{
    both(is_nothing(&tree.body), is_leaf(&tree.end, live))
}

fn is_leaf(end: &End, live: &Targets) -> bool
    ensures { result ≡ leaf_by (seen_targets live.now) (seen_end end.now) }
{
    match (end, live) {
        (End::Jump(to), Targets::ToLabel(target)) => *target == *to,
        (End::Return, Targets::Back) => true,
        (End::Pick { .. }, _) => false,
        (End::Stop, _) => false,
        (End::Dead, _) => false,
        (End::Jump(_), Targets::NoTarget) => false,
        (End::Jump(_), Targets::Back) => false,
        (End::Jump(_), Targets::Several) => false,
        (End::Return, Targets::NoTarget) => false,
        (End::Return, Targets::ToLabel(_)) => false,
        (End::Return, Targets::Several) => false,
    }
}

/// Whether the tree ends in the jump to the label.
fn stays(tree: &Tree, label: Label) -> bool
    ensures { result ≡ is_some (stays label (seen_tree tree.now)) }
{
    match &tree.end {
        End::Pick { .. } => false,
        End::Jump(to) => *to == label,
        End::Return => false,
        End::Stop => false,
        End::Dead => false,
    }
}

/// The form where the first arm leaves and the second stays, or the other way round.
fn way(after: bool, first: bool, second: bool) -> LoopForm
    ensures { result ≡ way after first second }
{
    let turned = if first {
        false
    } else if second {
        true
    } else {
        return LoopForm::Flag;
    };
    if after {
        LoopForm::After { turned }
    } else {
        LoopForm::Before { turned }
    }
}

/// The form of a loop that ends in two arms by a test.
fn form_two(
    body: &VecDeque<Piece>,
    one: &Tree,
    two: &Tree,
    label: Label,
    live: &Targets,
) -> LoopForm
    ensures { result ≡ two_ways (seen_targets live.now) label (is_nothing (seen_body body.now.items))
        (seen_tree one.now) (seen_tree two.now) }
{
    if is_nothing(body) {
        let first = both(is_bare(one, live), stays(two, label));
        way(false, first, both(is_bare(two, live), stays(one, label)))
    } else {
        let back = Targets::ToLabel(label);
        let first = both(is_bare(one, live), is_bare(two, &back));
        way(true, first, both(is_bare(two, live), is_bare(one, &back)))
    }
}

fn form_arms(body: &VecDeque<Piece>, arms: &[Tree], label: Label, live: &Targets) -> LoopForm
    ensures { result ≡ ways (seen_targets live.now) label (is_nothing (seen_body body.now.items))
        (seen_trees arms.now) }
{
    if arms.len() == 2 {
        form_two(body, &arms[0], &arms[1], label, live)
    } else {
        LoopForm::Flag
    }
}

/// The form of the loop on the label, where its live leaves, other than the jumps to it, have such
/// a target.
pub fn form_of(tree: &Tree, label: Label, live: &Targets) -> LoopForm
    ensures { result ≡ form_at (form_for label (seen_targets live.now) (seen_tree tree.now)) }
{
    match &tree.end {
        End::Pick { by, arms } => match by {
            Picker::If(_) => form_arms(&tree.body, arms.as_slice(), label, live),
            Picker::By(_) => LoopForm::Flag,
            Picker::ByCell { .. } => LoopForm::Flag,
        },
        End::Jump(_) => LoopForm::Flag,
        End::Return => LoopForm::Flag,
        End::Stop => LoopForm::Flag,
        End::Dead => LoopForm::Flag,
    }
}

/// One of the arms; the others are dropped.
fn arm_of(arms: Items<Tree>, at: usize) -> Tree
    requires { at < length arms }
    ensures { slice_get arms at ≡ Some result }
{
    let mut arms = arms.into_vec();
    let arm = arms.remove(at);
    drop_trees(Items::from_vec(arms));
    arm
}

/// The end after a loop whose live leaves have this target.
pub fn end_of(live: &Targets) -> End
    ensures { seen_end result ≡ end_by (seen_targets live.now) }
{
    match live {
        Targets::NoTarget => End::Dead,
        Targets::ToLabel(to) => End::Jump(*to),
        Targets::Back => End::Return,
        Targets::Several => End::Dead,
    }
}

/// Makes the loop with a test before each turn: the arm that stays is its body. Without memory the
/// tree stays.
pub fn close_before(
    tree: &mut Tree,
    turned: bool,
    label: Label,
    live: &Targets,
) -> Result<(), NoMemory>
    requires { form_at (form_for label (seen_targets live.now) (seen_tree tree.old))
        ≡ FormIs.Before turned }
    ensures ok { OnOk result (seen_tree tree.new
        ≡ formed_if (seen_targets live.now)
        (form_for label (seen_targets live.now) (seen_tree tree.old)) (seen_tree tree.old)) }
    ensures err { OnErr result (seen_tree tree.new ≡ seen_tree tree.old) }
{
    tree.body.reserve(1)?;
    match mem::replace(&mut tree.end, End::Dead) {
        End::Pick { by, arms } => match by {
            Picker::If(test) => {
                let body = arm_of(arms, if turned { 0 } else { 1 });
                let turning = Turning {
                    after: false,
                    turned,
                    test,
                    leaves: Leaves::Silent,
                };
                put_loop(&mut tree.body, turning, body);
                tree.end_by(end_of(live));
            }
            by => tree.end_by(End::Pick { by, arms }),
        },
        other => tree.end_by(other),
    }
    Ok(())
}

/// Makes the loop with a test after each turn: what comes before the arms is its body. Without
/// memory the tree stays.
pub fn close_after(
    alloc: Global,
    tree: &mut Tree,
    turned: bool,
    label: Label,
    live: &Targets,
) -> Result<(), NoMemory>
    requires { form_at (form_for label (seen_targets live.now) (seen_tree tree.old))
        ≡ FormIs.After turned }
    ensures ok { OnOk result (seen_tree tree.new
        ≡ formed_if (seen_targets live.now)
        (form_for label (seen_targets live.now) (seen_tree tree.old)) (seen_tree tree.old)) }
    ensures err { OnErr result (seen_tree tree.new ≡ seen_tree tree.old) }
{
    let room = Vec::with_capacity(alloc, 1)?;
    match mem::replace(&mut tree.end, End::Dead) {
        End::Pick { by, arms } => match by {
            Picker::If(test) => {
                drop_trees(arms);
                let turning = Turning {
                    after: true,
                    turned,
                    test,
                    leaves: Leaves::Silent,
                };
                looped(tree, room, turning, end_of(live));
            }
            by => {
                tree.end_by(End::Pick { by, arms });
                drop_pieces(room);
            }
        },
        other => {
            tree.end_by(other);
            drop_pieces(room);
        }
    }
    Ok(())
}
