//! Whether some leaf returns.

ghost use Rattle.std.specs.Prelude.{◌≡◌};
ghost use Rattle.control_flow_theory.specs.structuring.Dispatches.{tree_returns, trees_return};
ghost use Rattle.branch_tree.specs.Tree.{seen_tree, seen_trees};

use branch_tree::{End, Tree};

/// Whether a leaf of the tree returns.
#[cycle(returns)]
pub fn tree_returns(tree: &Tree) -> bool
    ensures { result ≡ tree_returns (seen_tree tree.now) }
{
    match &tree.end {
        End::Pick { arms, .. } => trees_return(arms.as_slice()),
        End::Jump(_) => false,
        End::Return => true,
        End::Stop => false,
        End::Dead => false,
    }
}

/// Whether a leaf of these trees returns.
#[cycle(returns)]
pub fn trees_return(arms: &[Tree]) -> bool
    ensures { result ≡ trees_return (seen_trees arms.now) }
{
    for arm in arms {
        if tree_returns(arm) {
            return true;
        }
    }
    false
}
