//! What is read of an expression is dropped by these calls, here and in the crates above: an
//! implicit drop is checked with the drops of all types in the tree, in each function that has one;
//! that of a call only once.

ghost use Rattle.std.specs.Prelude.{◌≡◌};

use cob_base::Items;
use cob_tree::{Expr, Place, Sub, Window};
use cobol_grammar::expr_forms::{Chain, MaybeSubscripts, Side};

/// Drops an operand or expression.
pub fn drop_side(side: Side) {
    drop(side);
}

/// Drops a sum.
pub fn drop_chain(chain: Chain) {
    drop(chain);
}

/// Drops what may be subscripts or a sum.
pub fn drop_either(either: MaybeSubscripts) {
    drop(either);
}

/// Drops an item.
pub fn drop_place(place: Place) {
    drop(place);
}

/// Drops an expression.
pub fn drop_expr(expr: Expr) {
    drop(expr);
}

/// Drops subscripts.
pub fn drop_subs(subs: Items<Sub>) {
    drop(subs);
}

/// Drops a window.
pub fn drop_window(window: Window) {
    drop(window);
}

/// The sum that it spells, and how many leaves it has; the subscripts are dropped.
pub fn sum_of(either: MaybeSubscripts) -> (Chain, u32)
    ensures { result ≡ (either.chain, either.leaves) }
{
    let MaybeSubscripts {
        subs,
        base,
        chain,
        leaves,
        ..
    } = either;
    drop_subs(subs);
    drop(base);
    (chain, leaves)
}
