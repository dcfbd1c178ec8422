//! A tree type that refers to itself through both containers.

ghost use Rattle.cob_base.specs.Answers.{Makes};

use cob_base::{Boxed, Items, NoMemory};
use std::alloc::Global;
use std::test::Fail;

#[derive(Drop, PartialEq, Eq)]
enum Node {
    Leaf(u32),
    Minus(Boxed<Node>),
    Row(Items<Node>),
}

fn copy_node(alloc: Global, node: &Node) -> Result<Node, NoMemory>
    ensures { Makes node.now result }
{
    match node {
        Node::Leaf(number) => Ok(Node::Leaf(*number)),
        Node::Minus(inner) => {
            let copy = copy_node(alloc, inner.get())?;
            Ok(Node::Minus(Boxed::new(alloc, copy)?))
        }
        Node::Row(nodes) => {
            let mut copies = Items::new(alloc);
            for node in nodes.as_slice() {
                copies.push(copy_node(alloc, node)?)?;
            }
            Ok(Node::Row(copies))
        }
    }
}

#[test]
fn a_copy_equals_its_tree(rt: HostRuntime) -> Result<(), Fail> {
    let mut nodes = Items::new(rt.alloc());
    nodes.push(Node::Minus(Boxed::new(rt.alloc(), Node::Leaf(2))?))?;
    let tree = Node::Row(nodes);
    let copy = copy_node(rt.alloc(), &tree)?;
    assert!(rt; copy == tree);
    assert_eq!(rt; tree == Node::Leaf(2), false);
    Ok(())
}
