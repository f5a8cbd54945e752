//! Joins trees, and keeps them balanced. Each call keeps the entries in their order. A tree is balanced if the heights
//! of the two sides of each node differ by at most one. All but `fork` make balanced trees of balanced trees. Contracts
//! state the entries; the balance isn't proved.

ghost use Rattle.std.specs.Prelude.{◌≡◌, [], ◌∷◌, ◌++◌};
ghost use Rattle.mon_kv.specs.Tree.{entries, node_entries, TakesRoot};

use crate::tree::{Node, Tree};
use std::mem::replace;

/// The height of a node with these sides: the greater of their heights plus one.
fn above<V>(left: &Tree<V>, right: &Tree<V>) -> u8 {
    left.height().max(right.height()).saturating_add(1)
}

/// Joins two trees with the entry of `node` as the root. Nothing is rotated.
fn fork<V: Drop>(left: Tree<V>, mut node: Box<Node<V>>, right: Tree<V>) -> Tree<V>
    ensures { entries result ≡ entries left ++ (node.value.key, node.value.value) ∷ entries right }
{
    node.height = above(&left, &right);
    node.left = left;
    node.right = right;
    Tree::Fork(node)
}

/// Joins two trees with the entry of `node` between them, by rotation. The left one is higher by two.
fn lean_left<V: Drop>(left: Tree<V>, node: Box<Node<V>>, right: Tree<V>) -> Tree<V>
    ensures { entries result ≡ entries left ++ (node.value.key, node.value.value) ∷ entries right }
{
    let Tree::Fork(mut top) = left else {
        return fork(Tree::Leaf, node, right);
    };
    let outer = replace(&mut top.left, Tree::Leaf);
    let inner = replace(&mut top.right, Tree::Leaf);
    if inner.height() <= outer.height() {
        return fork(outer, top, fork(inner, node, right));
    }
    let Tree::Fork(mut mid) = inner else {
        return fork(outer, top, fork(Tree::Leaf, node, right));
    };
    let low = replace(&mut mid.left, Tree::Leaf);
    let high = replace(&mut mid.right, Tree::Leaf);
    fork(fork(outer, top, low), mid, fork(high, node, right))
}

/// Joins two trees with the entry of `node` between them, by rotation. The right one is higher by two.
fn lean_right<V: Drop>(left: Tree<V>, node: Box<Node<V>>, right: Tree<V>) -> Tree<V>
    ensures { entries result ≡ entries left ++ (node.value.key, node.value.value) ∷ entries right }
{
    let Tree::Fork(mut top) = right else {
        return fork(left, node, Tree::Leaf);
    };
    let inner = replace(&mut top.left, Tree::Leaf);
    let outer = replace(&mut top.right, Tree::Leaf);
    if inner.height() <= outer.height() {
        return fork(fork(left, node, inner), top, outer);
    }
    let Tree::Fork(mut mid) = inner else {
        return fork(fork(left, node, Tree::Leaf), top, outer);
    };
    let low = replace(&mut mid.left, Tree::Leaf);
    let high = replace(&mut mid.right, Tree::Leaf);
    fork(fork(left, node, low), mid, fork(high, top, outer))
}

/// Joins two trees with the entry of `node` between them. Their heights differ by at most two.
fn balanced<V: Drop>(left: Tree<V>, node: Box<Node<V>>, right: Tree<V>) -> Tree<V>
    ensures { entries result ≡ entries left ++ (node.value.key, node.value.value) ∷ entries right }
{
    let (low, high) = (left.height(), right.height());
    if low > high.saturating_add(1) {
        lean_left(left, node, right)
    } else if high > low.saturating_add(1) {
        lean_right(left, node, right)
    } else {
        fork(left, node, right)
    }
}

/// Joins two trees of any heights with the entry of `node` between them.
pub(crate) fn joined<V: Drop>(left: Tree<V>, node: Box<Node<V>>, right: Tree<V>) -> Tree<V>
    ensures { entries result ≡ entries left ++ (node.value.key, node.value.value) ∷ entries right }
{
    let (low, high) = (left.height(), right.height());
    match (left, right) {
        (Tree::Fork(mut top), right) if low > high.saturating_add(1) => {
            let outer = replace(&mut top.left, Tree::Leaf);
            let inner = replace(&mut top.right, Tree::Leaf);
            balanced(outer, top, joined(inner, node, right))
        }
        (left, Tree::Fork(mut top)) if high > low.saturating_add(1) => {
            let inner = replace(&mut top.left, Tree::Leaf);
            let outer = replace(&mut top.right, Tree::Leaf);
            balanced(joined(left, node, inner), top, outer)
        }
        (left, right) => fork(left, node, right),
    }
}

/// Sets the height of a tree's root. Returns whether the heights of the root's two sides differ by at most one.
fn set_height<V>(tree: &mut Tree<V>) -> bool
    ensures { entries tree.new ≡ entries tree.old }
{
    match tree {
        Tree::Leaf => true,
        Tree::Fork(node) => {
            let (low, high) = (node.left.height(), node.right.height());
            node.height = low.max(high).saturating_add(1);
            low.abs_diff(high) <= 1
        }
    }
}

/// Brings the two sides of a tree into balance. If they are balanced already, nothing is moved.
pub(crate) fn settle<V: Drop>(tree: &mut Tree<V>)
    ensures { entries tree.new ≡ entries tree.old }
{
    if !set_height(tree) {
        rebalance(tree);
    }
}

/// Brings two sides that are out of balance into balance.
fn rebalance<V: Drop>(tree: &mut Tree<V>)
    ensures { entries tree.new ≡ entries tree.old }
{
    if let Tree::Fork(mut node) = replace(tree, Tree::Leaf) {
        let left = replace(&mut node.left, Tree::Leaf);
        let right = replace(&mut node.right, Tree::Leaf);
        *tree = joined(left, node, right);
    }
}

/// The first entry of the tree that the node is the root of, and the tree without it.
fn split_first<V: Drop>(mut node: Box<Node<V>>) -> (Box<Node<V>>, Tree<V>)
    ensures { node_entries node.value ≡ (result.0.value.key, result.0.value.value) ∷ entries result.1 }
{
    let right = replace(&mut node.right, Tree::Leaf);
    match replace(&mut node.left, Tree::Leaf) {
        Tree::Leaf => (node, right),
        Tree::Fork(left) => {
            let (first, left) = split_first(left);
            (first, joined(left, node, right))
        }
    }
}

/// Joins two trees: the entries of the left one come before those of the right one.
pub(crate) fn beside<V: Drop>(left: Tree<V>, right: Tree<V>) -> Tree<V>
    ensures { entries result ≡ entries left ++ entries right }
{
    match right {
        Tree::Leaf => left,
        Tree::Fork(node) => {
            let (first, right) = split_first(node);
            joined(left, first, right)
        }
    }
}

/// Removes the entry at a tree's root, and returns its value. `None` if the tree is empty.
pub(crate) fn take_root<V: Drop>(tree: &mut Tree<V>) -> Option<V>
    ensures { TakesRoot tree.old tree.new result }
{
    match replace(tree, Tree::Leaf) {
        Tree::Leaf => None,
        Tree::Fork(node) => {
            let Node {
                left,
                value,
                right,
                ..
            } = Box::into_inner(node);
            *tree = beside(left, right);
            Some(value)
        }
    }
}
