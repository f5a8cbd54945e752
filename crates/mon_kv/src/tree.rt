ghost use Rattle.std.specs.Prelude.{◌≡◌, ℕ, List, [], ◌∷◌, ◌++◌, not, is_some, min, length, if◌then◌else◌, true, IsTrue, IfOk, OnErr};
ghost use Rattle.std.specs.Option.{option_copied, option_map, unwrap_or};
ghost use Rattle.std.specs.Ordering.{eq_by_cmp};
ghost use Rattle.std.specs.FinMap.Entries.{find, put, where_key, is_sorted};
ghost use Rattle.mon_bytes.specs.Texts.{is_name};
ghost use Rattle.mon_tx.specs.Map.{is_within};
ghost use Rattle.mon_kv.specs.Tree.{bytes_cmp, entries, is_empty, first, above, IsInOrder};

use crate::balance::{beside, joined, settle, take_root};
use crate::decimal::is_within;
use mon_bytes::{Name, OutOfMemory};
use std::alloc::Global;
use std::cmp::Ordering;
use std::mem::{replace, swap};

/// A search tree from names to values. Its sides are kept in balance, as those of an AVL tree.
#[cycle(tree)]
#[derive(Drop)]
pub(crate) enum Tree<V> {
    Leaf,
    Fork(Box<Node<V>>),
}

/// An entry, and the entries before and after it.
#[cycle(tree)]
#[derive(Drop)]
pub(crate) struct Node<V> {
    pub(crate) left: Tree<V>,
    pub(crate) key: Name,
    pub(crate) value: V,
    pub(crate) height: u8,
    pub(crate) right: Tree<V>,
}

/// The order of two keys, byte by byte. Most nodes that a look-up passes differ from the key in the first byte, so that
/// case is inlined.
#[inline(always)]
pub(crate) fn compare(a: &[u8], b: &[u8]) -> Ordering
    ensures { result ≡ bytes_cmp a.now b.now }
{
    if let [x, ..] = a {
        if let [y, ..] = b {
            if x != y {
                return x.cmp(y);
            }
        }
    }
    compare_all(a, b)
}

/// The order of two keys, byte by byte. It isn't inlined, so that what compares keys stays small.
#[inline(never)]
fn compare_all(a: &[u8], b: &[u8]) -> Ordering
    ensures { result ≡ bytes_cmp a.now b.now }
{
    a.cmp(&b)
}

impl<V> Tree<V> {
    pub(crate) fn height(&self) -> u8 {
        match self {
            Tree::Leaf => 0,
            Tree::Fork(node) => node.height,
        }
    }

    pub(crate) fn is_empty(&self) -> bool
        ensures { result ≡ is_empty (entries self.now) }
    {
        matches!(self, Tree::Leaf)
    }

    /// The value at the key. It takes one comparison per node on the way down, and no recursion.
    pub(crate) fn get(&self, key: &[u8]) -> Option<&V>
        ensures { IsInOrder self.now → option_copied result ≡ find bytes_cmp key.now (entries self.now) }
    {
        let mut tree = self;
        while let Tree::Fork(node) = tree {
            match compare(key, node.key.as_slice()) {
                Ordering::Less => tree = &node.left,
                Ordering::Equal => return Some(&node.value),
                Ordering::Greater => tree = &node.right,
            }
        }
        None
    }
}

impl<V> Tree<V> {
    /// The number of entries, or `most` if that is fewer.
    pub(crate) fn count_up_to(&self, most: u64) -> u64
        ensures { result ≡ min most (length (entries self.now)) }
    {
        if most == 0 {
            return 0;
        }
        match self {
            Tree::Leaf => 0,
            Tree::Fork(node) => {
                let left = node.left.count_up_to(most);
                if left == most {
                    return most;
                }
                left + 1 + node.right.count_up_to(most - left - 1)
            }
        }
    }

    /// The first entry.
    pub(crate) fn first(&self) -> Option<(&Name, &V)>
        ensures { option_map (λ e. (e.0.now, e.1.now)) result ≡ first (entries self.now) }
    {
        match self {
            Tree::Leaf => None,
            Tree::Fork(node) => match node.left.first() {
                Some(entry) => Some(entry),
                None => Some((&node.key, &node.value)),
            },
        }
    }

    /// The first entry whose key is above this one.
    pub(crate) fn first_above(&self, key: &[u8]) -> Option<(&Name, &V)>
        ensures { IsInOrder self.now → option_map (λ e. (e.0.now, e.1.now)) result
            ≡ first (above key.now (entries self.now)) }
    {
        match self {
            Tree::Leaf => None,
            Tree::Fork(node) => match compare(key, node.key.as_slice()) {
                Ordering::Less => match node.left.first_above(key) {
                    Some(entry) => Some(entry),
                    None => Some((&node.key, &node.value)),
                },
                _ => node.right.first_above(key),
            },
        }
    }
}

/// A tree of one entry.
fn single<V: Drop>(alloc: Global, key: &[u8], value: V) -> Result<Tree<V>, OutOfMemory>
    requires { IsTrue (is_name key.now) }
    ensures { IfOk result (λ tree. entries tree ≡ (key.now, value) ∷ []) }
{
    let node = Node {
        left: Tree::Leaf,
        key: Name::from_slice(alloc, key)?,
        value,
        height: 1,
        right: Tree::Leaf,
    };
    Ok(Tree::Fork(Box::new(alloc, node)?))
}

impl<V: Drop> Tree<V> {
    /// Puts a value, and returns the one that was there. After an `Err` the tree has the same entries.
    pub(crate) fn put(
        &mut self,
        alloc: Global,
        key: &[u8],
        value: V,
    ) -> Result<Option<V>, OutOfMemory>
        requires { IsTrue (is_name key.now) }
        ensures old { IfOk result (λ old. IsInOrder self.old → old ≡ find bytes_cmp key.now (entries self.old)) }
        ensures ok { IfOk result (λ _. IsInOrder self.old
            → entries self.new ≡ put bytes_cmp key.now value (entries self.old)) }
        ensures err { OnErr result (entries self.new ≡ entries self.old) }
    {
        match self {
            Tree::Leaf => {
                *self = single(alloc, key, value)?;
                Ok(None)
            }
            Tree::Fork(node) => match compare(key, node.key.as_slice()) {
                Ordering::Less => {
                    let old = node.left.put(alloc, key, value)?;
                    settle(self);
                    Ok(old)
                }
                Ordering::Equal => Ok(Some(replace(&mut node.value, value))),
                Ordering::Greater => {
                    let old = node.right.put(alloc, key, value)?;
                    settle(self);
                    Ok(old)
                }
            },
        }
    }

    /// Swaps the value of a key with `value`. Returns whether the key is there; if it isn't, nothing changes.
    pub(crate) fn exchange(&mut self, key: &[u8], value: &mut V) -> bool
        ensures found { IsInOrder self.old → result ≡ is_some (find bytes_cmp key.now (entries self.old)) }
        ensures entries { IsInOrder self.old
            → entries self.new ≡ (if result then put bytes_cmp key.now value.old
            (entries self.old) else entries self.old) }
        ensures value { IsInOrder self.old
            → value.new ≡ unwrap_or (find bytes_cmp key.now (entries self.old)) value.old }
    {
        match self {
            Tree::Leaf => false,
            Tree::Fork(node) => match compare(key, node.key.as_slice()) {
                Ordering::Less => node.left.exchange(key, value),
                Ordering::Equal => {
                    swap(&mut node.value, value);
                    true
                }
                Ordering::Greater => node.right.exchange(key, value),
            },
        }
    }

    /// Removes the key, and returns its value, or `None` if the key wasn't there.
    pub(crate) fn remove(&mut self, key: &[u8]) -> Option<V>
        ensures value { IsInOrder self.old → result ≡ find bytes_cmp key.now (entries self.old) }
        ensures entries { IsInOrder self.old
            → entries self.new ≡ where_key bytes_cmp (λ x. not (eq_by_cmp bytes_cmp key.now x)) (entries self.old) }
    {
        match self {
            Tree::Leaf => None,
            Tree::Fork(node) => match compare(key, node.key.as_slice()) {
                Ordering::Less => {
                    let value = node.left.remove(key);
                    settle(self);
                    value
                }
                Ordering::Equal => take_root(self),
                Ordering::Greater => {
                    let value = node.right.remove(key);
                    settle(self);
                    value
                }
            },
        }
    }

    /// The tree without the keys that are decimal numbers of versions from `from` up to but not including `to`.
    pub(crate) fn without_versions(self, from: u64, to: u64) -> Tree<V>
        ensures { entries result ≡ where_key bytes_cmp (λ x. not (is_within from to x)) (entries self) }
    {
        match self {
            Tree::Leaf => Tree::Leaf,
            Tree::Fork(mut node) => {
                let left = replace(&mut node.left, Tree::Leaf).without_versions(from, to);
                let right = replace(&mut node.right, Tree::Leaf).without_versions(from, to);
                if is_within(node.key.as_str(), from, to) {
                    beside(left, right)
                } else {
                    joined(left, node, right)
                }
            }
        }
    }
}
