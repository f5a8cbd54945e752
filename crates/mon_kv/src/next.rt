//! The entries of a tree of trees, one after the other.

ghost use Rattle.std.specs.Prelude.{◌≡◌};
ghost use Rattle.std.specs.Option.{option_map};
ghost use Rattle.mon_kv.specs.Tree.{entries, first};
ghost use Rattle.mon_kv.specs.Areas.{at_prefix, places, IsWhole};
ghost use Rattle.mon_kv.specs.Readers.{after, found_of};

use crate::areas::Areas;
use crate::tree::{Tree, compare};
use mon_bytes::{Bytes, Name};
use std::cmp::Ordering;

/// An entry, borrowed from the trees.
#[derive(Clone, Copy)]
pub(crate) struct Found<'a> {
    pub(crate) prefix: &'a Name,
    pub(crate) key: &'a Name,
    pub(crate) value: &'a Bytes,
}

/// An entry that was found under a prefix.
fn under_prefix<'a>(prefix: &'a Name, found: Option<(&'a Name, &'a Bytes)>) -> Option<Found<'a>>
    ensures { option_map found_of result ≡ at_prefix prefix.now (option_map (λ e. (e.0.now, e.1.now)) found.entry) }
{
    match found {
        Some((key, value)) => Some(Found { prefix, key, value }),
        None => None,
    }
}

/// The first entry above a prefix and a key.
pub(crate) fn next<'a>(areas: &'a Areas, prefix: &[u8], key: &[u8]) -> Option<Found<'a>>
    ensures { IsWhole areas.now → option_map found_of result
        ≡ first (after (prefix.now, key.now) (places (entries areas.now))) }
{
    match areas {
        Tree::Leaf => None,
        Tree::Fork(node) => match compare(prefix, node.key.as_slice()) {
            Ordering::Less => match next(&node.left, prefix, key) {
                Some(entry) => Some(entry),
                None => under_prefix(&node.key, node.value.first()),
            },
            Ordering::Equal => match node.value.first_above(key) {
                Some(found) => under_prefix(&node.key, Some(found)),
                None => next(&node.right, prefix, key),
            },
            Ordering::Greater => next(&node.right, prefix, key),
        },
    }
}
