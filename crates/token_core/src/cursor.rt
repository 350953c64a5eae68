//! A position in a buffer.

ghost use Rattle.std.specs.Prelude.{◌≡◌, ◌∷◌, ◌++◌, map, false, MatchOption, option_map};
ghost use Rattle.token_core.specs.Positions as spec;
ghost use Rattle.token_core.specs.Positions.{item, tree_items, entries_items};
ghost use Rattle.token_core.specs.Entries.{saw, saw_layer, Nested};
ghost use Rattle.token_core.specs.declared.tree.TokenTree.{out-TokenTree};

use crate::buffer::{around, is_end};
use crate::class::{Class, Entry};
use crate::tree::TokenTree;
use std::marker::Model;

/// A position in a buffer: the entries from there on to the end of the whole buffer.
#[derive(Drop)]
pub struct Cursor<'a> {
    pub(crate) entries: &'a [Entry<'a>],
}

impl<'a> Model for Cursor<'a> {
    ghost use Rattle.std.specs.Prelude.{List, map};
    ghost use Rattle.token_core.specs.Positions.{Item, items_code, entries_items};

    ghost Value = { List Item };

    ghost coded = { items_code };

    ghost use Rattle.token_core.specs.Entries.{saw, Nested};

    ghost view = { λ c. entries_items c.entries.now };

    // each group's entry is followed by those of its content
    ghost invariant = { λ c. Nested (map saw c.entries.now) };
}

impl<'a> Cursor<'a> {
    /// The same position.
    pub fn again(&self) -> Cursor<'a>
        ensures { result ≡ self.now }
    {
        Cursor {
            entries: self.entries,
        }
    }

    /// The tree that stands there, and the position after it; none at the end of a group and at the end of the buffer.
    pub fn tree(&self) -> Option<(&'a TokenTree, Cursor<'a>)>
        ensures { MatchOption result (spec.has_tree self.now ≡ false) (λ p. self.now ≡ tree_items p.0.now ++ p.1) }
    {
        if self.entries.len() == 0 {
            return None;
        }
        tree_at(&self.entries[0], &self.entries[1..])
    }

    /// The position inside the group that stands there.
    pub fn enter(&self) -> Option<Cursor<'a>>
        ensures { option_map (λ c. c) result ≡ spec.entered self.now }
    {
        if self.entries.len() == 0 {
            return None;
        }
        inside(&self.entries[0], &self.entries[1..])
    }

    /// The position after the group whose end stands there.
    pub fn leave(&self) -> Option<Cursor<'a>>
        ensures { option_map (λ c. c) result ≡ spec.left self.now }
    {
        if self.entries.len() == 0 {
            return None;
        }
        outside(&self.entries[0], &self.entries[1..])
    }

    /// Whether it stands before another position of the same buffer: whether more of the buffer is left.
    pub fn is_before(&self, other: &Cursor<'_>) -> bool
        ensures { result ≡ spec.is_before self.now other.now }
    {
        other.entries.len() < self.entries.len()
    }
}

fn tree_at<'a>(entry: &Entry<'a>, more: &'a [Entry<'a>]) -> Option<(&'a TokenTree, Cursor<'a>)>
    requires { Nested (saw entry.now ∷ map saw more.now) }
    ensures { MatchOption result (spec.has_tree (item (saw entry.now) ∷ entries_items more.now) ≡ false)
        (λ p. item (saw entry.now) ∷ entries_items more.now ≡ tree_items p.0.now ++ p.1) }
{
    if is_end(entry) {
        None
    } else {
        Some((entry.tree, past_tree(entry.tree, entry.content, more)))
    }
}

/// What follows a tree.
fn past_tree<'a>(tree: &TokenTree, n: usize, more: &'a [Entry<'a>]) -> Cursor<'a>
    requires { Nested (saw_layer n (out-TokenTree tree.now) ∷ map saw more.now) }
    ensures { item (saw_layer n (out-TokenTree tree.now)) ∷ entries_items more.now ≡ tree_items tree.now ++ result }
{
    match tree {
        TokenTree::Ident(_) => Cursor { entries: more },
        TokenTree::Punct(_) => Cursor { entries: more },
        TokenTree::Literal(_) => Cursor { entries: more },
        TokenTree::Group(_) => Cursor {
            entries: around(n, more).1,
        },
    }
}

fn inside<'a>(entry: &Entry<'a>, more: &'a [Entry<'a>]) -> Option<Cursor<'a>>
    requires { Nested (saw entry.now ∷ map saw more.now) }
    ensures { option_map (λ c. c) result ≡ spec.entered (item (saw entry.now) ∷ entries_items more.now) }
{
    match entry.class() {
        Class::Open(_) => Some(Cursor { entries: more }),
        _ => None,
    }
}

fn outside<'a>(entry: &Entry<'a>, more: &'a [Entry<'a>]) -> Option<Cursor<'a>>
    requires { Nested (saw entry.now ∷ map saw more.now) }
    ensures { option_map (λ c. c) result ≡ spec.left (item (saw entry.now) ∷ entries_items more.now) }
{
    if is_end(entry) {
        Some(Cursor { entries: more })
    } else {
        None
    }
}
