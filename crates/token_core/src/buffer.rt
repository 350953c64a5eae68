//! A flat buffer of entries that refer to the trees of a list, and what stands at its front.

ghost use Rattle.std.specs.Prelude.{◌≡◌, ◌∷◌, ◌++◌, ◌+◌, map, take, drop, option_map, IfOk, IfSome, OnOk};
ghost use Rattle.token_core.specs.Classes as classes;
ghost use Rattle.token_core.specs.Groups as groups;
ghost use Rattle.token_core.specs.Front as spec;
ghost use Rattle.token_core.specs.Front.{shows, Linked};
ghost use Rattle.token_core.specs.Trees.{delimiter_of, span_of, content_of, toks};
ghost use Rattle.token_core.specs.Entries.{saw, saw_layer, entries_view, flat_tree, flat_stream, Nested};
ghost use Rattle.token_core.specs.Positions.{items, Holds};
ghost use Rattle.token_core.specs.Sees as sees;
ghost use Rattle.token_core.specs.Seen.{view, saw_delimiter, saw_leave};
ghost use Rattle.token_core.specs.declared.tree.TokenTree.{out-TokenTree};

use crate::class::{Class, Entry, tree_class};
use crate::cursor::Cursor;
use crate::place::Place;
use crate::sees::{bounds, is_end as ends, is_group};
use crate::tree::{Delimiter, Group, Ident, Literal, Punct, TokenStream, TokenTree};
use std::alloc::{AllocError, Global};
use std::marker::Model;

impl<'a> Entry<'a> {
    /// Of a tree, and of a group with so many entries of its content.
    fn of(tree: &'a TokenTree, content: usize) -> Entry<'a>
        ensures { saw result ≡ saw_layer content (out-TokenTree tree.now) }
    {
        Entry {
            tree,
            class: tree_class(tree),
            content,
        }
    }

    /// The end of a group.
    fn end(group: &'a TokenTree) -> Entry<'a>
        ensures { saw result ≡ saw_leave }
    {
        Entry {
            tree: group,
            class: Class::End,
            content: 0,
        }
    }

    pub(crate) fn class(&self) -> Class
        ensures { result ≡ classes.class_of (saw self.now) }
    {
        self.class
    }
}

/// Past the bounds of invisible groups at the front.
pub(crate) fn past_bounds<'a>(entries: &'a [Entry<'a>]) -> &'a [Entry<'a>]
    ensures shown { entries_view result.now ≡ spec.front (entries_view entries.now) }
    ensures nested { Nested (map saw entries.now) → Nested (map saw result.now) }
{
    let mut at = 0;
    'bounds: while at < entries.len() && is_bound(&entries[at]) {
        at += 1;
    }
    &entries[at..]
}

fn is_bound(entry: &Entry<'_>) -> bool
    ensures { result ≡ spec.is_bound entry.now }
{
    bounds(entry.class())
}

/// Past the ends of invisible groups at the front.
fn past_ends<'a>(entries: &'a [Entry<'a>]) -> &'a [Entry<'a>]
    ensures shown { entries_view result.now ≡ spec.past_ends (entries_view entries.now) }
    ensures nested { Nested (map saw entries.now) → Nested (map saw result.now) }
{
    let mut at = 0;
    'ends: while at < entries.len() && is_end(&entries[at]) {
        at += 1;
    }
    &entries[at..]
}

pub(crate) fn is_end(entry: &Entry<'_>) -> bool
    ensures { result ≡ spec.is_end entry.now }
{
    ends(entry.class)
}

/// What stands at the front, with what follows it.
#[derive(Drop)]
pub(crate) enum Front<'a> {
    Done,
    Word(&'a Ident, Place<'a>),
    Mark(Punct, Place<'a>),
    Literal(&'a Literal, Place<'a>),
    /// A visible group, its content, and what follows it.
    Group(&'a Group, Place<'a>, Place<'a>),
}

#[tactic(auto, using(crate::proofs::Fronts::views))]
fn shown<'a>(entry: &Entry<'a>, more: &'a [Entry<'a>]) -> Front<'a>
    requires { Nested (saw entry.now ∷ map saw more.now) }
    ensures shown { shows result ≡ spec.settled (view (saw entry.now ∷ map saw more.now)) }
    ensures linked { Linked result }
{
    if is_end(entry) {
        Front::Done
    } else {
        tree_front(entry.tree, entry.content, more)
    }
}

#[tactic(auto, using(crate::proofs::Fronts::views))]
fn tree_front<'a>(tree: &'a TokenTree, n: usize, more: &'a [Entry<'a>]) -> Front<'a>
    requires { Nested (saw_layer n (out-TokenTree tree.now) ∷ map saw more.now) }
    ensures shown { shows result ≡ spec.settled (view (saw_layer n (out-TokenTree tree.now) ∷ map saw more.now)) }
    ensures linked { Linked result }
{
    match tree {
        TokenTree::Ident(ident) => Front::Word(ident, Place::of(more)),
        TokenTree::Punct(punct) => Front::Mark(*punct, Place::of(more)),
        TokenTree::Literal(literal) => Front::Literal(literal, Place::of(more)),
        TokenTree::Group(group) => group_front(group, n, more),
    }
}

#[tactic(auto, using(crate::proofs::Fronts::views))]
fn group_front<'a>(group: &'a Group, n: usize, more: &'a [Entry<'a>]) -> Front<'a>
    requires { Nested
        (saw_delimiter (delimiter_of group.now) (span_of group.now) (content_of group.now) n ∷ map saw more.now) }
    ensures shown { shows result ≡ spec.settled (view
        (saw_delimiter (delimiter_of group.now) (span_of group.now) (content_of group.now) n ∷ map saw more.now)) }
    ensures linked { Linked result }
{
    match group.delimiter() {
        Delimiter::None => Front::Done,
        _ => {
            let (inside, after) = around(n, more);
            Front::Group(group, Place::of(inside), Place::of(after))
        }
    }
}

#[tactic(auto, using(crate::proofs::Fronts::views))]
fn invisible_at<'a>(
    entry: &Entry<'a>,
    more: &'a [Entry<'a>],
) -> Option<(&'a Group, Place<'a>, Place<'a>)>
    requires { Nested (saw entry.now ∷ map saw more.now) }
    ensures shown { option_map (λ p. (span_of p.0.now, p.1, p.2)) result
        ≡ groups.as_invisible (view (saw entry.now ∷ map saw more.now)) }
    ensures held { IfSome result (λ p. Holds (view (saw entry.now ∷ map saw more.now)) p.1 p.2) }
{
    if is_end(entry) {
        None
    } else {
        invisible_tree(entry.tree, entry.content, more)
    }
}

#[tactic(auto, using(crate::proofs::Fronts::views))]
fn invisible_tree<'a>(
    tree: &'a TokenTree,
    n: usize,
    more: &'a [Entry<'a>],
) -> Option<(&'a Group, Place<'a>, Place<'a>)>
    requires { Nested (saw_layer n (out-TokenTree tree.now) ∷ map saw more.now) }
    ensures shown { option_map (λ p. (span_of p.0.now, p.1, p.2)) result
        ≡ groups.as_invisible (view (saw_layer n (out-TokenTree tree.now) ∷ map saw more.now)) }
    ensures held { IfSome result (λ p. Holds (view (saw_layer n (out-TokenTree tree.now) ∷ map saw more.now)) p.1 p.2) }
{
    match tree {
        TokenTree::Group(group) => invisible_group(group, n, more),
        _ => None,
    }
}

#[tactic(auto, using(crate::proofs::Fronts::views))]
fn invisible_group<'a>(
    group: &'a Group,
    n: usize,
    more: &'a [Entry<'a>],
) -> Option<(&'a Group, Place<'a>, Place<'a>)>
    requires { Nested
        (saw_delimiter (delimiter_of group.now) (span_of group.now) (content_of group.now) n ∷ map saw more.now) }
    ensures shown { option_map (λ p. (span_of p.0.now, p.1, p.2)) result ≡ groups.as_invisible (view
        (saw_delimiter (delimiter_of group.now) (span_of group.now) (content_of group.now) n ∷ map saw more.now)) }
    ensures held { IfSome result (λ p. Holds
        (view (saw_delimiter (delimiter_of group.now) (span_of group.now) (content_of group.now) n ∷ map saw more.now))
        p.1 p.2) }
{
    match group.delimiter() {
        Delimiter::None => {
            let (inside, after) = around(n, more);
            Some((group, Place::of(inside), Place::of(after)))
        }
        _ => None,
    }
}

/// The invisible group that stands first.
#[tactic(auto, using(crate::proofs::Fronts::views))]
fn first_invisible<'a>(entries: &'a [Entry<'a>]) -> Option<(&'a Group, Place<'a>, Place<'a>)>
    requires { Nested (map saw entries.now) }
    ensures shown { option_map (λ p. (span_of p.0.now, p.1, p.2)) result
        ≡ groups.as_invisible (entries_view entries.now) }
    ensures held { IfSome result (λ p. Holds (entries_view entries.now) p.1 p.2) }
{
    if entries.len() == 0 {
        return None;
    }
    invisible_at(&entries[0], &entries[1..])
}

/// Within and after a group's content of `n` entries.
pub(crate) fn around<'a>(n: usize, more: &'a [Entry<'a>]) -> (&'a [Entry<'a>], &'a [Entry<'a>])
    ensures inside { result.0.now ≡ take n more.now }
    ensures after { result.1.now ≡ drop (n + 1) more.now }
{
    let end = n.min(more.len());
    let after = if n < more.len() { n + 1 } else { more.len() };
    (&more[..end], &more[after..])
}

/// Past a group's content of `n` entries, and its end.
fn past_content<'a>(n: usize, more: &'a [Entry<'a>]) -> &'a [Entry<'a>]
    ensures { result.now ≡ drop (n + 1) more.now }
{
    let (_, after) = around(n, more);
    after
}

/// What follows a tree of this class.
fn past<'a>(class: Class, n: usize, more: &'a [Entry<'a>]) -> &'a [Entry<'a>]
    ensures { result.now ≡ sees.past class n more.now }
{
    match class {
        Class::Open(_) => past_content(n, more),
        Class::Word(_) => more,
        Class::Raw => more,
        Class::Ident => more,
        Class::Mark(_, _) => more,
        Class::Literal(_) => more,
        Class::End => more,
    }
}

/// What follows the tree of an entry.
fn after<'a>(entry: &Entry<'a>, more: &'a [Entry<'a>]) -> &'a [Entry<'a>]
    ensures { map saw result.now ≡ sees.after_first (saw entry.now ∷ map saw more.now) }
{
    past(entry.class, entry.content, more)
}

/// The class of the first entry.
fn first_class(entries: &[Entry<'_>]) -> Class
    ensures { result ≡ sees.first_class (map saw entries.now) }
{
    if entries.len() == 0 {
        Class::End
    } else {
        entries[0].class()
    }
}

/// The class of the first entry, and what follows its tree.
#[tactic(auto, using(crate::proofs::Fronts::views))]
fn stepped<'a>(entries: &'a [Entry<'a>]) -> (Class, &'a [Entry<'a>])
    ensures class { result.0 ≡ sees.first_class (map saw entries.now) }
    ensures more { map saw result.1.now ≡ sees.after_first (map saw entries.now) }
{
    if entries.len() == 0 {
        return (Class::End, entries);
    }
    let first = &entries[0];
    (first.class(), after(first, &entries[1..]))
}

/// The front as it stands.
#[tactic(auto, using(crate::proofs::Fronts::views))]
fn settled<'a>(entries: &'a [Entry<'a>]) -> Front<'a>
    requires { Nested (map saw entries.now) }
    ensures shown { shows result ≡ spec.settled (entries_view entries.now) }
    ensures linked { Linked result }
{
    if entries.len() == 0 {
        return Front::Done;
    }
    shown(&entries[0], &entries[1..])
}

impl<'a> Place<'a> {
    /// The front within invisible groups, and after the ends of those that are left.
    #[tactic(auto, using(crate::proofs::Fronts::views))]
    pub(crate) fn next(&self) -> Front<'a>
        ensures shown { shows result ≡ spec.front self.now }
        ensures linked { Linked result }
    {
        settled(self.front)
    }

    /// The class of what stands at the front, and what follows its tree.
    pub(crate) fn step(&self) -> (Class, Place<'a>)
        ensures class { result.0 ≡ sees.class_at (spec.front self.now) }
        ensures more { result.1 ≡ sees.rest_of (spec.front self.now) }
    {
        let (class, entries) = stepped(self.front);
        (class, Place::of(entries))
    }

    /// The class at the front.
    pub(crate) fn front_class(&self) -> Class
        ensures { result ≡ sees.class_at (spec.front self.now) }
    {
        first_class(self.front)
    }

    /// Whether an invisible group is at the front, after the ends of others.
    pub(crate) fn sees_invisible(&self) -> bool
        ensures { result ≡ groups.sees_invisible self.now }
    {
        let (class, _) = stepped(past_ends(self.entries));
        is_group(class, Delimiter::None)
    }

    /// The front after the ends of invisible groups, but not within one.
    #[tactic(auto, using(crate::proofs::Fronts::views))]
    pub(crate) fn next_outside(&self) -> Front<'a>
        ensures shown { shows result ≡ spec.settled (spec.past_ends self.now) }
        ensures linked { Linked result }
    {
        settled(past_ends(self.entries))
    }

    /// After the ends of invisible groups, but not within one.
    pub(crate) fn past_ends(&self) -> Place<'a>
        ensures { result ≡ spec.past_ends self.now }
    {
        Place::of(past_ends(self.entries))
    }

    /// The invisible group at the front, after the ends of others, with its content and what follows it.
    pub(crate) fn next_invisible(&self) -> Option<(&'a Group, Place<'a>, Place<'a>)>
        ensures shown { option_map (λ p. (span_of p.0.now, p.1, p.2)) result ≡ groups.next_invisible self.now }
        ensures held { IfSome result (λ p. Holds self.now p.1 p.2) }
    {
        first_invisible(past_ends(self.entries))
    }
}

/// One flat list of entries that refer to the trees of a list.
#[derive(Drop)]
pub struct TokenBuffer<'a> {
    entries: Vec<Entry<'a>>,
}

impl<'a> Model for TokenBuffer<'a> {
    ghost use Rattle.std.specs.Prelude.{map};
    ghost use Rattle.token_core.specs.Toks.{Toks};
    ghost use Rattle.token_core.specs.Pieces.{toks_code};

    ghost Value = { Toks };

    ghost coded = { toks_code };

    ghost use Rattle.token_core.specs.Entries.{entries_view, saw, Nested};

    ghost view = { λ b. entries_view b.entries.items };

    ghost invariant = { λ b. Nested (map saw b.entries.items) };
}

impl<'a> TokenBuffer<'a> {
    /// Refers to the trees and copies none.
    pub fn new(alloc: Global, stream: &'a TokenStream) -> Result<TokenBuffer<'a>, AllocError>
        ensures { IfOk result (λ b. b ≡ toks stream.now) }
    {
        let mut entries = Vec::new(alloc);
        fill_trees(&mut entries, stream.trees())?;
        Ok(TokenBuffer { entries })
    }

    /// The position at its front.
    pub fn begin<'b>(&'b self) -> Cursor<'b>
        ensures { result ≡ items self.now }
    {
        let entries = self.entries.as_slice();
        Cursor { entries }
    }

    /// The place at its front.
    pub(crate) fn place<'b>(&'b self) -> Place<'b>
        ensures { result ≡ self.now }
    {
        Place::of(self.entries.as_slice())
    }
}

#[cycle(fill)]
fn fill_trees<'a>(entries: &mut Vec<Entry<'a>>, trees: &'a [TokenTree]) -> Result<(), AllocError>
    ensures { OnOk result (map saw entries.new.items ≡ map saw entries.old.items ++ flat_stream trees.now) }
{
    for tree in trees {
        fill_tree(entries, tree)?;
    }
    Ok(())
}

#[cycle(fill)]
fn fill_tree<'a>(entries: &mut Vec<Entry<'a>>, tree: &'a TokenTree) -> Result<(), AllocError>
    ensures { OnOk result (map saw entries.new.items ≡ map saw entries.old.items ++ flat_tree tree.now) }
{
    let entry = Entry::of(tree, 0);
    match tree {
        TokenTree::Group(group) => {
            let at = entries.len();
            entries.push(entry)?;
            fill_trees(entries, group.stream().trees())?;
            let n = entries.len() - at - 1;
            entries[at] = Entry::of(tree, n);
            entries.push(Entry::end(tree))?;
            Ok(())
        }
        TokenTree::Ident(_) => {
            entries.push(entry)?;
            Ok(())
        }
        TokenTree::Punct(_) => {
            entries.push(entry)?;
            Ok(())
        }
        TokenTree::Literal(_) => {
            entries.push(entry)?;
            Ok(())
        }
    }
}
