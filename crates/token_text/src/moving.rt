//! Tokens of what a string literal holds, moved to where they stand in the literal.

ghost use Rattle.std.specs.Prelude.{◌≡◌, Option, IfOk};
ghost use Rattle.token_core.specs.Refusal.{Stored, out_of_memory};
ghost use Rattle.token_text.specs.Moving as spec;

use crate::string::Content;
use std::alloc::{AllocError, Global};
use token_core::{
    DelimSpan, Error, ErrorKind, Group, Ident, Literal, Punct, Span, TokenStream, TokenTree,
};

impl Content<'_> {
    /// Where a place of what the string holds stands in the literal.
    #[tactic(auto, unfolding(crate::specs::Moving::moved))]
    fn moved(&self, at: Span) -> Span
        ensures { result ≡ spec.moved self.now.held.places.items self.now.closing at }
    {
        let first = self.held.places.get(at.lo);
        let last = self.held.places.get(at.hi.saturating_sub(1));
        let from = first.map_or(self.closing.lo, |place| place.lo);
        let to = last.map_or(self.closing.hi, |place| place.hi);
        Span::new(from, to)
    }

    fn moved_sides(&self, at: DelimSpan) -> DelimSpan
        ensures { result ≡ spec.moved_sides (spec.moved self.now.held.places.items self.now.closing) at }
    {
        DelimSpan::new(self.moved(at.opening), self.moved(at.closing))
    }

    /// Tokens of what the string holds, where they stand in the literal.
    pub fn moved_tokens(
        &self,
        alloc: Global,
        tokens: &TokenStream,
    ) -> Result<TokenStream, AllocError>
        ensures { IfOk result
            (λ s. s ≡ spec.moved_trees (spec.moved self.now.held.places.items self.now.closing) tokens.now) }
    {
        moved_trees(alloc, tokens.trees(), self)
    }

    /// A refusal of what the string holds, where it stands in the literal.
    pub fn moved_error(&self, alloc: Global, e: &Error) -> Error
        ensures moved { Stored result
            (spec.moved_refusal (spec.moved self.now.held.places.items self.now.closing) e.now) }
        ensures memory { e.now.kind ≡ ErrorKind.OutOfMemory → result ≡ out_of_memory }
    {
        match e.kind() {
            ErrorKind::OutOfMemory => Error::out_of_memory(),
            kind => Error::of(
                alloc,
                kind,
                e.text(),
                self.moved(e.start()),
                self.moved(e.end()),
            ),
        }
    }
}

/// The tokens with their places in the literal.
#[cycle(moved)]
fn moved_trees(
    alloc: Global,
    trees: &[TokenTree],
    content: &Content<'_>,
) -> Result<TokenStream, AllocError>
    ensures { IfOk result
        (λ s. s ≡ spec.moved_trees (spec.moved content.now.held.places.items content.now.closing) trees.now) }
{
    let mut moved = TokenStream::new(alloc);
    for tree in trees {
        moved.push(moved_tree(alloc, tree, content)?)?;
    }
    Ok(moved)
}

#[cycle(moved)]
fn moved_tree(
    alloc: Global,
    tree: &TokenTree,
    content: &Content<'_>,
) -> Result<TokenTree, AllocError>
    ensures { IfOk result
        (λ t. t ≡ spec.moved_tree (spec.moved content.now.held.places.items content.now.closing) tree.now) }
{
    match tree {
        TokenTree::Ident(ident) => {
            let moved = Ident::new(alloc, ident.text(), content.moved(ident.span))?;
            Ok(TokenTree::Ident(moved))
        }
        TokenTree::Punct(mark) => {
            let moved = Punct::new(mark.ch, mark.spacing, content.moved(mark.span));
            Ok(TokenTree::Punct(moved))
        }
        TokenTree::Literal(literal) => {
            let span = content.moved(literal.span);
            let moved = Literal::new(alloc, literal.kind, literal.text(), span)?;
            Ok(TokenTree::Literal(moved))
        }
        TokenTree::Group(group) => Ok(TokenTree::Group(moved_group(alloc, group, content)?)),
    }
}

#[cycle(moved)]
fn moved_group(alloc: Global, group: &Group, content: &Content<'_>) -> Result<Group, AllocError>
    ensures { IfOk result
        (λ g. g ≡ spec.moved_group (spec.moved content.now.held.places.items content.now.closing) group.now) }
{
    let moved = moved_trees(alloc, group.stream().trees(), content)?;
    let span = content.moved_sides(group.delim_span());
    Group::shared(alloc, group.delimiter(), moved, span)
}
