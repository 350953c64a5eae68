//! Where trees stand in the text that they were read from.

ghost use Rattle.std.specs.Prelude.{◌≡◌, IfOk};
ghost use Rattle.token_core.specs.declared.tree.TokenTree.{out-TokenTree};
ghost use Rattle.syn_walk.specs.Spanned as spec;

use std::alloc::{AllocError, Global};
use token_core::{Span, ToTokens, TokenStream, TokenTree};

/// Where the print of a tree stands: from the first of its tokens that a text gave to the last; 0 to 0 where no text gave one. (In syn
/// `Spanned::span`.)
///
/// The tree is printed for it, so it is refused where memory is.
pub fn span_of<T: ToTokens>(alloc: Global, tree: &T) -> Result<Span, AllocError>
    ensures { IfOk result (λ s. s ≡ spec.span_of (T.print tree.now)) }
{
    let mut tokens = TokenStream::new(alloc);
    tree.to_tokens(alloc, &mut tokens)?;
    Ok(span_of_tokens(&tokens))
}

/// Where tokens stand: from the first that a text gave to the last.
#[tactic(auto, using(crate::proofs::Spans::spans))]
pub fn span_of_tokens(tokens: &TokenStream) -> Span
    ensures { result ≡ spec.span_of tokens.now }
{
    let mut found = None;
    for tree in tokens.as_slice() {
        found = further(found, span_of_tree(tree));
    }
    found.unwrap_or(Span::none())
}

/// Where a token stands, a group from its opening to the end of its closing delimiter.
pub fn span_of_tree(tree: &TokenTree) -> Span
    ensures { result ≡ spec.stands tree.now }
{
    match tree {
        TokenTree::Ident(ident) => ident.span(),
        TokenTree::Punct(punct) => punct.span(),
        TokenTree::Literal(literal) => literal.span(),
        TokenTree::Group(group) => group.delim_span().join(),
    }
}

/// What was found so far, with the next place; one that no text gave changes nothing.
fn further(found: Option<Span>, next: Span) -> Option<Span>
    ensures { result ≡ spec.further found next }
{
    if next.hi == 0 {
        return found;
    }
    match found {
        None => Some(next),
        Some(span) => Some(Span::new(span.lo, next.hi)),
    }
}
