//! What prints itself as tokens, and what stands somewhere.

ghost use Rattle.std.specs.Prelude.{◌≡◌, ◌++◌, List, OnOk, OnErr};
ghost use Rattle.token_core.specs.declared.tree.TokenTree.{TokenTree};
ghost use Rattle.token_core.specs.declared.span.Span as spans;
ghost use Rattle.token_core.specs.Prints.{Extends, optional, or_default, each, Appends};
ghost use Rattle.token_core.specs.Trees.{trees};

use crate::boxed::Boxed;
use crate::items::Items;
use crate::span::Span;
use crate::tree::{Ident, Literal, Punct, TokenStream};
use std::alloc::{AllocError, Global};

/// What prints itself as tokens.
pub trait ToTokens {
    /// Its print.
    ghost print: { Self → List TokenTree };

    /// Appends its print; refused for want of memory alone, and then what stood before is kept, and more may stand behind it.
    fn append_tokens(&self, alloc: Global, out: &mut TokenStream) -> Result<(), AllocError>
        ensures ok { OnOk result (trees out.new ≡ trees out.old ++ print self.now) }
        ensures err { OnErr result (Extends (trees out.old) (trees out.new)) };

    /// Appends its print; refused for want of memory alone, and then the list is as before. No impl gives another.
    final fn to_tokens(&self, alloc: Global, out: &mut TokenStream) -> Result<(), AllocError>
        ensures ok { OnOk result (trees out.new ≡ trees out.old ++ print self.now) }
        ensures err { OnErr result (trees out.new ≡ trees out.old) }
    {
        let before = out.len();
        let printed = self.append_tokens(alloc, out);
        if printed.is_err() {
            out.truncate(before);
        }
        printed
    }
}

/// What is there prints itself, what is not there nothing.
impl<T: ToTokens> ToTokens for Option<T> {
    ghost print = { optional T.print };

    fn append_tokens(&self, alloc: Global, out: &mut TokenStream) -> Result<(), AllocError> {
        match self {
            Some(value) => value.append_tokens(alloc, out),
            None => Ok(()),
        }
    }
}

/// What is lent prints itself.
impl<'a, T: ToTokens> ToTokens for &'a T {
    ghost print = { λ x. T.print x.now };

    fn append_tokens(&self, alloc: Global, out: &mut TokenStream) -> Result<(), AllocError> {
        T::append_tokens(*self, alloc, out)
    }
}

/// Each prints itself, in order.
impl<T: ToTokens> ToTokens for Items<T> {
    ghost print = { each T.print };

    fn append_tokens(&self, alloc: Global, out: &mut TokenStream) -> Result<(), AllocError> {
        put_each(alloc, self.as_slice(), out)
    }
}

/// Appends each in order; refused, what stood before is kept.
#[tactic(auto, using(crate::proofs::Puts::puts))]
fn put_each<T: ToTokens>(
    alloc: Global,
    items: &[T],
    out: &mut TokenStream,
) -> Result<(), AllocError>
    ensures appends { Appends (each T.print items.now) result out.old out.new }
{
    for item in items {
        item.append_tokens(alloc, out)?;
    }
    Ok(())
}

/// What is boxed prints itself.
impl<T: ToTokens> ToTokens for Boxed<T> {
    ghost print = { λ x. T.print x };

    fn append_tokens(&self, alloc: Global, out: &mut TokenStream) -> Result<(), AllocError> {
        self.get().append_tokens(alloc, out)
    }
}

/// A token with one default: the one that stands nowhere.
pub trait DefaultToken: ToTokens + Default + Drop {
    /// The default.
    ghost bare: { Self };

    /// There is no other.
    ghost only: { (x : Self) → Self.is_default x → x ≡ bare };
}

/// Prints the token that is there, or its default.
#[derive(Drop)]
pub struct TokensOrDefault<'a, T>(pub &'a Option<T>);

impl<'a, T: DefaultToken> ToTokens for TokensOrDefault<'a, T> {
    ghost print = { λ o. or_default T.print T.bare o.0.now };

    fn append_tokens(&self, alloc: Global, out: &mut TokenStream) -> Result<(), AllocError> {
        match self.0 {
            Some(token) => token.append_tokens(alloc, out),
            None => T::default().append_tokens(alloc, out),
        }
    }
}

/// What stands somewhere.
pub trait Spanned {
    ghost stands: { Self → spans.Span };

    fn span(&self) -> Span
        ensures { result ≡ stands self.now };
}

impl Spanned for Ident {
    ghost stands = { λ i. i.span };

    fn span(&self) -> Span {
        self.span
    }
}

impl Spanned for Punct {
    ghost stands = { λ p. p.span };

    fn span(&self) -> Span {
        self.span
    }
}

impl Spanned for Literal {
    ghost stands = { λ l. l.span };

    fn span(&self) -> Span {
        self.span
    }
}
