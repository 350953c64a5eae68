//! Lifetimes.

ghost use Rattle.std.specs.Prelude.{◌≡◌, option_map, IfOk, OnErr};
ghost use Rattle.token_core.specs.Fronted.{Fronted};
ghost use Rattle.token_core.specs.Grammars as grammars;
ghost use Rattle.token_core.specs.Headline.{Heads};
ghost use Rattle.token_core.specs.Lifetimes as spec;
ghost use Rattle.token_core.specs.Prints as prints;
ghost use Rattle.token_core.specs.Prints.{Appends};
ghost use Rattle.token_core.specs.Reads.{Reads, Parses};
ghost use Rattle.token_core.specs.TokenNames as names;

use crate::error::Error;
use crate::parse::Token;
use crate::parse_stream::{ParseStream, as_punct, as_word};
use crate::place::Place;
use crate::span::Span;
use crate::to_tokens::ToTokens;
use crate::token_names::LIFETIME;
use crate::tree::{Ident, Punct, Spacing, TokenStream, TokenTree};
use std::alloc::{AllocError, Global};

/// A lifetime: a quote and any identifier, keywords too.
#[derive(Drop)]
pub struct Lifetime {
    pub apostrophe: Span,
    pub ident: Ident,
}

/// The lifetime at the front, lent, and what follows it.
fn past_lifetime<'a>(at: Place<'a>) -> Option<(Span, &'a Ident, Place<'a>)>
    ensures { option_map (λ p. (spec.lifetime p.0 p.1.now, p.2)) result ≡ spec.past_lifetime at.entry }
{
    match as_punct(at.next()) {
        Some((quote, more)) => {
            if quote.ch == '\'' && quote.spacing == Spacing::Joint {
                with_ident(quote.span, more)
            } else {
                None
            }
        }
        None => None,
    }
}

fn with_ident<'a>(apostrophe: Span, at: Place<'a>) -> Option<(Span, &'a Ident, Place<'a>)>
    ensures { option_map (λ p. (spec.lifetime p.0 p.1.now, p.2)) result
        ≡ spec.with_ident apostrophe (spec.next_word at.entry) }
{
    match as_word(at.next()) {
        Some((ident, more)) => Some((apostrophe, ident, more)),
        None => None,
    }
}

impl Lifetime {
    pub fn new(apostrophe: Span, ident: Ident) -> Lifetime
        ensures { result ≡ spec.lifetime apostrophe ident }
    {
        Lifetime { apostrophe, ident }
    }

    /// Reads a lifetime, a keyword's too; it is refused where none is at the front.
    pub fn parse_any(alloc: Global, input: &mut ParseStream<'_>) -> Result<Lifetime, Error>
        ensures parses { Parses spec.read_lifetime result input.old input.new }
        ensures same { OnErr result (input.new ≡ input.old) }
        ensures promise { Heads grammars.lifetime.grammar input.old result input.new }
        ensures fronts { Fronted grammars.lifetime input.old result input.new }
    {
        parse_lifetime(alloc, input)
    }

    /// Reads a lifetime if one is at the front.
    #[tactic(auto, using(crate::proofs::Suffixes::follows_self))]
    pub fn parse_optional_any(
        alloc: Global,
        input: &mut ParseStream<'_>,
    ) -> Result<Option<Lifetime>, Error>
        ensures parses { Parses spec.read_optional_lifetime result input.old input.new }
        ensures same { OnErr result (input.new ≡ input.old) }
    {
        if Lifetime::peek(input) {
            Ok(Some(Lifetime::parse_any(alloc, input)?))
        } else {
            Ok(None)
        }
    }

    /// Its equal, spans too.
    pub fn copy(&self, alloc: Global) -> Result<Lifetime, AllocError>
        ensures { IfOk result (λ l. l ≡ self.now) }
    {
        Ok(Lifetime {
            apostrophe: self.apostrophe,
            ident: self.ident.copy(alloc)?,
        })
    }
}

#[tactic(auto, using(crate::proofs::Suffixes::follows_self), unfolding(crate::specs::Lifetimes::read_lifetime))]
fn parse_lifetime(alloc: Global, input: &mut ParseStream<'_>) -> Result<Lifetime, Error>
    ensures parses { Parses spec.read_lifetime result input.old input.new }
    ensures same { OnErr result (input.new ≡ input.old) }
{
    match past_lifetime(input.place()) {
        Some((apostrophe, ident, more)) => {
            let copy = ident.copy(alloc)?;
            input.go_on(more, ident.span);
            Ok(Lifetime::new(apostrophe, copy))
        }
        None => Err(input.expected(alloc, Lifetime::display())),
    }
}

impl Token for Lifetime {
    ghost sees = { spec.sees_lifetime };

    ghost name = { spec.lifetime_name };

    ghost number = { names.lifetime_number };

    fn peek(input: &ParseStream<'_>) -> bool {
        input.place().sees_lifetime()
    }

    fn number() -> u8 {
        LIFETIME
    }
}

impl ToTokens for Lifetime {
    ghost print = { spec.print };

    fn append_tokens(&self, alloc: Global, out: &mut TokenStream) -> Result<(), AllocError> {
        put_lifetime(alloc, self, out)
    }
}

/// Appends a lifetime; refused, what stood before is kept.
#[tactic(auto, using(crate::proofs::Puts::puts))]
fn put_lifetime(alloc: Global, lifetime: &Lifetime, out: &mut TokenStream) -> Result<(), AllocError>
    ensures appends { Appends (spec.print lifetime.now) result out.old out.new }
{
    out.push(TokenTree::Punct(Punct::new('\'', Spacing::Joint, lifetime.apostrophe)))?;
    lifetime.ident.append_tokens(alloc, out)
}
