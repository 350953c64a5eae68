//! Values are read.

ghost use Rattle.std.specs.Prelude.{◌≡◌};
ghost use Rattle.token_core.specs.Reads.{Parses};
ghost use Rattle.syn_attr.specs.attr.Reading as reading;

use crate::expr::{Expr, ExprBlock, ExprLit, ExprPath};
use std::alloc::Global;
use syn_path::path::ModPath;
use syn_path::supplied::{Place, Subtree};
use token_core::token::{Brace, Bracket, Pound};
use token_core::{Error, ErrorKind, Ident, Items, Lit, ParseStream};

/// The value of an attribute: a literal that ends the stream, or what the supplied subtree reads.
#[tactic(auto, using(token_core::proofs::Suffixes::follows), unfolding(crate::specs::attr::Reading::value))]
pub(crate) fn parse_value<X: Subtree>(
    alloc: Global,
    input: &mut ParseStream<'_>,
) -> Result<Expr<X>, Error>
    ensures parses { Parses (reading.value X.reads) result input.old input.new }
{
    match parse_last_literal(alloc, input)? {
        Some(lit) => Ok(Expr::Lit(ExprLit {
            attrs: Items::new(alloc),
            lit,
        })),
        None => parse_other(alloc, input),
    }
}

/// The literal that ends the stream, if one does; else the stream stays where it is.
#[tactic(auto, using(token_core::proofs::Suffixes::forks), unfolding(crate::specs::attr::Reading::last_literal))]
fn parse_last_literal(alloc: Global, input: &mut ParseStream<'_>) -> Result<Option<Lit>, Error>
    ensures parses { Parses reading.last_literal result input.old input.new }
{
    let mut ahead = input.fork();
    match ahead.parse_option::<Lit>(alloc)? {
        Some(lit) => {
            if ahead.is_empty() {
                input.advance_to(ahead);
                Ok(Some(lit))
            } else {
                Ok(None)
            }
        }
        None => Ok(None),
    }
}

/// Whether an attribute is at the front: `#` and brackets.
#[tactic(auto, unfolding(crate::specs::attr::Reading::sees_attribute))]
fn peek_attribute(input: &ParseStream<'_>) -> bool
    ensures { result ≡ reading.sees_attribute input.now.rest }
{
    input.peek::<Pound>() && input.peek2::<Bracket>()
}

#[tactic(auto, using(token_core::proofs::Suffixes::follows), unfolding(crate::specs::attr::Reading::other))]
fn parse_other<X: Subtree>(alloc: Global, input: &mut ParseStream<'_>) -> Result<Expr<X>, Error>
    ensures parses { Parses (reading.other X.reads) result input.old input.new }
{
    if peek_attribute(input) {
        return Err(input.refuse(alloc, ErrorKind::AttributeInAttribute));
    }
    Ok(Expr::Other(X::read(alloc, Place::Value, input)?))
}

/// A body in braces.
#[tactic(auto, using(token_core::proofs::Suffixes::follows), unfolding(crate::specs::attr::Reading::block))]
fn parse_block<X: Subtree>(alloc: Global, input: &mut ParseStream<'_>) -> Result<Expr<X>, Error>
    ensures parses { Parses (reading.block X.reads) result input.old input.new }
{
    let (brace_token, mut content) = input.braced(alloc)?;
    let body = X::read(alloc, Place::Block, &mut content)?;
    input.finish(content);
    Ok(Expr::Block(ExprBlock {
        attrs: Items::new(alloc),
        brace_token,
        body,
    }))
}

/// A const argument, or the default of a const parameter: a literal, an identifier or a block (`const_argument`).
#[tactic(auto, using(token_core::proofs::Suffixes::follows), unfolding(crate::specs::attr::Reading::const_argument))]
pub(crate) fn parse_const_argument<X: Subtree>(
    alloc: Global,
    input: &mut ParseStream<'_>,
) -> Result<Expr<X>, Error>
    ensures parses { Parses (reading.const_argument X.reads) result input.old input.new }
{
    if input.peek::<Lit>() {
        let lit = input.parse::<Lit>(alloc)?;
        return Ok(Expr::Lit(ExprLit {
            attrs: Items::new(alloc),
            lit,
        }));
    }
    if input.peek::<Ident>() {
        let ident = input.parse::<Ident>(alloc)?;
        let path = ModPath::from_ident(alloc, ident)?;
        return Ok(Expr::Path(ExprPath {
            attrs: Items::new(alloc),
            path,
        }));
    }
    if input.peek::<Brace>() {
        return parse_block(alloc, input);
    }
    Err(input.lookahead1().error(alloc))
}
