//! Expressions are printed.

ghost use Rattle.std.specs.Prelude.{◌≡◌};
ghost use Rattle.token_core.specs.Prints.{Appends};
ghost use Rattle.syn_path.specs.declared.supplied.Place.TheVariants.{ArrayLen, Block};
ghost use Rattle.syn_attr.specs.attr.Printing as printing;
ghost use Rattle.syn_attr.specs.attr.Consts as consts;
ghost use Rattle.syn_attr.specs.attr.Printing.{at_place};

use crate::attr::print::print_outer;
use crate::expr::{Expr, ExprBlock, ExprConst, ExprLit, ExprMacro, ExprPath, ExprRange};
use std::alloc::{AllocError, Global};
use syn_path::path::print_mod_path;
use syn_path::supplied::{Place, Subtree};
use token_core::token::Brace;
use token_core::{ToTokens, TokenStream};

impl<X: Subtree> ToTokens for Expr<X> {
    ghost print = { printing.value X.prints };

    fn append_tokens(&self, alloc: Global, out: &mut TokenStream) -> Result<(), AllocError> {
        print_value(alloc, self, out)
    }
}

impl<X: Subtree> ToTokens for ExprLit<X> {
    ghost print = { printing.literal X.prints };

    fn append_tokens(&self, alloc: Global, out: &mut TokenStream) -> Result<(), AllocError> {
        print_literal(alloc, self, out)
    }
}

impl<X: Subtree> ToTokens for ExprPath<X> {
    ghost print = { printing.expr_path X.prints };

    fn append_tokens(&self, alloc: Global, out: &mut TokenStream) -> Result<(), AllocError> {
        print_expr_path(alloc, self, out)
    }
}

impl<X: Subtree> ToTokens for ExprConst<X> {
    ghost print = { printing.expr_const X.prints };

    fn append_tokens(&self, alloc: Global, out: &mut TokenStream) -> Result<(), AllocError> {
        print_expr_const(alloc, self, out)
    }
}

impl<X: Subtree> ToTokens for ExprMacro<X> {
    ghost print = { printing.expr_macro X.prints };

    fn append_tokens(&self, alloc: Global, out: &mut TokenStream) -> Result<(), AllocError> {
        print_expr_macro(alloc, self, out)
    }
}

impl<X: Subtree> ToTokens for ExprRange<X> {
    ghost print = { printing.range X.prints };

    fn append_tokens(&self, alloc: Global, out: &mut TokenStream) -> Result<(), AllocError> {
        print_range(alloc, self, out)
    }
}

impl<X: Subtree> ToTokens for ExprBlock<X> {
    ghost print = { printing.block X.prints };

    fn append_tokens(&self, alloc: Global, out: &mut TokenStream) -> Result<(), AllocError> {
        print_block(alloc, self, out)
    }
}

/// Appends an expression as a value; refused, what stood before is kept.
#[cycle(print)]
#[tactic(auto, using(token_core::proofs::Puts::puts, crate::proofs::attr_laws::Prints::prints))]
pub fn print_value<X: Subtree>(
    alloc: Global,
    value: &Expr<X>,
    out: &mut TokenStream,
) -> Result<(), AllocError>
    ensures appends { Appends (printing.value X.prints value.now) result out.old out.new }
{
    match value {
        Expr::Lit(expr) => {
            print_outer(alloc, &expr.attrs, out)?;
            expr.lit.to_tokens(alloc, out)
        }
        Expr::Path(expr) => {
            print_outer(alloc, &expr.attrs, out)?;
            print_mod_path(alloc, &expr.path, out)
        }
        Expr::Const(expr) => {
            print_outer(alloc, &expr.attrs, out)?;
            print_const_block(alloc, expr, out)
        }
        Expr::Macro(expr) => {
            print_outer(alloc, &expr.attrs, out)?;
            expr.mac.to_tokens(alloc, out)
        }
        Expr::Range(expr) => print_range(alloc, expr, out),
        Expr::Block(expr) => {
            print_outer(alloc, &expr.attrs, out)?;
            print_body(alloc, &expr.body, &expr.brace_token, out)
        }
        Expr::Other(tree) => tree.print(alloc, Place::Value, out),
    }
}

#[cycle(print)]
#[tactic(auto, using(token_core::proofs::Puts::puts, crate::proofs::attr_laws::Prints::prints))]
fn print_range<X: Subtree>(
    alloc: Global,
    expr: &ExprRange<X>,
    out: &mut TokenStream,
) -> Result<(), AllocError>
    ensures appends { Appends (printing.range X.prints expr.now) result out.old out.new }
{
    print_outer(alloc, &expr.attrs, out)?;
    match &expr.start {
        Some(start) => {
            print_value(alloc, start.get(), out)?;
            print_range_end(alloc, expr, out)
        }
        None => print_range_end(alloc, expr, out),
    }
}

/// The limits of a range and what follows them.
#[cycle(print)]
#[tactic(auto, using(token_core::proofs::Puts::puts, crate::proofs::attr_laws::Prints::prints))]
fn print_range_end<X: Subtree>(
    alloc: Global,
    expr: &ExprRange<X>,
    out: &mut TokenStream,
) -> Result<(), AllocError>
    ensures appends { Appends (printing.range_end X.prints expr.now) result out.old out.new }
{
    expr.limits.to_tokens(alloc, out)?;
    match &expr.end {
        Some(end) => print_value(alloc, end.get(), out),
        None => Ok(()),
    }
}

#[tactic(auto, using(token_core::proofs::Puts::puts))]
fn print_literal<X: Subtree>(
    alloc: Global,
    expr: &ExprLit<X>,
    out: &mut TokenStream,
) -> Result<(), AllocError>
    ensures appends { Appends (printing.literal X.prints expr.now) result out.old out.new }
{
    print_outer(alloc, &expr.attrs, out)?;
    expr.lit.to_tokens(alloc, out)
}

#[tactic(auto, using(token_core::proofs::Puts::puts))]
fn print_expr_path<X: Subtree>(
    alloc: Global,
    expr: &ExprPath<X>,
    out: &mut TokenStream,
) -> Result<(), AllocError>
    ensures appends { Appends (printing.expr_path X.prints expr.now) result out.old out.new }
{
    print_outer(alloc, &expr.attrs, out)?;
    print_mod_path(alloc, &expr.path, out)
}

#[tactic(auto, using(token_core::proofs::Puts::puts))]
fn print_expr_const<X: Subtree>(
    alloc: Global,
    expr: &ExprConst<X>,
    out: &mut TokenStream,
) -> Result<(), AllocError>
    ensures appends { Appends (printing.expr_const X.prints expr.now) result out.old out.new }
{
    print_outer(alloc, &expr.attrs, out)?;
    print_const_block(alloc, expr, out)
}

/// A const block without its attributes.
#[tactic(auto, using(token_core::proofs::Puts::puts))]
fn print_const_block<X: Subtree>(
    alloc: Global,
    expr: &ExprConst<X>,
    out: &mut TokenStream,
) -> Result<(), AllocError>
    ensures appends { Appends (printing.const_block X.prints expr.now) result out.old out.new }
{
    expr.const_token.to_tokens(alloc, out)?;
    print_body(alloc, &expr.body, &expr.brace_token, out)
}

#[tactic(auto, using(token_core::proofs::Puts::puts))]
fn print_expr_macro<X: Subtree>(
    alloc: Global,
    expr: &ExprMacro<X>,
    out: &mut TokenStream,
) -> Result<(), AllocError>
    ensures appends { Appends (printing.expr_macro X.prints expr.now) result out.old out.new }
{
    print_outer(alloc, &expr.attrs, out)?;
    expr.mac.to_tokens(alloc, out)
}

#[tactic(auto, using(token_core::proofs::Puts::puts))]
fn print_block<X: Subtree>(
    alloc: Global,
    expr: &ExprBlock<X>,
    out: &mut TokenStream,
) -> Result<(), AllocError>
    ensures appends { Appends (printing.block X.prints expr.now) result out.old out.new }
{
    print_outer(alloc, &expr.attrs, out)?;
    print_body(alloc, &expr.body, &expr.brace_token, out)
}

/// The body of a block in its braces.
#[tactic(auto, using(token_core::proofs::Puts::puts))]
fn print_body<X: Subtree>(
    alloc: Global,
    body: &X,
    brace_token: &Brace,
    out: &mut TokenStream,
) -> Result<(), AllocError>
    ensures appends { Appends (printing.body X.prints brace_token.now body.now) result out.old out.new }
{
    let mut content = TokenStream::new(alloc);
    body.print(alloc, Place::Block, &mut content)?;
    brace_token.surround(content, out)
}

/// The length of an array: the supplied subtree in this place, and anything else as it prints as a value.
#[tactic(auto, using(token_core::proofs::Puts::puts, crate::proofs::attr_laws::Prints::places))]
pub fn print_len<X: Subtree>(
    alloc: Global,
    len: &Expr<X>,
    out: &mut TokenStream,
) -> Result<(), AllocError>
    ensures appends { Appends (at_place X.prints ArrayLen len.now) result out.old out.new }
{
    match len {
        Expr::Other(tree) => tree.print(alloc, Place::ArrayLen, out),
        _ => print_value(alloc, len, out),
    }
}

/// A const argument: a literal, a block or an identifier as it prints as a value, anything else in braces.
#[tactic(auto, using(token_core::proofs::Puts::puts, crate::proofs::attr_laws::Consts::consts))]
pub fn print_const_argument<X: Subtree>(
    alloc: Global,
    value: &Expr<X>,
    out: &mut TokenStream,
) -> Result<(), AllocError>
    ensures appends { Appends (consts.const_argument X.prints value.now) result out.old out.new }
{
    if stands_alone(value) {
        return print_value(alloc, value, out);
    }
    let mut content = TokenStream::new(alloc);
    print_in_braces(alloc, value, &mut content)?;
    Brace::default().surround(content, out)
}

/// Whether a const argument needs no braces: a literal, a block, or an identifier without attributes.
#[tactic(auto, using(crate::proofs::attr_laws::Consts::alone))]
fn stands_alone<X>(value: &Expr<X>) -> bool
    ensures { result ≡ consts.stands_alone value.now }
{
    match value {
        Expr::Lit(_) => true,
        Expr::Block(_) => true,
        Expr::Path(expr) => expr.attrs.len() == 0 && expr.path.get_ident().is_some(),
        _ => false,
    }
}

/// What stands between the braces of a const argument.
#[tactic(auto, using(token_core::proofs::Puts::puts, crate::proofs::attr_laws::Prints::places))]
fn print_in_braces<X: Subtree>(
    alloc: Global,
    value: &Expr<X>,
    out: &mut TokenStream,
) -> Result<(), AllocError>
    ensures appends { Appends (at_place X.prints Block value.now) result out.old out.new }
{
    match value {
        Expr::Other(tree) => tree.print(alloc, Place::Block, out),
        _ => print_value(alloc, value, out),
    }
}
