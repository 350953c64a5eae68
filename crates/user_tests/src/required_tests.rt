//! Calls that require something of their caller, each where it is met: a parser that can be called, a closure that goes on in its stream, a path that has a
//! segment.

ghost use Rattle.token_core.specs.Reads.{Follows};

use std::alloc::Global;
use syn_attr::attr::MetaList;
use syn_attr::meta::{ParseNestedMeta, parser};
use syn_path::mac::Macro;
use syn_verbatim::expr::VerbatimExpr;
use token_core::{ByFn, Error, Ident, ParseStream, read_all, read_all_with};
use token_text::lex;

type Attribute = syn_attr::attr::Attribute<VerbatimExpr>;

#[tactic(auto, using(token_core::proofs::Suffixes::follows))]
fn word(alloc: Global, input: &mut ParseStream<'_>) -> Result<Ident, Error>
    ensures { Follows input.old input.new }
{
    input.parse::<Ident>(alloc)
}

/// Parsers by a function, of what a macro call and a meta list hold.
fn by_functions(alloc: Global) -> Result<bool, Error> {
    let mac = read_all::<Macro>(alloc, &lex(alloc, "m!(a)")?)?;
    let list = read_all::<MetaList>(alloc, &lex(alloc, "m(b)")?)?;
    let a = mac.parse_body_with(alloc, ByFn(word))?;
    let b = list.parse_args_with(alloc, ByFn(word))?;
    Ok((a.text() == "a") & (b.text() == "b"))
}

/// Properties in parentheses, with nothing after their paths.
#[tactic(auto, using(token_core::proofs::Suffixes::follows))]
fn descend(alloc: Global, meta: &mut ParseNestedMeta<'_>) -> Result<(), Error>
    ensures { Follows meta.old.input meta.new.input }
{
    let logic = |_: Global, inner: &mut ParseNestedMeta<'_>| -> Result<(), Error>
        ensures { Follows inner.old.input inner.new.input }
    { Ok(()) };
    meta.parse_nested_meta(alloc, logic)
}

/// A closure that counts, at the properties of a list, and a function at those of a whole read.
#[tactic(auto, using(token_core::proofs::Suffixes::follows))]
fn by_closures(alloc: Global) -> Result<usize, Error> {
    let mut calls: usize = 0;
    let list = read_all::<MetaList>(alloc, &lex(alloc, "m(a(b), c(d, e))")?)?;
    let logic = |alloc: Global, meta: &mut ParseNestedMeta<'_>| -> Result<(), Error>
        ensures { Follows meta.old.input meta.new.input }
    {
        calls = calls.saturating_add(1);
        descend(alloc, meta)
    };
    list.parse_nested_meta(alloc, logic)?;
    read_all_with(alloc, parser(descend), &lex(alloc, "f(g)")?)?;
    Ok(calls)
}

/// What an attribute is asked for that is called `a`.
#[tactic(auto, using(crate::proofs::Idents::idents))]
fn asked(alloc: Global, attr: &Attribute) -> Result<bool, Error> {
    if attr.path().is_ident("a") {
        drop(attr.path().require_ident(alloc)?);
        drop(attr.meta.require_list(alloc)?);
        let one = attr.parse_args::<Ident>(alloc)?;
        let two = attr.parse_args_with(alloc, ByFn(word))?;
        let is_value = attr.meta.require_name_value(alloc).is_ok();
        return Ok((one.text() == two.text()) & !is_value);
    }
    Ok(false)
}

#[tactic(auto, using(token_core::proofs::Suffixes::follows))]
fn first(alloc: Global, input: &mut ParseStream<'_>) -> Result<bool, Error>
    ensures { Follows input.old input.new }
{
    match Attribute::parse_outer(alloc, input)?.get(0) {
        Some(attr) => asked(alloc, attr),
        None => Ok(false),
    }
}

fn by_path(alloc: Global) -> Result<bool, Error> {
    read_all_with(alloc, ByFn(first), &lex(alloc, "#[a(b)]")?)
}

#[test]
fn parsers_can_be_called(rt: HostRuntime) {
    assert!(rt; matches!(by_functions(rt.alloc()), Ok(true)));
}

#[test]
fn closures_go_on(rt: HostRuntime) {
    assert!(rt; matches!(by_closures(rt.alloc()), Ok(2)));
}

#[test]
fn paths_have_segments(rt: HostRuntime) {
    assert!(rt; matches!(by_path(rt.alloc()), Ok(true)));
}
