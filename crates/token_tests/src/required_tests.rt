//! Calls that require something of their caller, each where it is met.

ghost use Rattle.token_core.specs.Reads.{Follows};

use std::alloc::{AllocError, Global};
use std::test::Fail;
use token_core::token::Comma;
use token_core::{
    ByFn, Cursor, Error, Ident, ParseStream, Punctuated, Span, TokenBuffer, TokenStream, TokenTree,
    read_all_with, read_scoped, verbatim,
};

/// Words, at no place.
fn words(alloc: Global, texts: [&str; 2]) -> Result<TokenStream, AllocError> {
    let mut list = TokenStream::new(alloc);
    for text in texts {
        list.push(TokenTree::Ident(Ident::new(alloc, text, Span::none())?))?;
    }
    Ok(list)
}

/// The tree that stands there: the position after it is reached from there.
#[tactic(auto, using(token_core::proofs::Places::positions))]
fn first(alloc: Global, begin: &Cursor<'_>) -> Result<TokenStream, AllocError> {
    match begin.tree() {
        Some((_, after)) => verbatim::between(alloc, begin, &after),
        None => Ok(TokenStream::new(alloc)),
    }
}

/// The trees that a stream goes on by where it reads an identifier.
#[tactic(auto, using(token_core::proofs::Places::positions))]
fn taken(alloc: Global, input: &mut ParseStream<'_>) -> Result<TokenStream, Error> {
    let begin = input.cursor();
    drop(input.parse::<Ident>(alloc)?);
    Ok(verbatim::between(alloc, &begin, &input.cursor())?)
}

#[test]
fn positions_are_reached(rt: HostRuntime) -> Result<(), Fail> {
    let alloc = rt.alloc();
    let list = words(alloc, ["a", "b"])?;
    let buffer = TokenBuffer::new(alloc, &list)?;
    let mut input = ParseStream::new(&buffer, Span::none());
    assert_eq!(rt; first(alloc, &buffer.begin())?.len(), 1);
    match taken(alloc, &mut input) {
        Ok(part) => assert_eq!(rt; part.len(), 1),
        Err(_) => panic!(rt; "no identifier"),
    }
    Ok(())
}

/// Goes on from a fork.
#[tactic(auto, using(token_core::proofs::Suffixes::forks))]
fn by_fork(alloc: Global, input: &mut ParseStream<'_>) -> Result<Ident, Error>
    ensures { Follows input.old input.new }
{
    let mut fork = input.fork();
    let ident = fork.parse::<Ident>(alloc)?;
    input.advance_to(fork);
    Ok(ident)
}

/// Calls a function and a closure.
#[tactic(auto, using(token_core::proofs::Suffixes::follows))]
fn by_calls(alloc: Global, input: &mut ParseStream<'_>) -> Result<(Ident, Ident), Error>
    ensures { Follows input.old input.new }
{
    let one = input.call(alloc, by_fork)?;
    let closure = |alloc: Global, input: &mut ParseStream<'_>| -> Result<Ident, Error>
        ensures { Follows input.old input.new }
    { input.parse::<Ident>(alloc) };
    let two = input.call(alloc, closure)?;
    Ok((one, two))
}

/// Whole reads by functions.
fn by_functions(alloc: Global, list: &TokenStream) -> Result<bool, Error> {
    let (a, _) = read_all_with(alloc, ByFn(by_calls), list)?;
    let (_, b) = read_scoped(alloc, ByFn(by_calls), Span::none(), list)?;
    Ok((a.text() == "a") & (b.text() == "b"))
}

#[test]
fn functions_are_parsers(rt: HostRuntime) -> Result<(), Fail> {
    let alloc = rt.alloc();
    let list = words(alloc, ["a", "b"])?;
    match by_functions(alloc, &list) {
        Ok(are_read) => assert!(rt; are_read),
        Err(_) => panic!(rt; "refused"),
    }
    Ok(())
}

/// `1 , 2 ,`
fn numbers(alloc: Global) -> Result<Punctuated<u8, Comma>, AllocError> {
    let mut list = Punctuated::new(alloc);
    list.push_value(1)?;
    list.push_punct(Comma::default())?;
    if list.empty_or_trailing() {
        list.push_value(2)?;
        list.push_punct(Comma::default())?;
    }
    Ok(list)
}

fn second(list: &Punctuated<u8, Comma>) -> u8 {
    if list.len() > 1 { list[1] } else { 0 }
}

#[test]
fn values_and_marks_take_turns(rt: HostRuntime) -> Result<(), Fail> {
    let list = numbers(rt.alloc())?;
    assert_eq!(rt; second(&list), 2);
    Ok(())
}
