//! Members of structs and of tuples.

ghost use Rattle.std.specs.Prelude.{◌≡◌, ◌≤◌, IfOk, OnErr};
ghost use Rattle.token_core.specs.Fronted.{said};
ghost use Rattle.token_core.specs.Grammars as grammars;
ghost use Rattle.token_core.specs.Headline.{Headline};
ghost use Rattle.token_core.specs.Members as spec;
ghost use Rattle.token_core.specs.Reads.{Reads, Gives, Fails, Parses};

use crate::error::Error;
use crate::lit::as_literal;
use crate::parse::Parse;
use crate::parse_stream::ParseStream;
use crate::sees::literal_kind;
use crate::span::Span;
use crate::to_tokens::ToTokens;
use crate::tree::{Ident, LitKind, Literal, TokenStream, TokenTree};
use std::alloc::{AllocError, Global};

/// The number of a field.
#[derive(Clone, Copy)]
pub struct Index {
    pub index: u32,
    pub span: Span,
}

/// A field by its name or by its number.
#[derive(Drop)]
pub enum Member {
    Named(Ident),
    Unnamed(Index),
}

impl Index {
    pub fn new(index: u32, span: Span) -> Index
        ensures { result ≡ spec.index index span }
    {
        Index { index, span }
    }
}

// ---- the number of an Int literal

fn begins(text: &[u8], letter: u8) -> bool
    ensures { result ≡ spec.begins letter text.now }
{
    text.len() > 1 && text[0] == b'0' && text[1] == letter
}

/// A number with one digit more, if the byte is a digit and the number fits.
fn put_digit(base: u32, number: u32, ch: u8) -> Option<u32>
    requires low { 2 ≤ base }
    requires high { base ≤ 16 }
    ensures { result ≡ spec.put_digit base number ch }
{
    match (ch as char).to_digit(base) {
        Some(digit) => match number.checked_mul(base) {
            Some(number) => number.checked_add(digit),
            None => None,
        },
        None => None,
    }
}

/// The number that digits of a base and `_` write, if there is a digit and the number fits.
#[tactic(auto, using(crate::proofs::member_laws::digits))]
fn number_of(base: u32, digits: &[u8]) -> Option<u32>
    requires low { 2 ≤ base }
    requires high { base ≤ 16 }
    ensures { result ≡ spec.fitting (spec.number_after base spec.no_number digits.now) }
{
    let mut number = None;
    let mut at = 0;
    'digits: while at < digits.len() {
        let ch = digits[at];
        if ch != b'_' {
            match put_digit(base, number.unwrap_or(0), ch) {
                Some(more) => number = Some(more),
                None => return None,
            }
        }
        at += 1;
    }
    number
}

/// The value of the text of an Int literal without suffix, if it is at most 4,294,967,295.
#[tactic(auto, unfolding(crate::specs::Members::value))]
fn value_of(text: &[u8]) -> Option<u32>
    ensures { result ≡ spec.value text.now }
{
    if begins(text, b'x') {
        number_of(16, &text[2..])
    } else if begins(text, b'o') {
        number_of(8, &text[2..])
    } else if begins(text, b'b') {
        number_of(2, &text[2..])
    } else {
        number_of(10, text)
    }
}

// ---- reads

fn is_int(kind: LitKind) -> bool
    ensures { result ≡ spec.is_int kind }
{
    match kind {
        LitKind::Int => true,
        LitKind::Float => false,
        LitKind::Str => false,
        LitKind::ByteStr => false,
        LitKind::CStr => false,
        LitKind::Byte => false,
        LitKind::Char => false,
    }
}

#[tactic(auto, using(crate::proofs::Suffixes::follows_self), unfolding(crate::specs::Members::read_index))]
fn parse_index(alloc: Global, input: &mut ParseStream<'_>) -> Result<Index, Error>
    ensures parses { Parses spec.read_index result input.old input.new }
    ensures same { OnErr result (input.new ≡ input.old) }
{
    match as_literal(input.place().next()) {
        Some((literal, more)) => {
            if !is_int(literal.kind) {
                return Err(input.expected(alloc, "integer literal"));
            }
            match value_of(literal.text().as_bytes()) {
                Some(index) => {
                    input.go_on(more, literal.span);
                    Ok(Index::new(index, literal.span))
                }
                None => Err(input.expected(alloc, "unsuffixed integer of at most 32 bits")),
            }
        }
        None => Err(input.expected(alloc, "integer literal")),
    }
}

/// Reads an Int literal without suffix, of a value of at most 4,294,967,295.
impl Parse for Index {
    ghost reads = { Gives spec.read_index };

    ghost refuses = { Fails spec.read_index };

    ghost promise = { Headline grammars.index.grammar };

    ghost fronts = { said grammars.index };

    fn parse(alloc: Global, input: &mut ParseStream<'_>) -> Result<Index, Error> {
        parse_index(alloc, input)
    }
}

/// Whether an Int literal is at the front.
#[tactic(auto, using(crate::proofs::SeenClasses::int_seen))]
fn peek_int(input: &ParseStream<'_>) -> bool
    ensures { result ≡ spec.sees_int input.now.rest }
{
    match literal_kind(input.class()) {
        Some(kind) => is_int(kind),
        None => false,
    }
}

#[tactic(auto, using(crate::proofs::Suffixes::follows_self), unfolding(crate::specs::Members::read_member))]
fn parse_member(alloc: Global, input: &mut ParseStream<'_>) -> Result<Member, Error>
    ensures parses { Parses spec.read_member result input.old input.new }
{
    if input.peek_ident() {
        return Ok(Member::Named(input.parse::<Ident>(alloc)?));
    }
    if peek_int(input) {
        Ok(Member::Unnamed(parse_index(alloc, input)?))
    } else {
        Err(input.expected(alloc, "identifier or integer"))
    }
}

/// Reads an `Ident` or an index.
impl Parse for Member {
    ghost reads = { Gives spec.read_member };

    ghost refuses = { Fails spec.read_member };

    ghost promise = { Headline grammars.member.grammar };

    ghost fronts = { said grammars.member };

    fn parse(alloc: Global, input: &mut ParseStream<'_>) -> Result<Member, Error> {
        parse_member(alloc, input)
    }
}

impl Member {
    /// Its equal, span too.
    pub fn copy(&self, alloc: Global) -> Result<Member, AllocError>
        ensures { IfOk result (λ m. m ≡ self.now) }
    {
        match self {
            Member::Named(ident) => Ok(Member::Named(ident.copy(alloc)?)),
            Member::Unnamed(index) => Ok(Member::Unnamed(*index)),
        }
    }
}

// ---- prints

/// In decimal digits.
impl ToTokens for Index {
    ghost print = { spec.print_index };

    fn append_tokens(&self, alloc: Global, out: &mut TokenStream) -> Result<(), AllocError> {
        let text = self.index.to_string(alloc)?;
        let literal = Literal::new(alloc, LitKind::Int, text.as_str(), self.span)?;
        out.push(TokenTree::Literal(literal))
    }
}

impl ToTokens for Member {
    ghost print = { spec.print };

    fn append_tokens(&self, alloc: Global, out: &mut TokenStream) -> Result<(), AllocError> {
        match self {
            Member::Named(ident) => ident.append_tokens(alloc, out),
            Member::Unnamed(index) => index.append_tokens(alloc, out),
        }
    }
}
