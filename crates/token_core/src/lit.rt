//! Literals as values: literal trees, `true` and `false`, and numbers after a minus.

ghost use Rattle.std.specs.Prelude.{◌≡◌, ◌∷◌, option_map, IfOk, OnErr};
ghost use Rattle.token_core.specs.Lits as spec;
ghost use Rattle.token_core.specs.declared.lit.Lit.TheVariants as variant;
ghost use Rattle.token_core.specs.Prints.{Appends};
ghost use Rattle.token_core.specs.Reads.{Reads, Gives, Fails, as_lit, Parses};
ghost use Rattle.token_core.specs.Front.{front, shows};
ghost use Rattle.token_core.specs.Fronted.{said};
ghost use Rattle.token_core.specs.Grammars as grammars;
ghost use Rattle.token_core.specs.Headline.{Headline};
ghost use Rattle.token_core.specs.Sees as sees;
ghost use Rattle.token_core.specs.TokenNames as names;
ghost use Rattle.token_core.specs.Trees.{trees};

use crate::buffer::Front;
use crate::class::Class;
use crate::error::Error;
use crate::parse::{Parse, Token};
use crate::parse_stream::ParseStream;
use crate::place::Place;
use crate::sees::literal_kind;
use crate::span::Span;
use crate::text::Text;
use crate::to_tokens::{Spanned, ToTokens};
use crate::token_names::{LIT, LIT_STR};
use crate::tree::{Ident, LitKind, Literal, Punct, Spacing, TokenStream, TokenTree};
use crate::word::{FALSE, TRUE};
use std::alloc::{AllocError, Global};
use std::marker::Model;

/// A literal: a literal tree, `true` or `false`, or a minus and an Int or Float literal.
#[derive(Drop)]
pub enum Lit {
    Literal(Literal),
    Bool(LitBool),
    Negative(LitNegative),
}

/// What a literal is: of a literal kind, or `true` or `false`.
#[derive(Clone, Copy, PartialEq, Eq)]
pub enum LitSort {
    Literal(LitKind),
    Bool,
}

/// `true` or `false`
#[derive(Clone, Copy)]
pub struct LitBool {
    pub value: bool,
    pub span: Span,
}

/// A minus and a number.
#[derive(Drop)]
pub struct LitNegative {
    minus: Span,
    number: Literal,
    // the number's text after the minus
    text: Text,
}

impl Model for LitNegative {
    ghost use Rattle.std.specs.Prelude.{◌≡◌, ◌∷◌};
    ghost use Rattle.token_core.specs.Negatives.{Negative, negative_code};

    ghost Value = { Negative };

    ghost coded = { negative_code };

    ghost view = { λ n. record { minus = n.minus; number = n.number } };

    ghost invariant = { λ n. n.text ≡ 45 ∷ n.number.text };
}

/// A string literal: a literal of kind Str.
#[derive(Drop)]
pub struct LitStr {
    pub text: Text,
    pub span: Span,
}

impl LitNegative {
    /// Any number.
    pub fn new(alloc: Global, minus: Span, number: Literal) -> Result<LitNegative, AllocError>
        ensures { IfOk result (λ n. n ≡ spec.negative minus number) }
    {
        let text = Text::joined(alloc, "-", number.text())?;
        Ok(LitNegative {
            minus,
            number,
            text,
        })
    }

    /// The span of the minus.
    pub fn minus(&self) -> Span
        ensures { result ≡ self.now.minus }
    {
        self.minus
    }

    /// The number after the minus.
    pub fn number(&self) -> &Literal
        ensures { result.now ≡ self.now.number }
    {
        &self.number
    }

    /// The minus and the number's text.
    pub fn text(&self) -> &str
        ensures { result.now ≡ 45 ∷ self.now.number.text }
    {
        self.text.as_str()
    }

    /// Its equal, spans too.
    pub fn copy(&self, alloc: Global) -> Result<LitNegative, AllocError>
        ensures { IfOk result (λ n. n ≡ self.now) }
    {
        let number = self.number.copy(alloc)?;
        LitNegative::new(alloc, self.minus, number)
    }
}

impl LitBool {
    pub fn new(value: bool, span: Span) -> LitBool
        ensures { result ≡ spec.lit_bool value span }
    {
        LitBool { value, span }
    }

    pub fn text(&self) -> &'static str
        ensures { result.now ≡ spec.bool_text self.now.value }
    {
        if self.value { "true" } else { "false" }
    }
}

impl From<Literal> for Lit {
    ghost from_gives = { λ literal lit. lit ≡ variant.Literal literal };

    fn from(literal: Literal) -> Lit {
        Lit::Literal(literal)
    }
}

impl Lit {
    /// The literal's kind, or that it is `true` or `false`.
    pub fn kind(&self) -> LitSort
        ensures { result ≡ spec.sort_of self.now }
    {
        match self {
            Lit::Literal(literal) => LitSort::Literal(literal.kind),
            Lit::Bool(_) => LitSort::Bool,
            Lit::Negative(negative) => LitSort::Literal(negative.number().kind),
        }
    }

    /// Its text, the minus too.
    pub fn text(&self) -> &str
        ensures { result.now ≡ spec.text_of self.now }
    {
        match self {
            Lit::Literal(literal) => literal.text(),
            Lit::Bool(value) => value.text(),
            Lit::Negative(negative) => negative.text(),
        }
    }

    /// Its span, from the minus on.
    pub fn span(&self) -> Span
        ensures { result ≡ spec.span_of self.now }
    {
        match self {
            Lit::Literal(literal) => literal.span,
            Lit::Bool(value) => value.span,
            Lit::Negative(negative) => Span::new(negative.minus().lo, negative.number().span.hi),
        }
    }

    /// Its equal, spans too.
    pub fn copy(&self, alloc: Global) -> Result<Lit, AllocError>
        ensures { IfOk result (λ l. l ≡ self.now) }
    {
        match self {
            Lit::Literal(literal) => Ok(Lit::Literal(literal.copy(alloc)?)),
            Lit::Bool(value) => Ok(Lit::Bool(*value)),
            Lit::Negative(negative) => Ok(Lit::Negative(negative.copy(alloc)?)),
        }
    }
}

impl Spanned for Lit {
    ghost stands = { spec.span_of };

    fn span(&self) -> Span {
        Lit::span(self)
    }
}

// ---- reads

/// A literal as it stands in a buffer.
#[derive(Drop)]
enum Found<'a> {
    Literal(&'a Literal),
    Bool(LitBool),
    Negative(Span, &'a Literal),
}

/// The literal tree at the front, and what follows it.
pub(crate) fn as_literal<'a>(at: Front<'a>) -> Option<(&'a Literal, Place<'a>)>
    ensures { option_map (λ p. (p.0.now, p.1)) result ≡ as_lit (shows at.entry) }
{
    match at {
        Front::Literal(literal, more) => Some((literal, more)),
        Front::Word(_, _) => None,
        Front::Mark(_, _) => None,
        Front::Group(_, _, _) => None,
        Front::Done => None,
    }
}

/// `true` or `false`, and what follows it.
fn as_bool<'a>(ident: &'a Ident, more: Place<'a>) -> Option<(Found<'a>, Place<'a>)>
    ensures { option_map (λ p. (spec.found p.0, p.1)) result ≡ spec.past_bool ident.now more.entry }
{
    if ident.text.is("true") {
        Some((Found::Bool(LitBool::new(true, ident.span)), more))
    } else if ident.text.is("false") {
        Some((Found::Bool(LitBool::new(false, ident.span)), more))
    } else {
        None
    }
}

fn is_number(kind: LitKind) -> bool
    ensures { result ≡ spec.is_number kind }
{
    match kind {
        LitKind::Int => true,
        LitKind::Float => true,
        LitKind::Str => false,
        LitKind::ByteStr => false,
        LitKind::CStr => false,
        LitKind::Byte => false,
        LitKind::Char => false,
    }
}

/// Whether a literal begins with a tree of this class.
fn sees_lit(class: Class, more: &Place<'_>) -> bool
    ensures { result ≡ sees.is_lit_at class more.now }
{
    match class {
        Class::Literal(_) => true,
        Class::Word(number) => number == TRUE || number == FALSE,
        Class::Mark(_, ch) => ch == '-' && sees_number(more),
        Class::Raw => false,
        Class::Ident => false,
        Class::Open(_) => false,
        Class::End => false,
    }
}

fn sees_number(at: &Place<'_>) -> bool
    ensures { result ≡ sees.kind_meets spec.is_number (sees.literal_kind (sees.class_at (front at.now))) }
{
    match literal_kind(at.class()) {
        Some(kind) => is_number(kind),
        None => false,
    }
}

/// The number after a minus, and what follows it.
fn as_number<'a>(minus: Span, at: Place<'a>) -> Option<(Found<'a>, Place<'a>)>
    ensures { option_map (λ p. (spec.found p.0, p.1)) result ≡ spec.past_number minus (spec.next_lit at.entry) }
{
    match as_literal(at.next()) {
        Some((number, more)) => {
            if is_number(number.kind) {
                Some((Found::Negative(minus, number), more))
            } else {
                None
            }
        }
        None => None,
    }
}

/// A minus and a number, and what follows them.
fn as_negative<'a>(punct: Punct, more: Place<'a>) -> Option<(Found<'a>, Place<'a>)>
    ensures { option_map (λ p. (spec.found p.0, p.1)) result ≡ spec.past_minus punct more.entry }
{
    if punct.ch == '-' {
        as_number(punct.span, more)
    } else {
        None
    }
}

/// The literal at the front, and what follows it.
fn past_lit<'a>(at: Place<'a>) -> Option<(Found<'a>, Place<'a>)>
    ensures { option_map (λ p. (spec.found p.0, p.1)) result ≡ spec.past_lit at.entry }
{
    match at.next() {
        Front::Literal(literal, more) => Some((Found::Literal(literal), more)),
        Front::Word(ident, more) => as_bool(ident, more),
        Front::Mark(punct, more) => as_negative(punct, more),
        Front::Group(_, _, _) => None,
        Front::Done => None,
    }
}

impl<'a> Found<'a> {
    /// The span of its last tree.
    fn end(&self) -> Span
        ensures { result ≡ spec.end_of (spec.found self.now) }
    {
        match self {
            Found::Literal(literal) => literal.span,
            Found::Bool(value) => value.span,
            Found::Negative(_, number) => number.span,
        }
    }

    fn copy(&self, alloc: Global) -> Result<Lit, AllocError>
        ensures { IfOk result (λ l. l ≡ spec.found self.now) }
    {
        match self {
            Found::Literal(literal) => Ok(Lit::Literal(literal.copy(alloc)?)),
            Found::Bool(value) => Ok(Lit::Bool(*value)),
            Found::Negative(minus, number) => {
                let number = number.copy(alloc)?;
                Ok(Lit::Negative(LitNegative::new(alloc, *minus, number)?))
            }
        }
    }
}

#[tactic(auto, using(crate::proofs::Suffixes::follows_self), unfolding(crate::specs::Lits::read_lit))]
fn parse_lit(alloc: Global, input: &mut ParseStream<'_>) -> Result<Lit, Error>
    ensures parses { Parses spec.read_lit result input.old input.new }
    ensures same { OnErr result (input.new ≡ input.old) }
{
    match past_lit(input.place()) {
        Some((found, more)) => {
            let lit = found.copy(alloc)?;
            input.go_on(more, found.end());
            Ok(lit)
        }
        None => Err(input.expected(alloc, Lit::display())),
    }
}

impl Token for Lit {
    ghost sees = { spec.sees_lit };

    ghost name = { spec.lit_name };

    ghost number = { names.lit_number };

    #[tactic(auto, using(crate::proofs::SeenClasses::lit_seen))]
    fn peek(input: &ParseStream<'_>) -> bool {
        let (class, more) = input.place().step();
        sees_lit(class, &more)
    }

    fn number() -> u8 {
        LIT
    }
}

/// Reads a literal: a literal tree, `true` or `false`, or a minus of either spacing and an Int or Float literal.
impl Parse for Lit {
    ghost reads = { Gives spec.read_lit };

    ghost refuses = { Fails spec.read_lit };

    ghost promise = { Headline grammars.lit.grammar };

    ghost fronts = { said grammars.lit };

    fn parse(alloc: Global, input: &mut ParseStream<'_>) -> Result<Lit, Error> {
        parse_lit(alloc, input)
    }
}

fn is_str(kind: LitKind) -> bool
    ensures { result ≡ spec.is_str kind }
{
    match kind {
        LitKind::Str => true,
        LitKind::ByteStr => false,
        LitKind::CStr => false,
        LitKind::Byte => false,
        LitKind::Char => false,
        LitKind::Int => false,
        LitKind::Float => false,
    }
}

/// The string literal at the front, lent, and what follows it.
fn past_str<'a>(at: Place<'a>) -> Option<(&'a Literal, Place<'a>)>
    ensures { option_map (λ p. (spec.lit_str p.0.now.text p.0.now.span, p.1)) result ≡ spec.past_str at.entry }
{
    match as_literal(at.next()) {
        Some((literal, more)) => {
            if is_str(literal.kind) {
                Some((literal, more))
            } else {
                None
            }
        }
        None => None,
    }
}

#[tactic(auto, using(crate::proofs::Suffixes::follows_self), unfolding(crate::specs::Lits::read_str))]
fn parse_str(alloc: Global, input: &mut ParseStream<'_>) -> Result<LitStr, Error>
    ensures parses { Parses spec.read_str result input.old input.new }
    ensures same { OnErr result (input.new ≡ input.old) }
{
    match past_str(input.place()) {
        Some((literal, more)) => {
            let text = literal.text.copy(alloc)?;
            input.go_on(more, literal.span);
            Ok(LitStr {
                text,
                span: literal.span,
            })
        }
        None => Err(input.expected(alloc, LitStr::display())),
    }
}

impl LitStr {
    /// Any text, as it is written: in quotes.
    pub fn new(alloc: Global, text: &str, span: Span) -> Result<LitStr, AllocError>
        ensures { IfOk result (λ s. s ≡ spec.lit_str text.now span) }
    {
        Ok(LitStr {
            text: Text::from_str(alloc, text)?,
            span,
        })
    }

    pub fn text(&self) -> &str
        ensures { result.now ≡ self.now.text }
    {
        self.text.as_str()
    }

    /// Its equal, span too.
    pub fn copy(&self, alloc: Global) -> Result<LitStr, AllocError>
        ensures { IfOk result (λ s. s ≡ self.now) }
    {
        Ok(LitStr {
            text: self.text.copy(alloc)?,
            span: self.span,
        })
    }
}

impl Token for LitStr {
    ghost sees = { spec.sees_str };

    ghost name = { spec.str_name };

    ghost number = { names.lit_str_number };

    #[tactic(auto, using(crate::proofs::SeenClasses::str_seen))]
    fn peek(input: &ParseStream<'_>) -> bool {
        match literal_kind(input.class()) {
            Some(kind) => is_str(kind),
            None => false,
        }
    }

    fn number() -> u8 {
        LIT_STR
    }
}

/// Reads a string literal.
impl Parse for LitStr {
    ghost reads = { Gives spec.read_str };

    ghost refuses = { Fails spec.read_str };

    ghost promise = { Headline grammars.lit_str.grammar };

    ghost fronts = { said grammars.lit_str };

    fn parse(alloc: Global, input: &mut ParseStream<'_>) -> Result<LitStr, Error> {
        parse_str(alloc, input)
    }
}

// ---- prints

impl ToTokens for Lit {
    ghost print = { spec.print };

    fn append_tokens(&self, alloc: Global, out: &mut TokenStream) -> Result<(), AllocError> {
        put_lit(alloc, self, out)
    }
}

/// Appends a literal; refused, what stood before is kept.
#[tactic(auto, using(crate::proofs::Puts::puts))]
fn put_lit(alloc: Global, lit: &Lit, out: &mut TokenStream) -> Result<(), AllocError>
    ensures appends { Appends (spec.print lit.now) result out.old out.new }
{
    match lit {
        Lit::Literal(literal) => {
            let copy = literal.copy(alloc)?;
            out.push(TokenTree::Literal(copy))
        }
        Lit::Bool(value) => {
            let ident = Ident::new(alloc, value.text(), value.span)?;
            out.push(TokenTree::Ident(ident))
        }
        Lit::Negative(negative) => {
            let number = negative.number().copy(alloc)?;
            out.push(TokenTree::Punct(Punct::new('-', Spacing::Alone, negative.minus())))?;
            out.push(TokenTree::Literal(number))
        }
    }
}

impl ToTokens for LitStr {
    ghost print = { spec.print_str };

    fn append_tokens(&self, alloc: Global, out: &mut TokenStream) -> Result<(), AllocError> {
        let literal = Literal::new(alloc, LitKind::Str, self.text(), self.span)?;
        out.push(TokenTree::Literal(literal))
    }
}
