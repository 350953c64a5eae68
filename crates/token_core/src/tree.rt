//! Token trees, and lists of them.

ghost use Rattle.std.specs.Prelude.{◌≡◌, IfOk, IsTrue, ◌↔◌};
ghost use Rattle.token_core.specs.Same as sameness;
ghost use Rattle.token_core.specs.declared.tree.TokenTree.{TokenTree};
ghost use Rattle.token_core.specs.declared.tree.TokenTree.TheVariants as kinds;
ghost use Rattle.token_core.specs.Trees as spec;

use crate::content::Content;
use crate::items::Items;
use crate::span::{DelimSpan, Span};
use crate::text::Text;
use std::alloc::{AllocError, Global};

/// The bracket of a group; `None` is an invisible one.
#[derive(Clone, Copy, PartialEq, Eq)]
pub enum Delimiter {
    Parenthesis,
    Brace,
    Bracket,
    None,
}

/// Whether a mark character belongs with the next one.
#[derive(Clone, Copy, PartialEq, Eq)]
pub enum Spacing {
    Joint,
    Alone,
}

#[derive(Clone, Copy, PartialEq, Eq)]
pub enum LitKind {
    Str,
    ByteStr,
    CStr,
    Byte,
    Char,
    Int,
    Float,
}

/// An identifier, keywords and `_` too; a raw one's text begins with `r#`.
#[derive(Drop)]
pub struct Ident {
    pub text: Text,
    pub span: Span,
}

/// A mark character.
#[derive(Clone, Copy, PartialEq, Eq)]
pub struct Punct {
    pub ch: char,
    pub spacing: Spacing,
    pub span: Span,
}

/// A literal: its kind, and its text as written.
#[derive(Drop)]
pub struct Literal {
    pub kind: LitKind,
    pub text: Text,
    pub span: Span,
}

#[cycle(tree)]
#[derive(Drop)]
pub enum TokenTree {
    Ident(Ident),
    Punct(Punct),
    Literal(Literal),
    Group(Group),
}

/// A list between a pair of brackets.
#[cycle(tree)]
#[derive(Drop)]
pub struct Group {
    content: Content<TokenTree>,
    pub span: DelimSpan,
}

/// A list of token trees.
pub type TokenStream = Items<TokenTree>;

impl Ident {
    /// Any text.
    pub fn new(alloc: Global, text: &str, span: Span) -> Result<Ident, AllocError>
        ensures { IfOk result (λ i. i ≡ spec.ident text.now span) }
    {
        Ok(Ident {
            text: Text::from_str(alloc, text)?,
            span,
        })
    }

    pub fn text(&self) -> &str
        ensures { result.now ≡ self.now.text }
    {
        self.text.as_str()
    }

    pub fn span(&self) -> Span
        ensures { result ≡ self.now.span }
    {
        self.span
    }

    /// Its equal, span too.
    pub fn copy(&self, alloc: Global) -> Result<Ident, AllocError>
        ensures { IfOk result (λ i. i ≡ self.now) }
    {
        Ok(Ident {
            text: self.text.copy(alloc)?,
            span: self.span,
        })
    }
}

impl Punct {
    /// Any character.
    pub fn new(ch: char, spacing: Spacing, span: Span) -> Punct
        ensures { result ≡ spec.punct ch spacing span }
    {
        Punct { ch, spacing, span }
    }

    pub fn as_char(&self) -> char
        ensures { result ≡ self.now.ch }
    {
        self.ch
    }

    pub fn spacing(&self) -> Spacing
        ensures { result ≡ self.now.spacing }
    {
        self.spacing
    }

    /// Its equal, span too. It takes no memory, and is there for the sake of the other trees.
    pub fn copy(&self, _alloc: Global) -> Result<Punct, AllocError>
        ensures { IfOk result (λ p. p ≡ self.now) }
    {
        Ok(*self)
    }

    pub fn span(&self) -> Span
        ensures { result ≡ self.now.span }
    {
        self.span
    }
}

impl Literal {
    /// Any text.
    pub fn new(alloc: Global, kind: LitKind, text: &str, span: Span) -> Result<Literal, AllocError>
        ensures { IfOk result (λ l. l ≡ spec.literal kind text.now span) }
    {
        Ok(Literal {
            kind,
            text: Text::from_str(alloc, text)?,
            span,
        })
    }

    pub fn kind(&self) -> LitKind
        ensures { result ≡ self.now.kind }
    {
        self.kind
    }

    pub fn text(&self) -> &str
        ensures { result.now ≡ self.now.text }
    {
        self.text.as_str()
    }

    pub fn span(&self) -> Span
        ensures { result ≡ self.now.span }
    {
        self.span
    }

    /// Its equal, span too.
    pub fn copy(&self, alloc: Global) -> Result<Literal, AllocError>
        ensures { IfOk result (λ l. l ≡ self.now) }
    {
        Ok(Literal {
            kind: self.kind,
            text: self.text.copy(alloc)?,
            span: self.span,
        })
    }
}

impl Group {
    /// A group with a list of its own. It takes no memory.
    pub fn new(delimiter: Delimiter, stream: TokenStream, span: DelimSpan) -> Group
        ensures { result ≡ spec.group_of delimiter stream span }
    {
        Group {
            content: Content::own(delimiter, stream),
            span,
        }
    }

    /// A group that shares its list with its copies.
    pub fn shared(
        alloc: Global,
        delimiter: Delimiter,
        stream: TokenStream,
        span: DelimSpan,
    ) -> Result<Group, AllocError>
        ensures { IfOk result (λ g. g ≡ spec.group_of delimiter stream span) }
    {
        Ok(Group {
            content: Content::shared(alloc, delimiter, stream)?,
            span,
        })
    }

    pub fn delimiter(&self) -> Delimiter
        ensures { result ≡ spec.delimiter_of self.now }
    {
        self.content.delimiter()
    }

    pub fn stream(&self) -> &TokenStream
        ensures { result.now ≡ spec.content_of self.now }
    {
        self.content.get()
    }

    pub fn delim_span(&self) -> DelimSpan
        ensures { result ≡ spec.span_of self.now }
    {
        self.span
    }

    /// Its equal, spans too, which shares its list with its own copies, and with this one where this one shares it.
    pub fn copy(&self, alloc: Global) -> Result<Group, AllocError>
        ensures { IfOk result (λ g. g ≡ self.now) }
    {
        copy_group(alloc, self)
    }
}

impl TokenTree {
    /// Its equal, spans too.
    pub fn copy(&self, alloc: Global) -> Result<TokenTree, AllocError>
        ensures { IfOk result (λ t. t ≡ self.now) }
    {
        copy_tree(alloc, self)
    }
}

impl Items<TokenTree> {
    pub fn trees(&self) -> &[TokenTree]
        ensures { result.now ≡ spec.trees self.now }
    {
        self.as_slice()
    }

    /// Whether it is equal to another list, spans aside.
    pub fn same(&self, other: &TokenStream) -> bool
        ensures { IsTrue result ↔ sameness.Same self.now other.now }
    {
        same_trees(self.trees(), other.trees())
    }

    /// Its equal, spans too.
    pub fn copy(&self, alloc: Global) -> Result<TokenStream, AllocError>
        ensures { IfOk result (λ s. s ≡ self.now) }
    {
        copy_trees(alloc, self.trees())
    }
}

#[cycle(copy)]
fn copy_trees(alloc: Global, trees: &[TokenTree]) -> Result<TokenStream, AllocError>
    ensures { IfOk result (λ s. s ≡ trees.now) }
{
    let mut copy = Items::with_capacity(alloc, trees.len())?;
    for tree in trees {
        copy.push(copy_tree(alloc, tree)?)?;
    }
    Ok(copy)
}

#[cycle(copy)]
fn copy_tree(alloc: Global, tree: &TokenTree) -> Result<TokenTree, AllocError>
    ensures { IfOk result (λ t. t ≡ tree.now) }
{
    match tree {
        TokenTree::Ident(ident) => Ok(TokenTree::Ident(ident.copy(alloc)?)),
        TokenTree::Punct(punct) => Ok(TokenTree::Punct(*punct)),
        TokenTree::Literal(literal) => Ok(TokenTree::Literal(literal.copy(alloc)?)),
        TokenTree::Group(group) => Ok(TokenTree::Group(copy_group(alloc, group)?)),
    }
}

#[cycle(copy)]
fn copy_group(alloc: Global, group: &Group) -> Result<Group, AllocError>
    ensures { IfOk result (λ g. g ≡ group.now) }
{
    let content = match group.content.share()? {
        Some(content) => content,
        None => Content::shared(
            alloc,
            group.delimiter(),
            copy_trees(alloc, group.stream().trees())?,
        )?,
    };
    Ok(Group {
        content,
        span: group.span,
    })
}

#[cycle(same)]
fn same_trees(trees: &[TokenTree], others: &[TokenTree]) -> bool
    ensures { IsTrue result ↔ (sameness.bare_stream trees.now ≡ sameness.bare_stream others.now) }
{
    if trees.len() != others.len() {
        return false;
    }
    let mut at = 0;
    for tree in trees {
        if !same_tree(tree, &others[at]) {
            return false;
        }
        at += 1;
    }
    true
}

#[cycle(same)]
fn same_tree(tree: &TokenTree, other: &TokenTree) -> bool
    ensures { IsTrue result ↔ (sameness.bare_tree tree.now ≡ sameness.bare_tree other.now) }
{
    match tree {
        TokenTree::Ident(ident) => is_ident(ident, other),
        TokenTree::Punct(punct) => is_punct(punct, other),
        TokenTree::Literal(literal) => is_literal(literal, other),
        TokenTree::Group(group) => is_group(group, other),
    }
}

#[cycle(same)]
fn is_group(group: &Group, other: &TokenTree) -> bool
    ensures { IsTrue result ↔ (sameness.bare_tree (kinds.Group group.now) ≡ sameness.bare_tree other.now) }
{
    match other {
        TokenTree::Ident(_) => false,
        TokenTree::Punct(_) => false,
        TokenTree::Literal(_) => false,
        TokenTree::Group(g) => same_group(group, g),
    }
}

#[cycle(same)]
fn same_group(group: &Group, other: &Group) -> bool
    ensures { IsTrue result ↔ (sameness.bare_group group.now ≡ sameness.bare_group other.now) }
{
    if group.delimiter() != other.delimiter() {
        return false;
    }
    same_trees(group.stream().trees(), other.stream().trees())
}

fn is_ident(ident: &Ident, other: &TokenTree) -> bool
    ensures { IsTrue result ↔ (sameness.bare_tree (kinds.Ident ident.now) ≡ sameness.bare_tree other.now) }
{
    match other {
        TokenTree::Ident(i) => ident.text.is(i.text()),
        TokenTree::Punct(_) => false,
        TokenTree::Literal(_) => false,
        TokenTree::Group(_) => false,
    }
}

fn is_punct(punct: &Punct, other: &TokenTree) -> bool
    ensures { IsTrue result ↔ (sameness.bare_tree (kinds.Punct punct.now) ≡ sameness.bare_tree other.now) }
{
    match other {
        TokenTree::Ident(_) => false,
        TokenTree::Punct(p) => same_punct(punct, p),
        TokenTree::Literal(_) => false,
        TokenTree::Group(_) => false,
    }
}

fn same_punct(punct: &Punct, other: &Punct) -> bool
    ensures { IsTrue result ↔ ((punct.now.ch ≡ other.now.ch) × (punct.now.spacing ≡ other.now.spacing)) }
{
    punct.ch == other.ch && punct.spacing == other.spacing
}

fn is_literal(literal: &Literal, other: &TokenTree) -> bool
    ensures { IsTrue result ↔ (sameness.bare_tree (kinds.Literal literal.now) ≡ sameness.bare_tree other.now) }
{
    match other {
        TokenTree::Ident(_) => false,
        TokenTree::Punct(_) => false,
        TokenTree::Literal(l) => same_literal(literal, l),
        TokenTree::Group(_) => false,
    }
}

fn same_literal(literal: &Literal, other: &Literal) -> bool
    ensures { IsTrue result ↔ ((literal.now.kind ≡ other.now.kind) × (literal.now.text ≡ other.now.text)) }
{
    literal.kind == other.kind && literal.text.as_str() == other.text.as_str()
}
