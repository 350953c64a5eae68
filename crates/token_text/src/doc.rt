//! The attributes that comments of documentation stand for.

ghost use Rattle.std.specs.Prelude.{◌≡◌, ◌++◌, drop, IfOk, OnOk, string_bytes, encode_utf8_all, chars};
ghost use Rattle.token_core.specs.declared.tree.TokenTree.TheVariants.{Group as group_tree};
ghost use Rattle.token_text.specs.Pieces as spec;

use crate::piece::Form;
use crate::word;
use std::alloc::{AllocError, Global};
use token_core::{
    DelimSpan, Delimiter, Group, Ident, Items, LitKind, Literal, Punct, Spacing, Span, TokenTree,
};

/// Whether this character stands here, and nothing more.
#[tactic(auto, unfolding(crate::specs::Pieces::is_last))]
fn is_last(text: &str, ch: char) -> bool
    ensures { result ≡ spec.is_last ch (chars text.now) }
{
    match word::split_first(text) {
        Some((first, rest)) => first == ch && word::is_end(rest),
        None => false,
    }
}

/// Whether a comment ends here, which is of this form.
#[tactic(auto, unfolding(crate::specs::Pieces::ends_here))]
fn ends_here(form: Form, first: char, rest: &str) -> bool
    ensures { result ≡ spec.ends_here form first (chars rest.now) }
{
    match form {
        Form::Line => first == '\r' && word::is_end(rest),
        Form::Block => first == '*' && is_last(rest, '/'),
    }
}

/// What follows the first three characters.
fn after_three(text: &str) -> &str
    ensures { chars result.now ≡ drop 3 (chars text.now) }
{
    word::after_first(word::after_first(word::after_first(text)))
}

/// Writes a character as it stands in a string.
#[tactic(auto, unfolding(crate::specs::Pieces::escape))]
fn push_escaped(ch: char, out: &mut String) -> Result<(), AllocError>
    ensures { OnOk result (string_bytes out.new ≡ string_bytes out.old ++ encode_utf8_all (spec.escape ch)) }
{
    match ch {
        '\n' => out.push_str("\\n"),
        '\r' => out.push_str("\\r"),
        '\t' => out.push_str("\\t"),
        '\0' => out.push_str("\\0"),
        '"' => out.push_str("\\\""),
        '\\' => out.push_str("\\\\"),
        _ => out.push(ch),
    }
}

/// Writes what a comment says, of which this follows the first three characters, as it stands in a string.
fn push_said(form: Form, text: &str, out: &mut String) -> Result<(), AllocError>
    ensures { OnOk result (string_bytes out.new
        ≡ string_bytes out.old ++ encode_utf8_all (spec.escaped (spec.up_to_end form (chars text.now)))) }
{
    let mut rest = text;
    while let Some((first, after)) = word::split_first(rest) {
        if ends_here(form, first, after) {
            return Ok(());
        }
        push_escaped(first, out)?;
        rest = after;
    }
    Ok(())
}

/// The string literal that holds what a comment says.
fn literal(alloc: Global, form: Form, comment: &str) -> Result<String, AllocError>
    ensures { IfOk result (λ s. string_bytes s ≡ spec.doc_literal form comment.now) }
{
    let mut out = String::new(alloc);
    out.push('"')?;
    push_said(form, after_three(comment), &mut out)?;
    out.push('"')?;
    Ok(out)
}

/// `[doc = ".."]` of a comment.
pub fn group(alloc: Global, form: Form, comment: &str, span: Span) -> Result<Group, AllocError>
    ensures { IfOk result (λ g. group_tree g ≡ spec.doc_group span (spec.doc_literal form comment.now)) }
{
    let text = literal(alloc, form, comment)?;
    let mut content = Items::from_vec(Vec::with_capacity(alloc, 3)?);
    content.push(TokenTree::Ident(Ident::new(alloc, "doc", span)?))?;
    content.push(TokenTree::Punct(Punct::new('=', Spacing::Alone, span)))?;
    content.push(TokenTree::Literal(Literal::new(alloc, LitKind::Str, text.as_str(), span)?))?;
    Group::shared(
        alloc,
        Delimiter::Bracket,
        content,
        DelimSpan::new(span, span),
    )
}
