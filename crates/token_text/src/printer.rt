//! Tokens to text.

ghost use Rattle.std.specs.Prelude.{◌≡◌, ◌++◌, IfOk, OnOk, string_bytes};
ghost use Rattle.token_text.specs.Printing as spec;

use std::alloc::{AllocError, Global};
use token_core::{Delimiter, Group, Spacing, TokenStream, TokenTree};

/// The text of tokens: trees with one space between, and none after a joint mark.
///
/// A word and a literal stand as their texts, a mark as its character, and a group as `( )`, `[ ]`,
/// `{ }` or `\( \)` around its content, inside braces with a space on either side. It takes one step
/// for each tree and each byte, and fails only for want of memory.
pub fn text_of(alloc: Global, tokens: &TokenStream) -> Result<String, AllocError>
    ensures { IfOk result (λ s. string_bytes s ≡ spec.text_of tokens.now) }
{
    let mut out = String::new(alloc);
    push_trees(tokens.trees(), &mut out)?;
    Ok(out)
}

fn is_joint(tree: &TokenTree) -> bool
    ensures { result ≡ (spec.shown tree.now).joint }
{
    match tree {
        TokenTree::Punct(mark) => match mark.spacing {
            Spacing::Joint => true,
            Spacing::Alone => false,
        },
        _ => false,
    }
}

#[cycle(push)]
fn push_trees(trees: &[TokenTree], out: &mut String) -> Result<(), AllocError>
    ensures { OnOk result (string_bytes out.new ≡ string_bytes out.old ++ spec.text_of trees.now) }
{
    let mut joint = true;
    for tree in trees {
        if !joint {
            out.push(' ')?;
        }
        push_tree(tree, out)?;
        joint = is_joint(tree);
    }
    Ok(())
}

#[cycle(push)]
fn push_tree(tree: &TokenTree, out: &mut String) -> Result<(), AllocError>
    ensures { OnOk result (string_bytes out.new ≡ string_bytes out.old ++ (spec.shown tree.now).text) }
{
    match tree {
        TokenTree::Ident(word) => out.push_str(word.text()),
        TokenTree::Punct(mark) => out.push(mark.ch),
        TokenTree::Literal(literal) => out.push_str(literal.text()),
        TokenTree::Group(group) => push_group(group, out),
    }
}

#[cycle(push)]
fn push_group(group: &Group, out: &mut String) -> Result<(), AllocError>
    ensures { OnOk result (string_bytes out.new ≡ string_bytes out.old ++ spec.group_text group.now) }
{
    let content = group.stream();
    let (opening, closing) = brackets(group.delimiter(), content.is_empty());
    out.push_str(opening)?;
    push_trees(content.trees(), out)?;
    out.push_str(closing)
}

/// What stands before and after the content of a group.
fn brackets(delimiter: Delimiter, is_empty: bool) -> (&'static str, &'static str)
    ensures { (result.0.now ≡ spec.before delimiter) × (result.1.now ≡ spec.after delimiter is_empty) }
{
    match delimiter {
        Delimiter::Parenthesis => ("(", ")"),
        Delimiter::Bracket => ("[", "]"),
        Delimiter::Brace if is_empty => ("{ ", "}"),
        Delimiter::Brace => ("{ ", " }"),
        Delimiter::None => ("\\(", "\\)"),
    }
}
