//! The pieces of a text.

use token_core::{Delimiter, LitKind, Spacing};

/// A piece that is no bracket: nothing, or trees without content.
#[derive(Clone, Copy)]
pub enum Leaf {
    /// A blank or a comment.
    Blank,
    /// A comment of documentation, which is an attribute.
    Doc(Style, Form),
    /// An identifier, a raw one too.
    Word,
    /// A quote and its identifier, which are two trees.
    Lifetime,
    Literal(LitKind),
    Mark(char, Spacing),
}

#[derive(Clone, Copy)]
pub enum Piece {
    Leaf(Leaf),
    Open(Delimiter),
    Close(Delimiter),
}

/// What a comment of documentation belongs to.
#[derive(Clone, Copy)]
pub enum Style {
    /// What follows it: `///` and `/**`.
    Outer,
    /// What it stands in: `//!` and `/*!`.
    Inner,
}

/// How a comment is written.
#[derive(Clone, Copy)]
pub enum Form {
    /// To the end of the line.
    Line,
    /// To `*/`.
    Block,
}

/// What becomes of comments of documentation.
#[derive(Clone, Copy)]
pub enum Docs {
    /// They are refused.
    Refuse,
    /// Each is read as the attribute that it stands for.
    Read,
}

/// How a literal ends.
#[derive(Clone, Copy)]
pub enum Closing {
    /// At `"`, where `\` goes before a character that doesn't count.
    DoubleQuote,
    /// At `"` and as many `#`.
    Hashes(usize),
    /// At `'`.
    Quote,
}
