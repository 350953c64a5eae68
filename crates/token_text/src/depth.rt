//! Texts that nest too deep.

ghost use Rattle.std.specs.Prelude.{◌≡◌, List, IfOk};
ghost use Rattle.token_core.specs.declared.tree.TokenTree.{TokenTree};
ghost use Rattle.token_core.specs.Levels.{Checked, too_deep};
ghost use Rattle.token_text.specs.Depth as spec;
ghost use Rattle.token_text.specs.Spelling.{SpellsWith};

use crate::front::front;
use crate::piece::{Docs, Leaf, Piece};
use crate::state::past_quote;
use crate::word;
use std::alloc::{AllocError, Global};
use token_core::{Error, ErrorKind, Levels, Spacing, Span};

/// Refuses a text whose tokens nest deeper than a limit (`token_core::nesting`), at the first that passes it, before any list is made.
///
/// So what goes down a list by calls within calls, as a copy, a read, a print and the end of a list do, meets none above the limit. The tokens
/// are those of `lex_with`: a comment of documentation that is read has the levels of its attribute. Of a text that spells no list they are
/// those of its pieces up to where none begins, so that it may be refused so for what stands before the place at which `lex_with` refuses it.
pub fn check_text(alloc: Global, text: &str, docs: Docs, limit: usize) -> Result<(), Error>
    // It is refused at the first token that passes the limit, or else for want of memory,
    ensures exact { Checked (spec.deep_at docs limit text.now) result }
    // and that is the first one of the list, where the text spells one (`token_core::check_nesting`).
    ensures listed { (l : List TokenTree) → SpellsWith docs text.now l → spec.deep_at docs limit text.now ≡ too_deep limit l }
{
    scan(alloc, text, docs, limit)
}

fn scan(alloc: Global, text: &str, docs: Docs, limit: usize) -> Result<(), Error>
    ensures { Checked (spec.deep_at docs limit text.now) result }
{
    let mut levels = Levels::new(alloc);
    let mut rest = word::after_blanks(text);
    while !word::is_end(rest) {
        match front(rest, docs) {
            Ok((piece, after)) => {
                take(&mut levels, piece, word::up_to(rest, after))?;
                if highest(piece, &levels) > limit {
                    let span = Span::new(text.len() - rest.len(), text.len() - after.len());
                    return Err(Error::named(alloc, ErrorKind::NestedTooDeep, place(piece, span)));
                }
                rest = word::after_blanks(after);
            }
            Err(_) => return Ok(()),
        }
    }
    Ok(())
}

/// The greatest level of a piece after which the levels are these.
fn highest(piece: Piece, levels: &Levels) -> usize
    ensures { result ≡ spec.highest piece levels.now }
{
    match piece {
        // (the group of its attribute)
        Piece::Leaf(Leaf::Doc(_, _)) => levels.here().saturating_add(1),
        Piece::Leaf(_) => levels.here(),
        Piece::Open(_) => levels.here(),
        Piece::Close(_) => levels.here(),
    }
}

/// Where a piece may pass a limit: the end of a group does not, and stands nowhere.
fn place(piece: Piece, span: Span) -> Span
    ensures { result ≡ spec.place piece span }
{
    match piece {
        Piece::Leaf(_) => span,
        Piece::Open(_) => span,
        Piece::Close(_) => Span::none(),
    }
}

/// Past the tokens of a piece of this text.
fn take(levels: &mut Levels, piece: Piece, text: &str) -> Result<(), AllocError>
    ensures { IfOk result (λ _. levels.new ≡ spec.after_piece piece text.now levels.old) }
{
    match piece {
        Piece::Leaf(leaf) => take_leaf(levels, leaf, text),
        Piece::Open(delimiter) => return levels.open_group(delimiter),
        Piece::Close(_) => levels.close_group(),
    }
    Ok(())
}

fn take_leaf(levels: &mut Levels, leaf: Leaf, text: &str)
    ensures { levels.new ≡ spec.after_leaf leaf text.now levels.old }
{
    match leaf {
        Leaf::Blank => (),
        // (behind its group the levels are as before it)
        Leaf::Doc(_, _) => levels.take_mark('#', Spacing::Alone),
        Leaf::Word => levels.take_ident(text),
        Leaf::Lifetime => {
            levels.take_mark('\'', Spacing::Joint);
            levels.take_ident(past_quote(text));
        }
        Leaf::Literal(_) => levels.take_literal(),
        Leaf::Mark(ch, spacing) => levels.take_mark(ch, spacing),
    }
}
