//! Tokens that a tree holds as they were written.

ghost use Rattle.std.specs.Prelude.{◌≡◌, ◌++◌, ◌<◌, List, length, true, IfOk, option_map};
ghost use Rattle.token_core.specs.Cut as spec;
ghost use Rattle.token_core.specs.Positions.{IsReached, is_before, row_items};
ghost use Rattle.token_core.specs.Trees.{trees};

use crate::cursor::Cursor;
use crate::tree::{TokenStream, TokenTree};
use std::alloc::{AllocError, Global};

/// A copy of the trees between two positions of one buffer. A group that ends after the second one is entered and not kept;
/// where trees lead from the first position to the second, these are they.
pub fn between(
    alloc: Global,
    begin: &Cursor<'_>,
    end: &Cursor<'_>,
) -> Result<TokenStream, AllocError>
    requires { IsReached end.now begin.now }
    ensures trees { IfOk result (λ s. s ≡ spec.between begin.now end.now) }
    ensures whole { (l : List TokenTree) → begin.now ≡ row_items l ++ end.now → IfOk result (λ s. trees s ≡ l) }
{
    let mut tokens = TokenStream::new(alloc);
    let mut cursor = begin.again();
    'parts: while cursor.is_before(end) {
        let (kept, next) = part(&cursor, end);
        if let Some(tree) = kept {
            tokens.push(tree.copy(alloc)?)?;
        }
        cursor = next;
    }
    Ok(tokens)
}

/// The tree that stands there, if it ends at the second position or before it, and the position after it; else the position
/// inside the group, or after the one whose end stands there.
fn part<'a>(cursor: &Cursor<'a>, end: &Cursor<'_>) -> (Option<&'a TokenTree>, Cursor<'a>)
    requires within { IsReached end.now cursor.now }
    requires before { is_before cursor.now end.now ≡ true }
    ensures trees { spec.trees_between cursor.now end.now
        ≡ spec.kept (option_map (λ t. t.now) result.0) ++ spec.trees_between result.1 end.now }
    ensures within { IsReached end.now result.1 }
    ensures less { length result.1 < length cursor.now }
{
    match cursor.tree() {
        Some((tree, after)) => {
            if end.is_before(&after) {
                (None, past_bound(cursor))
            } else {
                (Some(tree), after)
            }
        }
        None => (None, past_bound(cursor)),
    }
}

fn past_bound<'a>(cursor: &Cursor<'a>) -> Cursor<'a>
    ensures { result ≡ spec.past_bound cursor.now }
{
    match cursor.enter() {
        Some(inside) => inside,
        None => match cursor.leave() {
            Some(after) => after,
            None => cursor.again(),
        },
    }
}
