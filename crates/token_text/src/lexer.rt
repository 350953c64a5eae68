//! Text to tokens.

ghost use Rattle.std.specs.Prelude.{◌≡◌, ◌⊎◌, List, IfOk, IfErr, IsUtf8, MatchResult, chars, encode_utf8_all};
ghost use Rattle.token_core.specs.declared.span.Span.{Span};
ghost use Rattle.token_core.specs.declared.tree.TokenTree.{TokenTree};
ghost use Rattle.token_core.specs.Lits.{lit_str};
ghost use Rattle.token_core.specs.Refusal.{Refusal, out_of_memory};
ghost use Rattle.token_core.specs.Toks.{Bytes};
ghost use Rattle.token_core.specs.Trees.{trees};
ghost use Rattle.token_text.specs.declared.piece.Form.{Form};
ghost use Rattle.token_text.specs.Pieces.{doc_literal, doc_text};
ghost use Rattle.token_text.specs.Reading as spec;
ghost use Rattle.token_text.specs.Strings.{HasValue};
ghost use Rattle.token_text.specs.Spelling.{Spells, SpellsDocumented, SpellsWith, Refused, RefusedDocumented, RefusedWith};

use crate::front::front;
use crate::piece::Docs;
use crate::state::State;
use crate::word;
use std::alloc::Global;
use token_core::{Error, Span, TokenStream};

/// Reads the tokens of a text, each with the bytes from which to which it stands.
///
/// From its start the text is cut into pieces, each the longest that may begin there:
///
/// - a blank: a space, a tab, a line feed or a carriage return, or a comment: `//` up to the line feed, or
///   `/*` to `*/`, in which others may stand;
/// - a word: `_` or a character that may start an identifier, and then those that may continue one;
///   with `r#` before it a raw word, which `_`, `crate`, `self`, `super` and `Self` have not;
/// - a lifetime: `'` and a word, raw or not, which are a joint mark and an identifier;
/// - a string: `"` to the next `"` that isn't escaped by `\`; a raw one: `r`, up to 255 `#` and `"` to `"`
///   and as many `#`; with `b` or `c` before either one of bytes or of C;
/// - a character: `'`, `\` and up to the next `'` after the escaped character, or one other character and
///   `'`; with `b` before it a byte;
/// - a number: `0x`, `0o` or `0b` and digits of the base and `_`; or decimal digits and `_`, then a
///   fraction, where neither `.`, `_` nor a letter follows its point, then an exponent;
/// - an identifier that begins with a letter, directly after a literal, is its suffix and belongs to it;
/// - a mark: one of ``! # $ % & * + , - . / : ; < = > ? @ ^ ~ |``, joint where another mark follows that
///   begins no comment;
/// - a bracket of `( )`, `[ ]`, `{ }`, or `\( \)` for an invisible group, which come in pairs, one inside
///   another.
///
/// It refuses a text with an unknown start of a token, with a literal or a comment that doesn't end, with a
/// comment of documentation (`///`, `//!`, `/**`, `/*!`), with a number that goes on as none does (`0b2`,
/// `1e`), with a closing bracket that doesn't belong to the innermost open one, and with an open bracket at
/// its end.
pub fn lex(alloc: Global, text: &str) -> Result<TokenStream, Error>
    // What is read the text spells.
    ensures read { IfOk result (λ s. Spells text.now (trees s)) }
    // What the text spells is read, unless memory runs out.
    ensures all { (l : List TokenTree) → Spells text.now l →
        MatchResult result (λ s. trees s ≡ l) (λ e. e ≡ out_of_memory) }
    // A refusal that is not for memory is one that the text has,
    ensures refused { IfErr result (λ e. (e ≡ out_of_memory) ⊎ Refused text.now e) }
    // and a text that has one is not read.
    ensures refuses { (e : Refusal) → Refused text.now e →
        MatchResult result (λ _. ⊥) (λ r. (r ≡ e) ⊎ (r ≡ out_of_memory)) }
    // The same by a function of the text.
    ensures exact { spec.Gives trees result (spec.lexed text.now) }
{
    lex_with(alloc, text, Docs::Refuse)
}

/// Reads the tokens of a text, as `lex` does, and each comment of documentation as the attribute that it stands for.
///
/// `/// A.` and `/** A. */` are `# [doc = " A."]` and `# [doc = " A. "]`, and `//! A.` and `/*! A. */` the same with `!` behind the `#`.
/// What a comment says is what follows its first three characters, up to the end of the line, of which a carriage return is no part,
/// or up to `*/`. `lit_str_value` answers it of the literal, in which a line feed, a carriage return, a tab, a zero, `"` and `\` stand
/// by an escape. Each token, and either bracket, stands where the comment stands. `////`, `/***` and `/**/` begin plain comments.
///
/// A text is refused where `lex` refuses it, but for such comments; where one has a carriage return without a line feed behind it, it is
/// an unknown start of a token. (In proc-macro2 `TokenStream::from_str`.)
pub fn lex_documented(alloc: Global, text: &str) -> Result<TokenStream, Error>
    ensures read { IfOk result (λ s. SpellsDocumented text.now (trees s)) }
    ensures all { (l : List TokenTree) → SpellsDocumented text.now l →
        MatchResult result (λ s. trees s ≡ l) (λ e. e ≡ out_of_memory) }
    ensures refused { IfErr result (λ e. (e ≡ out_of_memory) ⊎ RefusedDocumented text.now e) }
    ensures refuses { (e : Refusal) → RefusedDocumented text.now e →
        MatchResult result (λ _. ⊥) (λ r. (r ≡ e) ⊎ (r ≡ out_of_memory)) }
    ensures exact { spec.Gives trees result (spec.lexed_documented text.now) }
    // The literal of such a comment, whose bytes these are, holds what the comment says.
    ensures says { (f : Form) (b : Bytes) (s : Span) → IsUtf8 b →
        HasValue (lit_str (doc_literal f b) s) (encode_utf8_all (doc_text f (chars b))) }
{
    lex_with(alloc, text, Docs::Read)
}

/// Reads the tokens of a text as `lex` does, which refuses comments of documentation, or as `lex_documented`, which reads them.
pub fn lex_with(alloc: Global, text: &str, docs: Docs) -> Result<TokenStream, Error>
    ensures read { IfOk result (λ s. SpellsWith docs text.now (trees s)) }
    ensures all { (l : List TokenTree) → SpellsWith docs text.now l →
        MatchResult result (λ s. trees s ≡ l) (λ e. e ≡ out_of_memory) }
    ensures refused { IfErr result (λ e. (e ≡ out_of_memory) ⊎ RefusedWith docs text.now e) }
    ensures refuses { (e : Refusal) → RefusedWith docs text.now e →
        MatchResult result (λ _. ⊥) (λ r. (r ≡ e) ⊎ (r ≡ out_of_memory)) }
    ensures exact { spec.Gives trees result (spec.lexed_with docs text.now) }
{
    read(alloc, text, docs)
}

fn read(alloc: Global, text: &str, docs: Docs) -> Result<TokenStream, Error>
    ensures { spec.Gives trees result (spec.lexed_with docs text.now) }
{
    let mut state = State::new(alloc);
    let mut rest = word::after_blanks(text);
    while let Some((first, _)) = word::split_first(rest) {
        let at = text.len() - rest.len();
        match front(rest, docs) {
            Ok((piece, after)) => {
                let span = Span::new(at, text.len() - after.len());
                state.take(piece, word::up_to(rest, after), span)?;
                rest = word::after_blanks(after);
            }
            Err(kind) => {
                let span = Span::new(at, at + first.len_utf8());
                return Err(Error::named(alloc, kind, span));
            }
        }
    }
    state.finish()
}
