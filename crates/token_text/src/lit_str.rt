//! The values of string literals, and reads of what they hold.

ghost use Rattle.std.specs.Prelude.{◌≡◌, ◌⊎◌, IfOk, IfErr, MatchResult, string_bytes, chars};
ghost use Rattle.token_core.specs.Refusal.{Refusal, Stored, out_of_memory};
ghost use Rattle.token_core.specs.Toks.{Bytes};
ghost use Rattle.token_core.specs.Trees.{trees};
ghost use Rattle.token_text.specs.Front as front;
ghost use Rattle.token_text.specs.Moving as spec;
ghost use Rattle.token_text.specs.Strings.{Found, HasValue, Malformed};
ghost use Rattle.token_text.specs.Wholes.{RefusedSo};

use crate::lexer::lex;
use crate::string::{Content, inside, malformed, offset, read_content};
use crate::word;
use std::alloc::Global;
use token_core::{ByParse, Error, LitStr, Parse, Parser, TokenStream, read_scoped};

/// The text that a string literal holds. (In syn `LitStr::value`.)
///
/// In a plain string `\n`, `\r`, `\t`, `\0`, `\\`, `\'` and `\"` stand for one character; `\x` and two
/// hexadecimal digits, up to `7F`, and `\u` and one to six of them in braces, with `_` behind any, for that
/// of their number; and a backslash before the end of a line for nothing, with all spaces, tabs and ends of
/// lines that follow. In a raw one there are no escapes. In both a carriage return and a line feed are one
/// line feed. A suffix doesn't count.
///
/// Another escape and a lone carriage return are refused where they stand, and a text that is no string
/// literal as a whole.
pub fn lit_str_value(alloc: Global, lit: &LitStr) -> Result<String, Error>
    // What is answered the literal holds.
    ensures read { IfOk result (λ v. HasValue lit.now (string_bytes v)) }
    // What the literal holds is answered, unless memory runs out.
    ensures all { (v : Bytes) → HasValue lit.now v →
        MatchResult result (λ s. string_bytes s ≡ v) (λ e. e ≡ out_of_memory) }
    // A refusal that is not for memory is one that the literal has,
    ensures refused { IfErr result (λ e. (e ≡ out_of_memory) ⊎ Malformed lit.now e) }
    // and a literal that has one is refused so.
    ensures refuses { (e : Refusal) → Malformed lit.now e → RefusedSo e result }
{
    Ok(read_content(alloc, lit)?.held.text)
}

/// Reads all that a string literal holds. (In syn `LitStr::parse`.)
///
/// What it holds is cut into tokens by `lex`, and these are read in the scope of the closing quote. Their
/// places, and those of refusals, are where their characters stand in the literal; where the literal's text
/// is not as long as its place, as of one that no text gave, they are the literal's. A literal with a suffix
/// is refused at the suffix, and what is no string as its value is.
pub fn read_lit_str<T: Parse>(alloc: Global, lit: &LitStr) -> Result<T, Error>
    // Of the tokens that the literal holds the result is that of a whole read,
    ensures reads { spec.ReadsString T.reads T.refuses lit.now result }
    // which keeps its promise.
    ensures promise { spec.KeepsString T.promise lit.now result }
    // What the literal itself is refused for is the refusal, unless memory runs out.
    ensures refuses { spec.RefusesString lit.now result }
    // One of these is the case, or memory ran out.
    ensures told { spec.ToldString lit.now result }
{
    read_lit_str_with(alloc, ByParse::<T>::new(), lit)
}

/// Reads all that a string literal holds by a parser, as `read_lit_str` does by a type. (In syn
/// `LitStr::parse_with`.)
pub fn read_lit_str_with<P: Parser + Drop>(
    alloc: Global,
    parser: P,
    lit: &LitStr,
) -> Result<P::Output, Error>
    requires { P.can_parse parser }
    ensures reads { spec.ReadsString (P.reads parser) (P.refuses parser) lit.now result }
    ensures promise { spec.KeepsString (P.promise parser) lit.now result }
    ensures refuses { spec.RefusesString lit.now result }
    ensures told { spec.ToldString lit.now result }
{
    let content = read_content(alloc, lit)?;
    let tokens = tokens(alloc, lit, &content)?;
    read_scoped(alloc, parser, content.closing, &tokens)
}

/// The tokens of what a literal holds, with their places in it.
fn tokens(alloc: Global, lit: &LitStr, content: &Content<'_>) -> Result<TokenStream, Error>
    requires { Found lit.now (string_bytes content.now.held.text) content.now.held.places.items content.now.closing
        (chars content.now.suffix.now) × front.Past lit.now.text content.now.suffix.now }
    ensures held { IfOk result (λ l. spec.HoldsTokens lit.now content.now.closing (trees l)) }
    ensures refused { IfErr result (λ e. (e ≡ out_of_memory) ⊎ spec.Refused lit.now e) }
{
    if !word::is_end(content.suffix) {
        return Err(suffixed(alloc, lit, content.suffix));
    }
    match lex(alloc, content.held.text.as_str()) {
        Ok(tokens) => Ok(content.moved_tokens(alloc, &tokens)?),
        Err(e) => Err(content.moved_error(alloc, &e)),
    }
}

fn suffixed(alloc: Global, lit: &LitStr, suffix: &str) -> Error
    requires { front.Past lit.now.text suffix.now }
    ensures { Stored result (spec.suffixed_at lit.now (chars suffix.now)) }
{
    let place = inside(lit, offset(lit, suffix), lit.text().len());
    malformed(alloc, "unexpected suffix on string literal", place)
}
