//! Reads of a whole text.

ghost use Rattle.token_text.specs.declared.piece.Docs.TheVariants.{Read as documented};
ghost use Rattle.token_text.specs.Wholes.{Reads, Keeps, Refuses, Told, ReadsWith, KeepsWith, RefusesWith, ToldWith};

use crate::lexer::lex_with;
use crate::piece::Docs;
use std::alloc::Global;
use token_core::{ByParse, Error, Parse, Parser, Span, read_scoped};

/// Reads all of a text.
///
/// The text is cut into tokens by `lex`, and all of them are read, in the scope of the text's end: a
/// refusal where something is missing there points to it. What `T` promises of a whole read is promised
/// of the list that the text spells. The text is refused for want of memory, as `lex` refuses it, or as
/// `T` is refused on its tokens, or with `unexpected token` at the first that is left over. (In syn
/// `parse_str`.)
pub fn read_str<T: Parse>(alloc: Global, text: &str) -> Result<T, Error>
    // Of the tokens that the text spells the result is that of a whole read,
    ensures reads { Reads T.reads T.refuses text.now result }
    // which keeps its promise.
    ensures promise { Keeps T.promise text.now result }
    // What the text itself is refused for is the refusal, unless memory runs out.
    ensures refuses { Refuses text.now result }
    // One of these is the case, or memory ran out.
    ensures told { Told text.now result }
{
    read_str_with(alloc, ByParse::<T>::new(), text)
}

/// Reads all of a text by a parser, as `read_str` does by a type. (In syn `Parser::parse_str`.)
pub fn read_str_with<P: Parser + Drop>(
    alloc: Global,
    parser: P,
    text: &str,
) -> Result<P::Output, Error>
    requires { P.can_parse parser }
    ensures reads { Reads (P.reads parser) (P.refuses parser) text.now result }
    ensures promise { Keeps (P.promise parser) text.now result }
    ensures refuses { Refuses text.now result }
    ensures told { Told text.now result }
{
    read_with(alloc, parser, text, Docs::Refuse)
}

/// Reads all of a text, as `read_str` does, and each comment of documentation in it as the attribute that it stands for, as
/// `lex_documented` does.
pub fn read_str_documented<T: Parse>(alloc: Global, text: &str) -> Result<T, Error>
    ensures reads { ReadsWith documented T.reads T.refuses text.now result }
    ensures promise { KeepsWith documented T.promise text.now result }
    ensures refuses { RefusesWith documented text.now result }
    ensures told { ToldWith documented text.now result }
{
    read_str_documented_with(alloc, ByParse::<T>::new(), text)
}

/// Reads all of a text by a parser, as `read_str_documented` does by a type.
pub fn read_str_documented_with<P: Parser + Drop>(
    alloc: Global,
    parser: P,
    text: &str,
) -> Result<P::Output, Error>
    requires { P.can_parse parser }
    ensures reads { ReadsWith documented (P.reads parser) (P.refuses parser) text.now result }
    ensures promise { KeepsWith documented (P.promise parser) text.now result }
    ensures refuses { RefusesWith documented text.now result }
    ensures told { ToldWith documented text.now result }
{
    read_with(alloc, parser, text, Docs::Read)
}

fn read_with<P: Parser + Drop>(
    alloc: Global,
    parser: P,
    text: &str,
    docs: Docs,
) -> Result<P::Output, Error>
    requires { P.can_parse parser }
    ensures reads { ReadsWith docs (P.reads parser) (P.refuses parser) text.now result }
    ensures promise { KeepsWith docs (P.promise parser) text.now result }
    ensures refuses { RefusesWith docs text.now result }
    ensures told { ToldWith docs text.now result }
{
    let tokens = lex_with(alloc, text, docs)?;
    let end = Span::new(text.len(), text.len());
    read_scoped(alloc, parser, end, &tokens)
}
