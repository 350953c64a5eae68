//! Identifiers at the front of a stream.

ghost use Rattle.std.specs.Prelude.{◌≡◌, option_map, OnErr};
ghost use Rattle.std.specs.Str.{bytes_eq};
ghost use Rattle.token_core.specs.Marks.{text_of, word_name};
ghost use Rattle.token_core.specs.Reads as spec;
ghost use Rattle.token_core.specs.Reads.{Reads, lent, Parses};

use crate::error::Error;
use crate::parse_stream::ParseStream;
use crate::sees::{is_any_ident, is_ident, is_word};
use crate::tree::Ident;
use crate::word::{BUILTIN, WORDS, word_name};
use std::alloc::Global;

impl<'a> ParseStream<'a> {
    /// Lends the identifier at the front, keywords and `_` too.
    #[tactic(auto, using(crate::proofs::Suffixes::words), unfolding(crate::specs::Reads::read_word))]
    pub fn read_any_ident(&mut self, alloc: Global) -> Result<&'a Ident, Error>
        ensures parses { Parses (spec.read_word spec.any_text spec.ident_name) (lent result) self.old self.new }
        ensures same { OnErr result (self.new ≡ self.old) }
    {
        match self.next_ident() {
            Some((ident, more)) => {
                *self = more;
                Ok(ident)
            }
            None => Err(self.expected(alloc, "identifier")),
        }
    }

    /// Lends the identifier at the front, if it is no keyword.
    #[tactic(auto, using(crate::proofs::Suffixes::words), unfolding(crate::specs::Reads::read_word))]
    pub fn read_ident(&mut self, alloc: Global) -> Result<&'a Ident, Error>
        ensures parses { Parses (spec.read_word spec.is_ident spec.ident_name) (lent result) self.old self.new }
        ensures same { OnErr result (self.new ≡ self.old) }
    {
        if !self.peek_ident() {
            return Err(self.expected(alloc, "identifier"));
        }
        match self.next_ident() {
            Some((ident, more)) => {
                *self = more;
                Ok(ident)
            }
            None => Err(self.expected(alloc, "identifier")),
        }
    }

    /// Lends the identifier of this text at the front, which refusals name so.
    #[tactic(auto, using(crate::proofs::Suffixes::words), unfolding(crate::specs::Reads::read_word))]
    pub fn read_word(&mut self, alloc: Global, text: &str, name: &str) -> Result<&'a Ident, Error>
        ensures parses { Parses (spec.read_word (spec.is_text text.now) name.now) (lent result) self.old self.new }
        ensures same { OnErr result (self.new ≡ self.old) }
    {
        match self.next_ident() {
            Some((ident, more)) => {
                if !ident.text.is(text) {
                    return Err(self.expected(alloc, name));
                }
                *self = more;
                Ok(ident)
            }
            None => Err(self.expected(alloc, name)),
        }
    }

    /// Whether an identifier is at the front, keywords and `_` too.
    pub fn peek_any_ident(&self) -> bool
        ensures { result ≡ spec.sees_word spec.any_text self.now.rest }
    {
        is_any_ident(self.class())
    }

    /// Whether an identifier that is no keyword is at the front.
    pub fn peek_ident(&self) -> bool
        ensures { result ≡ spec.sees_word spec.is_ident self.now.rest }
    {
        is_ident(self.class())
    }

    /// Whether the identifier of this text is at the front.
    #[tactic(auto, unfolding(crate::specs::Reads::sees_word, crate::specs::Reads::next_word))]
    pub fn peek_word(&self, text: &str) -> bool
        ensures { result ≡ spec.sees_word (spec.is_text text.now) self.now.rest }
    {
        match self.next_ident() {
            Some((ident, _)) => ident.text.is(text),
            None => false,
        }
    }

    /// Whether the plain identifier `builtin` is at the front.
    pub fn peek_builtin(&self) -> bool
        ensures { result ≡ spec.sees_word (spec.is_text spec.builtin_text) self.now.rest }
    {
        is_word(self.class(), BUILTIN)
    }

    /// Whether the named word of a number is at the front.
    #[tactic(auto, using(crate::proofs::SeenClasses::named_seen))]
    pub(crate) fn peek_named(&self, n: u32) -> bool
        ensures { result ≡ spec.sees_word (spec.is_text (text_of n)) self.now.rest }
    {
        if n < WORDS {
            is_word(self.class(), n as u8)
        } else {
            self.peek_word("")
        }
    }

    /// Lends the named word of a number at the front.
    #[tactic(auto, using(crate::proofs::Suffixes::words), unfolding(crate::specs::Reads::read_word))]
    pub(crate) fn read_named(&mut self, alloc: Global, n: u32) -> Result<&'a Ident, Error>
        ensures parses { Parses (spec.read_word (spec.is_text (text_of n)) (word_name n)) (lent result)
            self.old self.new }
        ensures same { OnErr result (self.new ≡ self.old) }
    {
        if !self.peek_named(n) {
            return Err(self.expected(alloc, word_name(n)));
        }
        match self.next_ident() {
            Some((ident, more)) => {
                *self = more;
                Ok(ident)
            }
            None => Err(self.expected(alloc, word_name(n))),
        }
    }
}
