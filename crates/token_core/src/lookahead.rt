//! A choice of tokens that a stream may begin with.

ghost use Rattle.std.specs.Prelude.{false, ◌≡◌, ◌<◌, ◌++◌, [], map, IfOk, OnOk};
ghost use Rattle.token_core.specs.Looks as spec;
ghost use Rattle.token_core.specs.Refusal.{Made};
ghost use Rattle.token_core.specs.TokenNames.{name_of, token_count};

use crate::error::{Error, ErrorKind};
use crate::parse::Token;
use crate::parse_stream::ParseStream;
use crate::text::Text;
use crate::token_names::{COUNT, token_name};
use std::alloc::{AllocError, Global};
use std::marker::Model;

/// A position, and the tokens that were tested for there and not found, which a refusal names.
#[derive(Drop)]
pub struct Lookahead<'a> {
    input: ParseStream<'a>,
    // their numbers, each once; so there is a place for every token
    missing: [u8; COUNT],
    count: usize,
}

impl<'a> Model for Lookahead<'a> {
    ghost use Rattle.std.specs.Prelude.{take, ◌≤◌};
    ghost use Rattle.token_core.specs.Looks.{Looks, looks_code, Known};
    ghost use Rattle.token_core.specs.TokenNames.{token_count};

    ghost Value = { Looks };

    ghost coded = { looks_code };

    ghost view = { λ l. record { input = l.input; missing = take l.count l.missing } };

    ghost invariant = { λ l. (l.count ≤ token_count) × Known (take l.count l.missing) };
}

impl<'a> ParseStream<'a> {
    /// A choice of tokens at the position.
    pub fn lookahead1(&self) -> Lookahead<'a>
        ensures { result ≡ spec.begun self.now }
    {
        Lookahead {
            input: self.fork(),
            missing: [0; COUNT],
            count: 0,
        }
    }
}

impl<'a> Lookahead<'a> {
    /// Whether the token is at the front; if it isn't, the refusal will name it.
    pub fn peek<T: Token>(&mut self) -> bool
        ensures sees { result ≡ T.sees self.old.input.rest }
        ensures noted { self.new ≡ spec.tested (T.sees self.old.input.rest) T.number self.old }
    {
        if T::peek(&self.input) {
            return true;
        }
        self.note::<T>();
        false
    }

    /// The refusal will name the token, which is not at the front.
    pub fn note<T: Token>(&mut self)
        ensures { self.new ≡ spec.tested false T.number self.old }
    {
        self.note_number(T::number());
    }

    fn note_number(&mut self, number: u8)
        requires known { number < token_count }
        ensures input { self.new.input ≡ self.old.input }
        ensures missing { self.new.missing ≡ spec.noted self.old.missing number }
    {
        if !self.missing[..self.count].contains(&number) {
            self.missing[self.count] = number;
            self.count += 1;
        }
    }

    /// The refusal where no test was made.
    #[tactic(auto, unfolding(crate::specs::Looks::choices))]
    fn untested(&self, alloc: Global) -> Error
        ensures { Made result (spec.unmet_at [] self.now.input) }
    {
        if self.input.is_empty() {
            let at = self.input.span();
            return Error::of(
                alloc,
                ErrorKind::Expected,
                "unexpected end of input",
                at,
                at,
            );
        }
        self.input
            .refused(alloc, ErrorKind::Expected, "unexpected token")
    }

    /// The refusal where no test succeeded: `expected X`, `expected X or Y`, or `expected one of: X, Y, Z`, in the order
    /// of the tests, each token once.
    pub fn error(&self, alloc: Global) -> Error
        ensures { Made result (spec.unmet self.now) }
    {
        let missing = &self.missing[..self.count];
        if missing.len() == 0 {
            return self.untested(alloc);
        }
        match choices(alloc, missing) {
            Ok(text) => self
                .input
                .refused(alloc, ErrorKind::Expected, text.as_str()),
            Err(_) => Error::out_of_memory(),
        }
    }
}

#[tactic(auto, unfolding(crate::specs::Looks::choices))]
fn choices(alloc: Global, missing: &[u8]) -> Result<Text, AllocError>
    ensures { IfOk result (λ t. t ≡ spec.choices (map name_of missing.now)) }
{
    match missing {
        [] => Text::from_str(alloc, "unexpected token"),
        [one] => Text::joined(alloc, "expected ", token_name(*one)),
        [one, other] => {
            let mut text = Text::joined(alloc, "expected ", token_name(*one))?;
            text.push(" or ")?;
            text.push(token_name(*other))?;
            Ok(text)
        }
        [one, others @ ..] => {
            let mut text = Text::joined(alloc, "expected one of: ", token_name(*one))?;
            push_commas(&mut text, others)?;
            Ok(text)
        }
    }
}

#[tactic(auto, using(crate::proofs::Choices::commaed))]
fn push_commas(text: &mut Text, tokens: &[u8]) -> Result<(), AllocError>
    ensures { OnOk result (text.new ≡ text.old ++ spec.commas (map name_of tokens.now)) }
{
    for token in tokens {
        text.push(", ")?;
        text.push(token_name(*token))?;
    }
    Ok(())
}
