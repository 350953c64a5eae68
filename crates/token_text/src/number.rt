//! Numbers.

ghost use Rattle.std.specs.Prelude.{◌≡◌, chars};
ghost use Rattle.std.specs.Char.{is_ascii_digit, is_ascii_hexdigit};
ghost use Rattle.token_text.specs.Characters as c;
ghost use Rattle.token_text.specs.Front as spec;
ghost use Rattle.token_text.specs.Pieces as pieces;

use crate::class::Class;
use crate::word;
use token_core::{ErrorKind, LitKind};

fn begins_digit(text: &str) -> bool
    ensures { result ≡ c.begins_with is_ascii_digit (chars text.now) }
{
    match word::split_first(text) {
        Some((first, _)) => first.is_ascii_digit(),
        None => false,
    }
}

/// Whether a decimal digit stands here after any `_`.
fn starts_digits(text: &str) -> bool
    ensures { result ≡ c.starts is_ascii_digit (chars text.now) }
{
    begins_digit(word::after_run(text, Class::Underscore))
}

fn starts_hexadecimal(text: &str) -> bool
    ensures { result ≡ c.starts is_ascii_hexdigit (chars text.now) }
{
    match word::split_first(word::after_run(text, Class::Underscore)) {
        Some((first, _)) => first.is_ascii_hexdigit(),
        None => false,
    }
}

/// The base that begins here after a zero, and what follows its letter.
#[tactic(auto, using(crate::proofs::Pasts::pasts), unfolding(crate::specs::Front::base))]
fn base(text: &str) -> Option<(Class, &str)>
    ensures { spec.FindsBy (spec.base (chars text.now)) text.now result }
{
    let (letter, rest) = word::split_first(text)?;
    match letter {
        'x' if starts_hexadecimal(rest) => Some((Class::Hexadecimal, rest)),
        'o' if starts_digits(rest) => Some((Class::Octal, rest)),
        'b' if starts_digits(rest) => Some((Class::Binary, rest)),
        _ => None,
    }
}

/// A number of a base that isn't decimal, which `rest` follows.
#[tactic(auto, using(crate::proofs::Pasts::pasts), unfolding(crate::specs::Front::based))]
fn based(rest: &str) -> Result<(LitKind, &str), ErrorKind>
    ensures { spec.Tells (spec.based (chars rest.now)) rest.now result }
{
    if begins_digit(rest) {
        Err(ErrorKind::MalformedNumber)
    } else {
        Ok((LitKind::Int, rest))
    }
}

#[tactic(auto, using(crate::proofs::Pasts::pasts))]
fn after_sign(text: &str) -> &str
    ensures rest { chars result.now ≡ pieces.after_sign (chars text.now) }
    ensures past { spec.Past text.now result.now }
{
    match word::split_first(text) {
        Some((first, rest)) if first == '+' || first == '-' => rest,
        Some(_) => text,
        None => text,
    }
}

#[tactic(auto, using(crate::proofs::Pasts::pasts))]
fn exponent_digits(text: &str) -> Result<(LitKind, &str), ErrorKind>
    ensures { spec.Tells (spec.exponent_digits (chars text.now)) text.now result }
{
    if starts_digits(text) {
        Ok((LitKind::Float, word::after_run(text, Class::Decimal)))
    } else {
        Err(ErrorKind::MalformedNumber)
    }
}

fn is_e(ch: char) -> bool
    ensures { result ≡ pieces.is_e ch }
{
    ch == 'e' || ch == 'E'
}

/// A number of this kind so far, with its exponent where one begins.
#[tactic(auto, using(crate::proofs::Pasts::pasts), unfolding(crate::specs::Front::exponent))]
fn exponent(kind: LitKind, text: &str) -> Result<(LitKind, &str), ErrorKind>
    ensures { spec.Tells (spec.exponent kind (chars text.now)) text.now result }
{
    match word::split_first(text) {
        Some((first, rest)) if is_e(first) => exponent_digits(after_sign(rest)),
        Some(_) => Ok((kind, text)),
        None => Ok((kind, text)),
    }
}

/// What follows a point that belongs to a number.
#[tactic(auto, using(crate::proofs::Pasts::pasts), unfolding(crate::specs::Front::point))]
fn after_point(text: &str) -> Option<&str>
    ensures { spec.Finds (spec.point (chars text.now)) text.now result }
{
    let rest = word::after_char(text, '.')?;
    match word::split_first(rest) {
        Some((next, _)) if next == '.' || word::is_start(next) => None,
        Some(_) => Some(rest),
        None => Some(rest),
    }
}

/// A decimal number, of which this follows the first digits.
#[tactic(auto, using(crate::proofs::Pasts::pasts), unfolding(crate::specs::Front::fraction))]
fn fraction(text: &str) -> Result<(LitKind, &str), ErrorKind>
    ensures { spec.Tells (spec.fraction (chars text.now)) text.now result }
{
    match after_point(text) {
        Some(rest) => exponent(LitKind::Float, word::after_run(rest, Class::Decimal)),
        None => exponent(LitKind::Int, text),
    }
}

#[tactic(auto, using(crate::proofs::Pasts::pasts))]
fn based_or_decimal(text: &str) -> Result<(LitKind, &str), ErrorKind>
    ensures { spec.Tells (spec.based_or_decimal (chars text.now) (spec.base (chars text.now))) text.now result }
{
    match base(text) {
        Some((class, rest)) => based(word::after_run(rest, class)),
        None => decimal(text),
    }
}

#[tactic(auto, using(crate::proofs::Pasts::pasts))]
fn decimal(text: &str) -> Result<(LitKind, &str), ErrorKind>
    ensures { spec.Tells (spec.decimal (chars text.now)) text.now result }
{
    fraction(word::after_run(text, Class::Decimal))
}

/// A number without its suffix, by its first digit and what follows that.
#[tactic(auto, using(crate::proofs::Pasts::pasts), unfolding(crate::specs::Front::number))]
pub fn number(first: char, rest: &str) -> Result<(LitKind, &str), ErrorKind>
    ensures { spec.Tells (spec.number first (chars rest.now)) rest.now result }
{
    if first == '0' {
        based_or_decimal(rest)
    } else {
        decimal(rest)
    }
}
