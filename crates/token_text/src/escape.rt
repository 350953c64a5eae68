//! What stands at the front of what a string holds.

ghost use Rattle.std.specs.Prelude.{◌≡◌, ◌<◌, true, false, length, IfSome, MatchOption, chars};
ghost use Rattle.token_text.specs.Front.{Finds, FindsBy, after_char};
ghost use Rattle.token_text.specs.Strings as spec;

use crate::class::Class;
use crate::literal::past_hashes;
use crate::piece::Closing;
use crate::word;

/// How many digits the number of a character may have.
const MOST_DIGITS: usize = 6;

/// A character that is held, or none where a line goes on, and what follows.
type Shown<'a> = (Option<char>, &'a str);

/// The character that this one stands for after a backslash.
#[tactic(auto, unfolding(crate::specs::Strings::letter))]
fn letter(ch: char) -> Option<char>
    ensures { result ≡ spec.letter ch }
{
    match ch {
        'n' => Some('\n'),
        'r' => Some('\r'),
        't' => Some('\t'),
        '0' => Some('\0'),
        '\\' | '\'' | '"' => Some(ch),
        _ => None,
    }
}

/// The character of two hexadecimal digits, up to 7F.
#[tactic(auto, using(crate::proofs::Pasts::pasts), unfolding(crate::specs::Strings::by_two))]
fn by_two(text: &str) -> Option<Shown<'_>>
    ensures { FindsBy (spec.by_two (chars text.now)) text.now result }
{
    let (first, text) = word::split_first(text)?;
    let (second, rest) = word::split_first(text)?;
    let ch = by_digits(first, second)?;
    Some((Some(ch), rest))
}

/// The character of these two digits.
#[tactic(auto, using(crate::proofs::Escapes::two))]
fn by_digits(first: char, second: char) -> Option<char>
    ensures { result ≡ spec.of_two first second }
{
    match first.to_digit(8) {
        Some(high) => match second.to_digit(16) {
            Some(low) => Some((high * 16 + low) as u8 as char),
            None => None,
        },
        None => None,
    }
}

/// The character whose number these hexadecimal digits are, among which `_` may stand.
#[tactic(auto, using(crate::proofs::Escapes::refused_number))]
fn numbered(digits: &str) -> Option<char>
    ensures { MatchOption result (spec.is_number (chars digits.now) ≡ false)
        (λ c. (spec.is_number (chars digits.now) ≡ true) × (c ≡ spec.number 0 (spec.digits (chars digits.now)))) }
{
    let (first, _) = word::split_first(digits)?;
    if !first.is_ascii_hexdigit() {
        return None;
    }
    char::from_u32(number(digits)?)
}

/// The number of these hexadecimal digits, where they aren't too many.
#[tactic(auto, using(crate::proofs::Escapes::digit))]
fn number(digits: &str) -> Option<u32>
    ensures { spec.NumberOf (spec.digits (chars digits.now)) result }
{
    let mut count: usize = 0;
    let mut number: u32 = 0;
    let mut rest = digits;
    while let Some((first, after)) = word::split_first(rest) {
        if let Some(digit) = first.to_digit(16) {
            if count == MOST_DIGITS {
                return None;
            }
            count += 1;
            number = number * 16 + digit;
        }
        rest = after;
    }
    Some(number)
}

/// The character whose number stands here, up to a closing brace.
#[tactic(auto, using(crate::proofs::Pasts::pasts), unfolding(crate::specs::Strings::braced))]
fn braced(text: &str) -> Option<Shown<'_>>
    ensures { FindsBy (spec.braced (chars text.now)) text.now result }
{
    let end = word::after_run(text, Class::Hexadecimal);
    let rest = word::after_char(end, '}')?;
    match numbered(word::up_to(text, end)) {
        Some(ch) => Some((Some(ch), rest)),
        None => None,
    }
}

/// The same after an opening brace.
#[tactic(auto, using(crate::proofs::Pasts::pasts))]
fn by_number(text: &str) -> Option<Shown<'_>>
    ensures { FindsBy (spec.by_number (after_char 123 (chars text.now))) text.now result }
{
    let rest = word::after_char(text, '{')?;
    braced(rest)
}

/// Nothing, for the line feed at the front and all blanks after it.
#[tactic(auto, using(crate::proofs::Pasts::pasts))]
fn broken(text: &str) -> Option<Shown<'_>>
    ensures { FindsBy (spec.broken (after_char 10 (chars text.now))) text.now result }
{
    let rest = word::after_char(text, '\n')?;
    Some((None, word::after_blanks(rest)))
}

/// What an escape stands for, of which this follows the backslash.
#[tactic(auto, using(crate::proofs::Pasts::pasts), unfolding(crate::specs::Strings::escaped))]
fn escaped(text: &str) -> Option<Shown<'_>>
    ensures { FindsBy (spec.escaped (chars text.now)) text.now result }
{
    let (first, rest) = word::split_first(text)?;
    match first {
        'x' => by_two(rest),
        'u' => by_number(rest),
        '\n' => broken(text),
        '\r' => broken(rest),
        _ => Some((Some(letter(first)?), rest)),
    }
}

/// How many `#` belong to the closing quote.
fn hashes(closing: Closing) -> usize
    ensures { result ≡ spec.hashes_of closing }
{
    match closing {
        Closing::DoubleQuote => 0,
        Closing::Hashes(count) => count,
        Closing::Quote => 0,
    }
}

fn has_escapes(closing: Closing) -> bool
    ensures { result ≡ spec.has_escapes closing }
{
    match closing {
        Closing::DoubleQuote => true,
        Closing::Hashes(_) => false,
        Closing::Quote => true,
    }
}

/// What follows the closing quote, where it stands here.
#[tactic(auto, using(crate::proofs::Pasts::pasts), unfolding(crate::specs::Strings::after_closing))]
pub fn after_closing(text: &str, closing: Closing) -> Option<&str>
    ensures { Finds (spec.after_closing closing (chars text.now)) text.now result }
{
    let rest = word::after_char(text, '"')?;
    past_hashes(rest, hashes(closing))
}

/// A line feed, of which this follows its carriage return.
#[tactic(auto, using(crate::proofs::Pasts::pasts))]
fn line_end(text: &str) -> Option<Shown<'_>>
    ensures { FindsBy (spec.line_end (after_char 10 (chars text.now))) text.now result }
{
    let rest = word::after_char(text, '\n')?;
    Some((Some('\n'), rest))
}

/// What a backslash stands for before this, in a string that ends so.
#[tactic(auto, using(crate::proofs::Pasts::pasts))]
fn backslash(text: &str, closing: Closing) -> Option<Shown<'_>>
    ensures { FindsBy (spec.backslash closing (chars text.now)) text.now result }
{
    if has_escapes(closing) {
        escaped(text)
    } else {
        Some((Some('\\'), text))
    }
}

/// The character, escape or end of a line that stands here.
#[tactic(auto, using(crate::proofs::Pasts::pasts), unfolding(crate::specs::Strings::unit))]
fn unit(text: &str, closing: Closing) -> Option<Shown<'_>>
    ensures unit { FindsBy (spec.unit closing (chars text.now)) text.now result }
    ensures less { IfSome result (λ x. length x.1.now < length text.now) }
{
    let (first, rest) = word::split_first(text)?;
    match first {
        '\r' => line_end(rest),
        '\\' => backslash(rest, closing),
        _ => Some((Some(first), rest)),
    }
}

/// What a string that ends so holds first, and what follows; nothing at its end, and where something is malformed.
#[tactic(auto, unfolding(crate::specs::Strings::shown))]
pub fn shown(text: &str, closing: Closing) -> Option<Shown<'_>>
    ensures shown { FindsBy (spec.shown closing (chars text.now)) text.now result }
    ensures less { IfSome result (λ x. length x.1.now < length text.now) }
{
    match after_closing(text, closing) {
        Some(_) => None,
        None => unit(text, closing),
    }
}
