//! Characters that stand together.

ghost use Rattle.std.specs.Prelude.{◌≡◌};
ghost use Rattle.token_text.specs.Characters as c;

/// Which characters go on, where a run of them stands.
#[derive(Clone, Copy)]
pub enum Class {
    /// Those of a word.
    Continue,
    /// Digits of a base, and `_`.
    Binary,
    Octal,
    Decimal,
    Hexadecimal,
    /// `_` alone.
    Underscore,
    /// All but `'`.
    NoQuote,
    /// All but the line feed.
    NoLineFeed,
    /// Blanks.
    Blank,
}

const OCTAL: [char; 9] = ['0', '1', '2', '3', '4', '5', '6', '7', '_'];

pub fn is_blank(ch: char) -> bool
    ensures { result ≡ c.is_blank ch }
{
    matches!(ch, ' ' | '\t' | '\n' | '\r')
}

/// Whether no longer piece begins so: a mark but `/`, or a bracket.
pub fn stands_alone(ch: char) -> bool
    ensures { result ≡ c.stands_alone ch }
{
    matches!(ch, '!' | '#'..='&' | '('..='.' | ':'..='@' | '[' | ']' | '^' | '{'..='~')
}

/// Whether a word begins so and nothing else: with `b`, `c` and `r` literals begin too.
pub fn starts_word(ch: char) -> bool
    ensures { result ≡ c.starts_word ch }
{
    // `|` and `&` in place of `||` and `&&`, for one value to prove by
    (ch.is_ascii_alphabetic() | (ch == '_')) & (ch != 'b') & (ch != 'c') & (ch != 'r')
}

/// Whether a suffix may begin so. Most are of ASCII, for which no table is asked.
#[tactic(auto, using(crate::proofs::CharacterLaws::letter_ascii), unfolding(crate::specs::Characters::is_letter))]
pub fn is_letter(ch: char) -> bool
    ensures { result ≡ c.is_letter ch }
{
    if ch.is_ascii() {
        ch.is_ascii_alphabetic()
    } else {
        unicode_ident::is_xid_start(ch)
    }
}

/// Whether a word may go on so.
#[tactic(auto, using(crate::proofs::CharacterLaws::continue_ascii), unfolding(crate::specs::Characters::is_continue))]
fn is_continue(ch: char) -> bool
    ensures { result ≡ c.is_continue ch }
{
    if ch.is_ascii() {
        // `|` in place of `||`, for one value to prove by
        ch.is_ascii_alphanumeric() | (ch == '_')
    } else {
        unicode_ident::is_xid_continue(ch)
    }
}

impl Class {
    #[tactic(auto, unfolding(crate::specs::Characters::passes))]
    pub fn passes(self, ch: char) -> bool
        ensures { result ≡ c.passes self ch }
    {
        match self {
            Class::Continue => is_continue(ch),
            Class::Binary => ch == '0' || ch == '1' || ch == '_',
            Class::Octal => OCTAL.contains(&ch),
            Class::Decimal => ch.is_ascii_digit() || ch == '_',
            Class::Hexadecimal => ch.is_ascii_hexdigit() || ch == '_',
            Class::Underscore => ch == '_',
            Class::NoQuote => ch != '\'',
            Class::NoLineFeed => ch != '\n',
            Class::Blank => is_blank(ch),
        }
    }
}
