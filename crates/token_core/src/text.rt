//! The text of identifiers, literals and refusals.

ghost use Rattle.std.specs.Prelude.{◌≡◌, ◌++◌, IfOk, OnOk, string_bytes};
ghost use Rattle.std.specs.Str.{bytes_eq};

use arrayvec::ArrayString;
use std::alloc::{AllocError, Global};
use std::marker::Model;

/// A text that contracts see as its bytes. One of up to 16 bytes takes no memory.
#[derive(Drop)]
pub struct Text {
    kept: Kept,
    alloc: Global,
}

/// Where a text stands.
#[derive(Drop)]
enum Kept {
    Short(ArrayString<16>),
    Long(String),
}

impl Model for Text {
    ghost use Rattle.std.specs.Prelude.{List, ℕ};
    ghost use Rattle.token_core.specs.Texts.{kept_bytes};

    ghost Value = { List ℕ };

    ghost view = { λ t. kept_bytes t.kept };
}

impl Text {
    #[tactic(auto, unfolding(crate::specs::Texts::kept_bytes))]
    pub fn from_str(alloc: Global, text: &str) -> Result<Text, AllocError>
        ensures { IfOk result (λ t. t ≡ text.now) }
    {
        let kept = match ArrayString::from(text) {
            Ok(short) => Kept::Short(short),
            Err(_) => Kept::Long(String::from_str(alloc, text)?),
        };
        Ok(Text { kept, alloc })
    }

    /// One text after the other.
    pub fn joined(alloc: Global, first: &str, second: &str) -> Result<Text, AllocError>
        ensures { IfOk result (λ t. t ≡ first.now ++ second.now) }
    {
        let mut text = Text::from_str(alloc, first)?;
        text.push(second)?;
        Ok(text)
    }

    /// Puts a text at the end.
    #[tactic(auto, unfolding(crate::specs::Texts::kept_bytes))]
    pub fn push(&mut self, text: &str) -> Result<(), AllocError>
        ensures { OnOk result (self.new ≡ self.old ++ text.now) }
    {
        match &mut self.kept {
            Kept::Short(short) => {
                if short.try_push_str(text).is_ok() {
                    return Ok(());
                }
                let long = long_joined(self.alloc, short.as_str(), text)?;
                self.kept = Kept::Long(long);
            }
            Kept::Long(long) => long.push_str(text)?,
        }
        Ok(())
    }

    #[tactic(auto, unfolding(crate::specs::Texts::kept_bytes))]
    pub fn as_str(&self) -> &str
        ensures { result.now ≡ self.now }
    {
        match &self.kept {
            Kept::Short(short) => short.as_str(),
            Kept::Long(long) => long.as_str(),
        }
    }

    /// Whether it is this text.
    pub fn is(&self, text: &str) -> bool
        ensures { result ≡ bytes_eq self.now text.now }
    {
        self.as_str() == text
    }

    /// Its equal.
    #[tactic(auto, unfolding(crate::specs::Texts::kept_bytes))]
    pub fn copy(&self, alloc: Global) -> Result<Text, AllocError>
        ensures { IfOk result (λ t. t ≡ self.now) }
    {
        let kept = match &self.kept {
            Kept::Short(short) => Kept::Short(*short),
            Kept::Long(long) => Kept::Long(String::from_str(alloc, long.as_str())?),
        };
        Ok(Text { kept, alloc })
    }
}

/// One text after the other, which takes memory at once for both.
fn long_joined(alloc: Global, first: &str, second: &str) -> Result<String, AllocError>
    ensures { IfOk result (λ t. string_bytes t ≡ first.now ++ second.now) }
{
    let mut text = String::with_capacity(alloc, first.len() + second.len())?;
    text.push_str(first)?;
    text.push_str(second)?;
    Ok(text)
}
