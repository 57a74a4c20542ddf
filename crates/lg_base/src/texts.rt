ghost use Rattle.std.specs.Prelude.{◌≡◌, ◌↔◌, List, ℕ, IsUtf8, IfOk, IsErrOf};
ghost use Rattle.std.specs.Ordering.{nat_cmp};
ghost use Rattle.std.specs.Cmp.Lexicographic.{slice_cmp};
ghost use Rattle.std.specs.String.{string_bytes};
ghost use Rattle.lg_base.specs.declared.texts.TextFault.TheVariants.{NoMemory};

use std::alloc::{AllocError, Global};
use std::cmp::Ordering;
use std::error::Error;
use std::fmt;
use std::marker::Model;

/// Why some bytes were not made a text.
#[derive(Clone, Copy, Debug, PartialEq, Eq, Hash)]
pub enum TextFault {
    /// The bytes are not UTF-8 (RFC 3629).
    NotUtf8,
    NoMemory,
}

impl fmt::Display for TextFault {
    fn fmt<W: fmt::Write>(&self, f: &mut fmt::Formatter<W>) -> fmt::Result {
        f.write_str(match self {
            TextFault::NotUtf8 => "the bytes are not UTF-8",
            TextFault::NoMemory => "no memory",
        })
    }
}

impl Error for TextFault {}

impl From<AllocError> for TextFault {
    ghost from_gives = { λ _ fault. fault ≡ NoMemory };

    fn from(_: AllocError) -> TextFault {
        TextFault::NoMemory
    }
}

/// A text of any length, always UTF-8. Contracts see the list of its bytes.
#[derive(Debug, Drop)]
pub struct Text {
    inner: String,
}

impl Model for Text {
    ghost Value = { List ℕ };

    ghost view = { λ t. string_bytes t.inner };
}

impl Text {
    /// The text of these bytes.
    pub fn text(alloc: Global, bytes: &[u8]) -> Result<Text, TextFault>
        ensures same { IfOk result (λ t. t ≡ bytes.now) }
        ensures utf8 { IfOk result (λ t. IsUtf8 t) }
        ensures not_utf8 { IsErrOf result TextFault.NotUtf8 ↔ (¬ IsUtf8 bytes.now) }
    {
        match std::str::from_utf8(bytes) {
            Ok(s) => Text::copied(alloc, s).map_err(|_| TextFault::NoMemory),
            Err(_) => Err(TextFault::NotUtf8),
        }
    }

    /// The text of a `str`.
    pub fn copied(alloc: Global, s: &str) -> Result<Text, AllocError>
        ensures { IfOk result (λ t. t ≡ s.now) }
    {
        Ok(Text {
            inner: String::from_str(alloc, s)?,
        })
    }

    /// The text that a `String` holds. It takes no memory.
    pub fn from_string(s: String) -> Text
        ensures same { result ≡ string_bytes s }
    {
        Text { inner: s }
    }

    /// The bytes.
    pub fn bytes(&self) -> &[u8]
        ensures { result.now ≡ self.now }
    {
        self.inner.as_bytes()
    }

    /// The text as Rust's.
    pub fn as_str(&self) -> &str
        ensures same { result.now ≡ self.now }
        ensures utf8 { IsUtf8 self.now }
    {
        self.inner.as_str()
    }

    /// Which of two texts is first in the order of their bytes.
    pub fn cmp(&self, other: &Text) -> Ordering
        ensures { result ≡ slice_cmp nat_cmp self.now other.now }
    {
        self.bytes().cmp(&other.bytes())
    }
}

impl Clone for Text {
    ghost is_clone = { λ old new. new ≡ old };

    fn clone(&self) -> Result<Text, AllocError> {
        let inner = self.inner.clone()?;
        Ok(Text { inner })
    }
}

#[cfg(test)]
mod tests {
    use super::*;
    use std::test::Fail;

    #[test]
    fn takes_utf8_alone(rt: HostRuntime) -> Result<(), Fail> {
        let text = Text::text(rt.alloc(), "é".as_bytes())?;
        assert_eq!(rt; text.clone()?.bytes(), [0xC3, 0xA9].as_slice());
        assert_eq!(rt;
            Text::copied(rt.alloc(), "né")?.bytes(),
            [b'n', 0xC3, 0xA9].as_slice()
        );
        let refused = matches!(
            &Text::text(rt.alloc(), &[b'n', 0xFF]),
            Err(TextFault::NotUtf8)
        );
        assert!(rt; refused);
        Ok(())
    }
}
