ghost use Rattle.std.specs.Prelude.{◌≡◌, [], ◌<◌, length, MatchOption};

use std::marker::Model;

/// The key of a line: one or more bytes, of any kind. A clause sees it as its bytes.
#[derive(Debug, Drop)]
pub struct Key<'a> {
    bytes: &'a [u8],
}

impl<'a> Model for Key<'a> {
    ghost use Rattle.std.specs.Prelude.{List, ℕ, length, ◌<◌};

    ghost Value = { List ℕ };

    ghost view = { λ key. key.bytes.now };

    ghost invariant = { λ key. 0 < length key.bytes.now };
}

impl<'a> Key<'a> {
    /// The key with these bytes; `None` if there are none.
    pub fn new(bytes: &'a [u8]) -> Option<Key<'a>>
        ensures { MatchOption result (bytes.now ≡ []) (λ key. key ≡ bytes.now) }
    {
        if bytes.is_empty() {
            None
        } else {
            Some(Key { bytes })
        }
    }

    /// The bytes of the key.
    pub fn bytes(&self) -> &'a [u8]
        ensures value { result.now ≡ self.now }
        ensures some { 0 < length self.now }
    {
        self.bytes
    }
}
