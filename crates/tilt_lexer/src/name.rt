// Names, and what a word is.
ghost use Rattle.std.specs.Prelude.{◌≡◌, IfOk, MatchOption};
ghost use Rattle.std.specs.List.{list_all, prefix_len};
ghost use Rattle.tilt_lexer.specs.Word.{begins_word, goes_on_word, is_word, IsWord};

use std::alloc::{AllocError as OutOfMemory, Global};
use std::marker::Model;

/// A word: a letter or `_`, and then letters, digits and `_`, in ASCII. A clause sees it as its bytes. A reserved word
/// may be one too.
#[derive(Debug, Drop)]
pub struct Name {
    bytes: Vec<u8>,
}

impl Model for Name {
    ghost use Rattle.std.specs.Prelude.{List, ℕ};
    ghost use Rattle.tilt_lexer.specs.Word.{IsWord};

    ghost Value = { List ℕ };

    ghost view = { λ n. n.bytes.items };

    ghost invariant = { λ n. IsWord n.bytes.items };
}

impl Name {
    /// The name with these bytes, or `None` if they aren't a word.
    pub fn read(alloc: Global, bytes: &[u8]) -> Result<Option<Name>, OutOfMemory>
        ensures { IfOk result (λ name. MatchOption name
            (¬ (IsWord bytes.now))
            (λ name. IsWord bytes.now × (name ≡ bytes.now))) }
    {
        if !is_word(bytes) {
            return Ok(None);
        }
        Ok(Some(Name::from_word(alloc, bytes)?))
    }

    // The name with these bytes.
    pub(crate) fn from_word(alloc: Global, word: &[u8]) -> Result<Name, OutOfMemory>
        requires { IsWord word.now }
        ensures { IfOk result (λ name. name ≡ word.now) }
    {
        let bytes = word.to_vec(alloc)?;
        Ok(Name { bytes })
    }

    /// An equal name.
    pub fn copy(&self) -> Result<Name, OutOfMemory>
        ensures { IfOk result (λ name. name ≡ self.now) }
    {
        let bytes = self.bytes.clone()?;
        Ok(Name { bytes })
    }

    /// The bytes of the name.
    pub fn bytes(&self) -> &[u8]
        ensures value { result.now ≡ self.now }
        ensures word { IsWord self.now }
    {
        &self.bytes
    }
}

// Whether a word may begin with the byte.
pub(crate) fn begins_word(byte: u8) -> bool
    ensures { result ≡ begins_word byte }
{
    byte.is_ascii_alphabetic() || byte == b'_'
}

// Whether the byte may be in a word after its first byte.
fn goes_on_word(byte: u8) -> bool
    ensures { result ≡ goes_on_word byte }
{
    begins_word(byte) || byte.is_ascii_digit()
}

// How many bytes at the beginning may be in a word after its first byte.
pub(crate) fn word_length(bytes: &[u8]) -> usize
    ensures { result ≡ prefix_len goes_on_word bytes.now }
{
    bytes.iter().take_while(|byte| goes_on_word(**byte)).count()
}

// Whether each of the bytes may be in a word after its first byte.
fn all_go_on_word(bytes: &[u8]) -> bool
    ensures { result ≡ list_all goes_on_word bytes.now }
{
    bytes.iter().all(|byte| goes_on_word(*byte))
}

/// Whether the bytes are a word: a letter or `_`, and then letters, digits and `_`, in ASCII.
#[tactic(auto, using(crate::proofs::Words::is_word_split))]
pub fn is_word(bytes: &[u8]) -> bool
    ensures { result ≡ is_word bytes.now }
{
    match bytes {
        [] => false,
        [first, rest @ ..] => begins_word(*first) && all_go_on_word(rest),
    }
}
