// Binds.
ghost use Rattle.std.specs.Prelude.{◌≡◌, MatchResult};
ghost use Rattle.tilt_cli.specs.Binding.{IsBinding, binding_of, binding_spelled};

use crate::fault::WordsFault;
use std::alloc::Global;
use tilt_lexer::Name;

/// What a word `NAME=FILE` says: that an input's rows lie in a file. The word is cut at its first `=`.
#[derive(Debug, Drop)]
pub struct Bind {
    /// The name of the input, which may be a reserved word.
    pub name: Name,
    /// The name of the file, which isn't empty.
    pub file: String,
}

impl Bind {
    // The bind that the word is.
    pub(crate) fn read(alloc: Global, word: &str) -> Result<Bind, WordsFault>
        ensures { MatchResult result
            (λ bind. IsBinding (binding_spelled word.now) × (binding_of bind ≡ binding_spelled word.now))
            (λ fault. fault ≡ WordsFault.Usage → ¬ (IsBinding (binding_spelled word.now))) }
    {
        let (name, file) = word.split_once('=').ok_or(WordsFault::Usage)?;
        let name = Name::read(alloc, name.as_bytes())?.ok_or(WordsFault::Usage)?;
        if file.is_empty() {
            return Err(WordsFault::Usage);
        }
        let file = String::from_str(alloc, file)?;
        Ok(Bind { name, file })
    }
}
