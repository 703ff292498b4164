// The cut of one input.
ghost use Rattle.std.specs.Prelude.{◌≡◌, MatchResult};
ghost use Rattle.tilt_cli.specs.Upto.{CutBinding, IsCutBinding, cut_binding_of};

use crate::fault::WordsFault;
use crate::number::read_within;
use std::alloc::Global;
use tilt_base::T;
use tilt_lexer::Name;

/// What a part `NAME=TIME` of the value of `--upto` says: below which cut an input's rows start. The part is cut at its first `=`.
#[derive(Debug, Drop)]
pub struct CutBind {
    /// The name of the input, which may be a reserved word.
    pub name: Name,
    /// The cut, in ticks. It lies in `-T..=T`.
    pub cut: i64,
}

impl CutBind {
    // The name and the cut that the word is.
    pub(crate) fn read(alloc: Global, word: &str) -> Result<CutBind, WordsFault>
        ensures { MatchResult result
            (λ bind. IsCutBinding word.now (cut_binding_of bind))
            (λ fault. fault ≡ WordsFault.Usage → (binding : CutBinding) → ¬ (IsCutBinding word.now binding)) }
    {
        let (name, time) = word.split_once('=').ok_or(WordsFault::Usage)?;
        let name = Name::read(alloc, name.as_bytes())?.ok_or(WordsFault::Usage)?;
        let cut = read_within(time, -T, T).ok_or(WordsFault::Usage)?;
        Ok(CutBind { name, cut })
    }
}
