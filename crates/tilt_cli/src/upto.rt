// Up to where a session is handed the rows of its inputs.
ghost use Rattle.std.specs.Prelude.{◌≡◌, ◌++◌, ◌∷◌, [], List, MatchResult, OnOk};
ghost use Rattle.tilt_cli.specs.Upto.{AreCutBindings, CutBinding, IsUpto, UptoValue, cut_bindings_of, upto_of};

use crate::cut_bind::CutBind;
use crate::fault::WordsFault;
use crate::number::read_within;
use std::alloc::{AllocError, Global};
use tilt_base::T;

/// Up to where a session is handed the rows of its inputs: the rows that start below a cut. Cuts are in ticks and lie in `-T..=T`.
#[derive(Debug, Drop)]
pub enum Upto {
    /// One cut for all inputs.
    All(i64),
    /// A cut for each name, of which there is at least one. A name may be any word, and may be given twice: that they are the inputs of a
    /// query, each once, is tested when the query is known.
    Each(Vec<CutBind>),
}

impl Upto {
    // What the word says.
    pub(crate) fn read(alloc: Global, word: &str) -> Result<Upto, WordsFault>
        ensures { MatchResult result
            (λ upto. IsUpto word.now (upto_of upto))
            (λ fault. fault ≡ WordsFault.Usage → (upto : UptoValue) → ¬ (IsUpto word.now upto)) }
    {
        match read_within(word, -T, T) {
            Some(cut) => Ok(Upto::All(cut)),
            None => {
                let cuts = read_cuts(alloc, word)?;
                Ok(Upto::Each(cuts))
            }
        }
    }
}

// The names and cuts that the word is, one or more with commas between them.
fn read_cuts(alloc: Global, word: &str) -> Result<Vec<CutBind>, WordsFault>
    ensures { MatchResult result
        (λ cuts. AreCutBindings word.now (cut_bindings_of cuts.items))
        (λ fault. fault ≡ WordsFault.Usage → (cuts : List CutBinding) → ¬ (AreCutBindings word.now cuts)) }
{
    let mut cuts = Vec::new(alloc);
    for part in word.split(',') {
        let bind = CutBind::read(alloc, part)?;
        add(&mut cuts, bind)?;
    }
    Ok(cuts)
}

// Adds one more.
fn add(cuts: &mut Vec<CutBind>, bind: CutBind) -> Result<(), AllocError>
    ensures { OnOk result (cuts.new.items ≡ cuts.old.items ++ bind ∷ []) }
{
    cuts.push(bind)?;
    Ok(())
}
