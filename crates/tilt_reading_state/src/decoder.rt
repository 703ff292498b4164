// What is kept of a text of readings, of its spelling.
ghost use Rattle.std.specs.Prelude.{◌≡◌, ◌⊎◌, ◌↔◌, ◌++◌, IsTrue, drop, List, ℕ, IfOk, IfErr, MatchOption, MatchResult};
ghost use Rattle.std.specs.List.{list_all};
ghost use Rattle.tilt_conventions.specs.Resumable.{fits};
ghost use Rattle.tilt_reading_state.specs.Reading.{Gives, kept_at};
ghost use Rattle.tilt_reading_state.specs.Spelling.{spelled_kept};
ghost use Rattle.tilt_reading_state.specs.Valid.{IsInRange, IsResumable, IsSpelled};
ghost use Rattle.tilt_reading_text.specs.Kept.{BareText};

use crate::encoder::encode_kept;
use crate::fault::KeptFault;
use crate::header::read_header;
use crate::inputs::read_readings;
use crate::reader::Reader;
use std::alloc::{AllocError as OutOfMemory, Global};
use tilt_conventions::{KeptConverter, fits};
use tilt_reading_text::KeptText;

/// What the start of a text spells, and how many of its bytes do. `NotKept` occurs exactly if the text begins with the spelling of nothing
/// from which a text of readings can go on and whose numbers are in range. `OutOfMemory` occurs if memory runs out, and for no other
/// reason.
pub fn decode_kept(alloc: Global, text: &[u8]) -> Result<(KeptText, usize), KeptFault>
    ensures spelled { IfOk result (λ found. IsSpelled text.now found.0 found.1) }
    ensures fit { IfOk result (λ found. IsResumable found.0) }
    ensures range { IfOk result (λ found. IsInRange found.0) }
    ensures bad { IfErr result (λ fault. fault ≡ KeptFault.NotKept → (kept : BareText) (rest : List ℕ)
        → IsResumable kept → IsInRange kept → ¬ (text.now ≡ spelled_kept kept ++ rest)) }

    // Each spelling is read back, whatever comes after it, and nothing else is read.
    ensures only { (kept : BareText) (rest : List ℕ) → IsResumable kept → IsInRange kept → text.now ≡ spelled_kept kept ++ rest
        → MatchResult result (λ found. (found.0 ≡ kept) × (drop found.1 text.now ≡ rest)) (λ fault. fault ≡ KeptFault.OutOfMemory) }
    ensures none { ((kept : BareText) (rest : List ℕ) → IsResumable kept → IsInRange kept → ¬ (text.now ≡ spelled_kept kept ++ rest))
        → MatchResult result (λ _. ⊥) (λ fault. (fault ≡ KeptFault.NotKept) ⊎ (fault ≡ KeptFault.OutOfMemory)) }
{
    let kept = read(alloc, text)?;
    if !is_resumable(&kept) {
        return Err(KeptFault::NotKept);
    }
    match spelled_bytes(alloc, text, &kept)? {
        Some(count) => Ok((kept, count)),
        None => Err(KeptFault::NotKept),
    }
}

// Whether the converter of each input can go on from what is kept of it.
fn is_resumable(kept: &KeptText) -> bool
    ensures { IsTrue result ↔ IsResumable kept.now }
{
    all_fit(&kept.readings.inputs)
}

// The same, as a test.
fn all_fit(inputs: &[KeptConverter]) -> bool
    ensures { result ≡ list_all fits inputs.now }
{
    inputs.iter().all(|input| fits(input))
}

// How many bytes at the start of a text spell what is kept, if they do.
fn spelled_bytes(alloc: Global, text: &[u8], kept: &KeptText) -> Result<Option<usize>, OutOfMemory>
    ensures { IfOk result (λ found. MatchOption found
        ((rest : List ℕ) → ¬ (text.now ≡ spelled_kept kept.now ++ rest)) (λ count. IsSpelled text.now kept.now count)) }
{
    let mut spelled = Vec::new(alloc);
    encode_kept(kept, &mut spelled)?;
    if text.starts_with(spelled.as_slice()) {
        Ok(Some(spelled.len()))
    } else {
        Ok(None)
    }
}

// What the start of a text spells, if it spells something in range. Other texts may be read as anything.
fn read(alloc: Global, text: &[u8]) -> Result<KeptText, KeptFault>
    ensures range { IfOk result (λ kept. IsInRange kept) }
    ensures only { (kept : BareText) (rest : List ℕ) → IsInRange kept → text.now ≡ spelled_kept kept ++ rest
        → MatchResult result (λ found. found ≡ kept) (λ fault. fault ≡ KeptFault.OutOfMemory) }
{
    let mut reader = Reader::new(text);
    read_kept(alloc, &mut reader)
}

// What is kept of a text.
fn read_kept(alloc: Global, reader: &mut Reader<'_>) -> Result<KeptText, KeptFault>
    ensures { Gives (kept_at reader.old) (λ kept. (kept, reader.new)) result }
{
    let columns = read_header(alloc, reader)?;
    let readings = read_readings(alloc, reader)?;
    Ok(KeptText { columns, readings })
}
