// A text behind its digest.
ghost use Rattle.std.specs.Prelude.{◌≡◌, Some, None, MatchOption, IfOk};
ghost use Rattle.tilt_store.specs.Seal.{seal_of, sealed, unsealed};

use sha2::{Digest, Sha256};
use std::alloc::{AllocError as OutOfMemory, Global};
use tilt_text::{put, until};

// The text behind the line of its seal.
pub(crate) fn seal(alloc: Global, text: &[u8]) -> Result<Vec<u8>, OutOfMemory>
    ensures { IfOk result (λ bytes. bytes.items ≡ sealed text.now) }
{
    let mut bytes = Vec::new(alloc);
    put(&mut bytes, &seal_of(text))?;
    put(&mut bytes, b"\n")?;
    put(&mut bytes, text)?;
    Ok(bytes)
}

// The text of bytes that start with its seal.
pub(crate) fn unseal(bytes: &[u8]) -> Option<&[u8]>
    ensures { MatchOption result (unsealed bytes.now ≡ None) (λ text. unsealed bytes.now ≡ Some text.now) }
{
    let (line, text) = until(bytes, b'\n')?;
    if line == seal_of(text).as_slice() {
        Some(text)
    } else {
        None
    }
}

// The seal of a text.
fn seal_of(text: &[u8]) -> [u8; 77]
    ensures { result ≡ seal_of text.now }
{
    let mut seal = [0u8; 77];
    seal[..13].copy_from_slice(b"tilt store 1 ");
    // It has room for exactly the digits of a digest.
    let _ = hex::encode_to_slice(Sha256::digest(text), &mut seal[13..]);
    seal
}
