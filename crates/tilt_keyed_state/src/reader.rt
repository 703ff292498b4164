// The state that a text spells.
ghost use Rattle.std.specs.Prelude.{◌≡◌, ◌++◌, ◌∷◌, [], ℕ, List, Option, option_map, IfErr, IfOk, MatchOption, MatchResult, OnOk};
ghost use Rattle.tilt_keyed_state.specs.Faults.{HasFirstLine, SpellsNone};
ghost use Rattle.tilt_keyed_state.specs.Spelling.{first_line, key_text, keys_text, shared_text, spelled};
ghost use Rattle.tilt_keyed_state.specs.State.{KeyStateParts, KeyedStateParts};

use crate::fault::KeyedStateFault;
use crate::part::split_part;
use crate::state::{KeyState, KeyedState};
use std::alloc::{AllocError as OutOfMemory, Global};

/// The state whose spelling a text is. The parts are those of the text and aren't copied. `OtherFormat` occurs exactly if the text doesn't
/// begin with the first line of a state, and `Damaged` exactly if it does and is the spelling of no state.
pub fn read_keyed_state(alloc: Global, text: &[u8]) -> Result<KeyedState<'_>, KeyedStateFault>
    ensures spelled { IfOk result (λ s. text.now ≡ spelled s) }
    ensures none { IfErr result (SpellsNone text.now) }

    // Each state is read back.
    ensures only { (s : KeyedStateParts) → text.now ≡ spelled s → MatchResult result (λ found. found ≡ s)
        (λ fault. fault ≡ KeyedStateFault.OutOfMemory) }
{
    read_text(alloc, text)
}

// The state whose spelling a text is, or why there is none.
fn read_text(alloc: Global, text: &[u8]) -> Result<KeyedState<'_>, KeyedStateFault>
    ensures spelled { IfOk result (λ s. text.now ≡ spelled s) }
    ensures none { IfErr result (SpellsNone text.now) }
{
    match strip_first_line(text) {
        Some(body) => read_body(alloc, body),
        None => Err(KeyedStateFault::OtherFormat),
    }
}

// What comes after the first line.
fn strip_first_line(text: &[u8]) -> Option<&[u8]>
    ensures { MatchOption result (¬ (HasFirstLine text.now)) (λ rest. text.now ≡ first_line ++ rest.now) }
{
    text.strip_prefix(b"tilt keys 1\n".as_slice())
}

// The state that is spelled after the first line.
fn read_body(alloc: Global, bytes: &[u8]) -> Result<KeyedState<'_>, KeyedStateFault>
    ensures spelled { IfOk result (λ s. bytes.now ≡ shared_text s.shared ++ keys_text s.keys) }
    ensures none { IfErr result (λ fault. (fault ≡ KeyedStateFault.OtherFormat → ⊥)
        × (fault ≡ KeyedStateFault.Damaged → (s : KeyedStateParts) → ¬ (bytes.now ≡ shared_text s.shared ++ keys_text s.keys))) }
{
    let Some((shared, rest)) = split_shared(bytes) else {
        return Err(KeyedStateFault::Damaged);
    };
    match read_keys(alloc, rest) {
        Ok(keys) => Ok(KeyedState { shared, keys }),
        Err(fault) => Err(fault),
    }
}

// The last line of every key with which bytes begin, and the bytes after it.
fn split_shared(bytes: &[u8]) -> Option<(Option<&[u8]>, &[u8])>
    ensures { MatchOption result ((shared : Option (List ℕ)) (rest : List ℕ) → ¬ (bytes.now ≡ shared_text shared ++ rest))
        (λ p. bytes.now ≡ shared_text (option_map (λ line. line.now) p.0) ++ p.1.now) }
{
    if let Some(rest) = bytes.strip_prefix(b"none\n".as_slice()) {
        return Some((None, rest));
    }
    let (line, rest) = split_part(bytes)?;
    Some((Some(line), rest))
}

// The keys and their states that bytes spell.
fn read_keys(alloc: Global, bytes: &[u8]) -> Result<Vec<KeyState<'_>>, KeyedStateFault>
    ensures spelled { IfOk result (λ keys. bytes.now ≡ keys_text keys.items) }
    ensures none { IfErr result (λ fault. (fault ≡ KeyedStateFault.OtherFormat → ⊥)
        × (fault ≡ KeyedStateFault.Damaged → (keys : List KeyStateParts) → ¬ (bytes.now ≡ keys_text keys))) }
{
    let mut keys = Vec::new(alloc);
    let mut rest = bytes;
    while let Some((one, after)) = split_key(rest) {
        push_key(&mut keys, one)?;
        rest = after;
    }
    if rest == b"end\n".as_slice() {
        Ok(keys)
    } else {
        Err(KeyedStateFault::Damaged)
    }
}

// The key and its state with which bytes begin, and the bytes after them.
fn split_key(bytes: &[u8]) -> Option<(KeyState<'_>, &[u8])>
    ensures { MatchOption result ((one : KeyStateParts) (rest : List ℕ) → ¬ (bytes.now ≡ key_text one ++ rest))
        (λ p. bytes.now ≡ key_text p.0 ++ p.1.now) }
{
    let (key, rest) = split_part(bytes)?;
    let (state, after) = split_part(rest)?;
    Some((KeyState { key, state }, after))
}

// Adds a key behind the others.
fn push_key<'a>(keys: &mut Vec<KeyState<'a>>, one: KeyState<'a>) -> Result<(), OutOfMemory>
    ensures { OnOk result (keys.new.items ≡ keys.old.items ++ one.entry ∷ []) }
{
    keys.push(one)?;
    Ok(())
}
