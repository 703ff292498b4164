// The spelling of a state.
ghost use Rattle.std.specs.Prelude.{◌≡◌, ◌++◌, flat_map, option_map, OnOk};
ghost use Rattle.tilt_keyed_state.specs.Spelling.{key_text, last_line, opening, part_text, shared_text, spelled};

use crate::state::{KeyState, KeyedState};
use std::alloc::AllocError as OutOfMemory;
use tilt_text::{put, put_number};

/// Appends the spelling of a state to a text. If memory runs out, nothing is said of the text.
pub fn encode(text: &mut Vec<u8>, state: &KeyedState<'_>) -> Result<(), OutOfMemory>
    ensures { OnOk result (text.new.items ≡ text.old.items ++ spelled state.now) }
{
    put_shared(text, state.shared)?;
    put_keys(text, &state.keys)?;
    put_end(text)
}

/// Appends what comes before the keys: the first line, and the last line of every key, if there was one.
pub fn put_shared(text: &mut Vec<u8>, shared: Option<&[u8]>) -> Result<(), OutOfMemory>
    ensures { OnOk result (text.new.items ≡ text.old.items ++ opening (option_map (λ line. line.now) shared.entry)) }
{
    put(text, b"tilt keys 1\n")?;
    match shared {
        None => put(text, b"none\n"),
        Some(line) => put_part(text, line),
    }
}

/// Appends a key and its state.
pub fn put_key(text: &mut Vec<u8>, key: &[u8], state: &[u8]) -> Result<(), OutOfMemory>
    ensures { OnOk result (text.new.items ≡ text.old.items ++ key_text (record { key = key.now; state = state.now })) }
{
    put_part(text, key)?;
    put_part(text, state)
}

/// Appends what comes after the keys.
pub fn put_end(text: &mut Vec<u8>) -> Result<(), OutOfMemory>
    ensures { OnOk result (text.new.items ≡ text.old.items ++ last_line) }
{
    put(text, b"end\n")
}

// Appends keys and their states.
fn put_keys(text: &mut Vec<u8>, keys: &[KeyState<'_>]) -> Result<(), OutOfMemory>
    ensures { OnOk result (text.new.items ≡ text.old.items ++ flat_map key_text keys.now) }
{
    for one in keys {
        put_key(text, one.key, one.state)?;
    }
    Ok(())
}

// Appends a part after its length.
fn put_part(text: &mut Vec<u8>, part: &[u8]) -> Result<(), OutOfMemory>
    ensures { OnOk result (text.new.items ≡ text.old.items ++ part_text part.now) }
{
    put_number(text, part.len())?;
    put(text, b"\n")?;
    put(text, part)?;
    put(text, b"\n")
}
