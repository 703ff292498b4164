// The call over a shelf and a sink that never fail.
ghost use Rattle.std.specs.Prelude.{◌≡◌, ◌≤◌, ◌⊎◌, true, Bool, List, ℕ, ℤ, length, Option, Some};
ghost use Rattle.tilt_app.specs.Outcome.{IsOutcome};
ghost use Rattle.tilt_outside.specs.HeldFiles.{content_of, room_of};
ghost use Rattle.tilt_printed.specs.Saving.{SaveValue, outcome_of};
ghost use Rattle.tilt_watch.specs.Watch.{watches};
ghost use Rattle.tilt_cli.specs.Binding.{Binding};
ghost use Rattle.tilt_cli.specs.Command.{command_of, run, texts};

use crate::call::{QUERY, SERIES, WORDS, words_of};
use std::alloc::Global;
use std::process::Abort;
use std::test::Fail;
use tilt_app::{outcome_is_one, tilt};
use tilt_cli::{Command, read_words};
use tilt_outside::{MemShelf, MemSink, Sink, SureShelf, SureSink};
use tilt_watch::Watcher;

// If both have room for all that the arguments and the files give, the call is done, it is rejected, or there is no memory.
fn sure<E: Sink>(
    alloc: Global,
    words: &[String],
    shelf: &mut SureShelf,
    out: &mut SureSink,
    err: &mut E,
    watchers: &mut Vec<Box<dyn Watcher>>,
) -> u8
    requires room { (text : List ℕ) (save : Option SaveValue)
        → IsOutcome (texts words.now) (content_of shelf.old.files) (watches pair step ends watchers.old.items) (outcome_of text save)
        → length text ≤ out.old.room }
    requires saves { (text : List ℕ) (save : SaveValue)
        → IsOutcome (texts words.now) (content_of shelf.old.files) (watches pair step ends watchers.old.items) (outcome_of text (Some save))
        → length save.bytes ≤ room_of shelf.old.files save.name }
    requires lines { (n : ℕ) → E.takes err.old n }
    ensures { (result ≡ 0) ⊎ ((result ≡ 1) ⊎ ((result ≡ 2) ⊎ (result ≡ 5))) }
{
    tilt(alloc, words, shelf, out, err, watchers)
}

// Whether the command is `run`, which saves nothing.
fn runs(command: &Command) -> bool
    ensures { result ≡ true → (query : List ℕ) × (binds : List Binding) × (plain : Bool) × (cuts : List ℤ)
        × (command_of command.now ≡ run query binds plain cuts) }
{
    matches!(command, Command::Run { .. })
}

// For arguments that are `run`, if it is done over a shelf and a sink that may fail. The result is what a sink got that has room for
// exactly that text, over a shelf that holds the same and never fails. Returns `None` if a call isn't done.
fn run_again(alloc: Global, words: &[String]) -> Result<Option<SureSink>, Fail> {
    let command = read_words(alloc, words)?;
    if !runs(&command) {
        return Ok(None);
    }
    let mut shelf = MemShelf::new(alloc);
    shelf.hold("q", QUERY, 0)?;
    shelf.hold("s", SERIES, 0)?;
    let mut out = MemSink::new(alloc, 1000)?;
    let mut err = MemSink::new(alloc, 0)?;
    if tilt(
        alloc,
        words,
        &mut shelf,
        &mut out,
        &mut err,
        &mut Vec::new(alloc),
    ) != 0
    {
        return Ok(None);
    }
    outcome_is_one();
    let mut files = SureShelf::new(alloc);
    files.hold("q", QUERY, 0)?;
    files.hold("s", SERIES, 0)?;
    let mut text = SureSink::new(alloc, out.written().len())?;
    if sure(
        alloc,
        words,
        &mut files,
        &mut text,
        &mut err,
        &mut Vec::new(alloc),
    ) != 0
    {
        return Ok(None);
    }
    Ok(Some(text))
}

#[test]
fn a_run_fits_a_sink_with_room_for_its_text(rt: HostRuntime) -> Result<(), Fail> {
    let words = words_of(rt.alloc(), WORDS)?;
    match run_again(rt.alloc(), &words)? {
        Some(text) => {
            assert_eq!(rt; text.written(), SERIES);
            assert_eq!(rt; text.room(), 0);
        }
        None => assert!(rt; false, "a call isn't done"),
    }
    Ok(())
}
