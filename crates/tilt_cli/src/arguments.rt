// The arguments of a command line, by a table of options.
ghost use Rattle.std.specs.Prelude.{◌≡◌, ◌<◌, ◌≤◌, ◌++◌, ◌∷◌, ℕ, List, [], false};
ghost use Rattle.std.specs.Prelude.{length, drop, option_map, string_bytes, IfOk, MatchResult, OnOk};
ghost use Rattle.std.specs.Str.{bytes_eq};
ghost use Rattle.tilt_cli.specs.Arguments.{AreArguments, ArgumentsValue, Begins, arguments_of, no_arguments, with_setting};
ghost use Rattle.tilt_cli.specs.Binding.{IsBinding, binding_spelled};
ghost use Rattle.tilt_cli.specs.Command.{texts};
ghost use Rattle.tilt_cli.specs.Options.{LeavesOthers, cuts_of, is_set, numbers_of, set_to, text_of, ticks_of, times_of, value_of};
ghost use Rattle.tilt_cli.specs.Tables.{option_entries};
ghost use Rattle.tilt_cli.specs.Upto.{upto_of};

use crate::bind::Bind;
use crate::fault::WordsFault;
use crate::option_table::{OptionRow, Shape, find_option};
use crate::setting::{Setting, is_among, place_of};
use crate::upto::Upto;
use crate::value::Value;
use std::alloc::{AllocError, Global};

/// What arguments give: binds, and what options are set to.
#[derive(Drop)]
pub struct Arguments {
    /// The binds, in their order.
    pub binds: Vec<Bind>,
    // Each option at most once.
    pub(crate) settings: Vec<Setting>,
}

impl Arguments {
    /// What all the arguments give: binds `NAME=FILE` and options of the table, in any order, each option at most once. `Usage` comes if
    /// they are something else.
    pub fn read(
        alloc: Global,
        options: &[OptionRow],
        words: &[String],
    ) -> Result<Arguments, WordsFault>
        ensures is { MatchResult result
            (λ arguments. AreArguments (option_entries options.now) no_arguments (texts words.now) (arguments_of arguments))
            (λ fault. fault ≡ WordsFault.Usage → (new : ArgumentsValue)
            → ¬ (AreArguments (option_entries options.now) no_arguments (texts words.now) new)) }

        // Arguments give one thing at most.
        ensures only { IfOk result (λ arguments. (new : ArgumentsValue)
            → AreArguments (option_entries options.now) no_arguments (texts words.now) new → new ≡ arguments_of arguments) }
    {
        let mut arguments = Arguments::none(alloc);
        let mut at = 0;
        while at < words.len() {
            at += arguments.take(alloc, options, &words[at..])?;
        }
        Ok(arguments)
    }

    // What no arguments give.
    fn none(alloc: Global) -> Arguments
        ensures { arguments_of result ≡ no_arguments }
    {
        Arguments {
            binds: Vec::new(alloc),
            settings: Vec::new(alloc),
        }
    }

    // Takes the bind or the option that the arguments start with, and returns how many arguments it has.
    fn take(
        &mut self,
        alloc: Global,
        options: &[OptionRow],
        words: &[String],
    ) -> Result<usize, WordsFault>
        requires { 0 < length words.now }
        ensures { MatchResult result
            (λ count. (0 < count) × (count ≤ length words.now)
            × Begins (option_entries options.now) (arguments_of self.old) (texts words.now) (arguments_of self.new)
            (drop count (texts words.now)))
            (λ fault. fault ≡ WordsFault.Usage → (new : ArgumentsValue) (rest : List (List ℕ)) →
            ¬ (Begins (option_entries options.now) (arguments_of self.old) (texts words.now) new rest)) }
    {
        let word = words[0].as_str();
        let Some(row) = find_option(options, word) else {
            self.take_bind(alloc, word)?;
            return Ok(1);
        };
        if self.has(row.word) {
            return Err(WordsFault::Usage);
        }
        match row.shape {
            Shape::Flag => {
                self.set(row.word, Value::Flag)?;
                Ok(1)
            }
            shape => {
                let spelled = value_after(words)?;
                let value = Value::read(alloc, shape, spelled)?;
                self.set(row.word, value)?;
                Ok(2)
            }
        }
    }

    // Adds the bind that the word is.
    fn take_bind(&mut self, alloc: Global, word: &str) -> Result<(), WordsFault>
        ensures { MatchResult result
            (λ _. IsBinding (binding_spelled word.now) × (arguments_of self.new ≡ let old = arguments_of self.old in
            record old { binds = old.binds ++ binding_spelled word.now ∷ [] }))
            (λ fault. fault ≡ WordsFault.Usage → ¬ (IsBinding (binding_spelled word.now))) }
    {
        let bind = Bind::read(alloc, word)?;
        self.binds.push(bind)?;
        Ok(())
    }

    // Adds an option with its value.
    fn set(&mut self, word: &'static str, value: Value) -> Result<(), AllocError>
        ensures { OnOk result (arguments_of self.new ≡ with_setting (arguments_of self.old) word.now (value_of value)) }
    {
        self.settings.push(Setting { word, value })?;
        Ok(())
    }

    /// Whether the option is set.
    pub fn has(&self, word: &str) -> bool
        ensures { result ≡ is_set word.now (arguments_of self.now).settings }
    {
        is_among(&self.settings, word)
    }

    /// The number of ticks that the option is set to, if it is set to one.
    pub fn ticks_of(&self, word: &str) -> Option<u64>
        ensures { result ≡ ticks_of (set_to word.now (arguments_of self.now).settings) }
    {
        let place = place_of(&self.settings, word)?;
        self.settings[place].value.ticks()
    }

    // Takes out what the option is set to.
    fn remove(&mut self, word: &str) -> Option<Value>
        ensures value { option_map value_of result ≡ set_to word.now (arguments_of self.old).settings }
        ensures binds { self.new.binds ≡ self.old.binds }
        ensures others { LeavesOthers word.now (arguments_of self.old).settings (arguments_of self.new).settings }
    {
        let place = place_of(&self.settings, word)?;
        Some(self.settings.remove(place).value)
    }

    /// Takes out the text that the option is set to, if it is set to one. The other options stay.
    pub fn remove_text(&mut self, word: &str) -> Option<String>
        ensures value { option_map (λ text. string_bytes text) result ≡ text_of (set_to word.now (arguments_of self.old).settings) }
        ensures binds { self.new.binds ≡ self.old.binds }
        ensures others { LeavesOthers word.now (arguments_of self.old).settings (arguments_of self.new).settings }
    {
        self.remove(word)?.into_text()
    }

    // Takes out the cuts that the option is set to.
    pub(crate) fn remove_cuts(&mut self, word: &str) -> Option<Upto>
        ensures value { option_map upto_of result ≡ cuts_of (set_to word.now (arguments_of self.old).settings) }
        ensures binds { self.new.binds ≡ self.old.binds }
        ensures others { LeavesOthers word.now (arguments_of self.old).settings (arguments_of self.new).settings }
    {
        self.remove(word)?.into_cuts()
    }

    // Takes out the times that the option is set to, none if it isn't set.
    pub(crate) fn remove_times(&mut self, alloc: Global, word: &str) -> Vec<i64>
        ensures value { result.items ≡ times_of (set_to word.now (arguments_of self.old).settings) }
        ensures binds { self.new.binds ≡ self.old.binds }
        ensures others { LeavesOthers word.now (arguments_of self.old).settings (arguments_of self.new).settings }
    {
        match self.remove(word) {
            Some(value) => value.into_times(alloc),
            None => Vec::new(alloc),
        }
    }

    // Takes out the numbers that the option is set to, none if it isn't set.
    pub(crate) fn remove_numbers(&mut self, alloc: Global, word: &str) -> Vec<u32>
        ensures value { result.items ≡ numbers_of (set_to word.now (arguments_of self.old).settings) }
        ensures binds { self.new.binds ≡ self.old.binds }
        ensures others { LeavesOthers word.now (arguments_of self.old).settings (arguments_of self.new).settings }
    {
        match self.remove(word) {
            Some(value) => value.into_numbers(alloc),
            None => Vec::new(alloc),
        }
    }
}

// The word after the first, the value of an option.
fn value_after(words: &[String]) -> Result<&str, WordsFault>
    requires { 0 < length words.now }
    ensures { MatchResult result
        (λ value. (2 ≤ length words.now) × (drop 1 (texts words.now) ≡ value.now ∷ drop 2 (texts words.now)))
        (λ fault. (fault ≡ WordsFault.Usage) × (length words.now ≡ 1)) }
{
    match words {
        [_, value, ..] => Ok(value.as_str()),
        _ => Err(WordsFault::Usage),
    }
}
