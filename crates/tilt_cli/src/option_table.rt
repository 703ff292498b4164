// The options of a command line, as a table.
ghost use Rattle.std.specs.Prelude.{◌≡◌, option_map};
ghost use Rattle.tilt_cli.specs.Tables.{option_entries, option_entry, option_found, option_of};

/// What the value of an option is. Times and ticks are whole numbers: digits, with or without a sign before them.
#[derive(Clone, Copy, Debug, PartialEq, Eq)]
pub enum Shape {
    /// There is none: the option is one argument.
    Flag,
    /// A text that isn't empty.
    Text,
    /// One or more times in `-T..=T` with commas between them, none below the one before it.
    Times,
    /// One or more times in `-T..=T` with commas between them, each above the one before it.
    RisingTimes,
    /// One or more 32-bit numbers with commas between them, in any order.
    Numbers,
    /// A cut of all inputs, or a cut of each input.
    Cuts,
    /// A number of ticks, from 0 to `2T`: the largest distance of two times.
    Ticks,
}

/// A row of a table of options. If two rows have the same word, the first counts.
#[derive(Clone, Copy, Debug)]
pub struct OptionRow {
    /// The option as an argument.
    pub word: &'static str,
    /// Its value, the argument after it.
    pub shape: Shape,
}

// All options of `tilt`.
pub(crate) const OPTIONS: [OptionRow; 8] = [
    OptionRow {
        word: "--plain",
        shape: Shape::Flag,
    },
    OptionRow {
        word: "--cut",
        shape: Shape::Times,
    },
    OptionRow {
        word: "--at",
        shape: Shape::RisingTimes,
    },
    OptionRow {
        word: "--order",
        shape: Shape::Numbers,
    },
    OptionRow {
        word: "--edits",
        shape: Shape::Text,
    },
    OptionRow {
        word: "--upto",
        shape: Shape::Cuts,
    },
    OptionRow {
        word: "--save",
        shape: Shape::Text,
    },
    OptionRow {
        word: "--end",
        shape: Shape::Flag,
    },
];

// The option of the table that is this word.
pub(crate) fn find_option(options: &[OptionRow], word: &str) -> Option<OptionRow>
    ensures { option_map option_entry result ≡ option_of (option_entries options.now) word.now }
{
    find_row(options, word)
}

// The first of some rows that has this word.
#[tactic(auto, unfolding(crate::specs::Tables::option_found))]
fn find_row(rows: &[OptionRow], word: &str) -> Option<OptionRow>
    ensures { result ≡ option_found rows.now word.now }
{
    rows.iter().copied().find(|row| row.word == word)
}
