// The options of the program, and which of them can be given together.
ghost use Rattle.std.specs.Prelude.{◌≡◌, ℕ, List, MatchResult};
ghost use Rattle.std.specs.List.{list_any};
ghost use Rattle.tilt_cli.specs.Arguments.{AreArguments, ArgumentsValue, arguments_of, no_arguments};
ghost use Rattle.tilt_cli.specs.Command.{texts};
ghost use Rattle.tilt_cli.specs.Options.{is_set};
ghost use Rattle.tilt_cli.specs.declared.fault.WordsFault.TheVariants.{Usage};
ghost use Rattle.tilt_live_cli.specs.LiveOptions.{checks_fit, decimals_fit, folders_fit, forms_fit, keys_fit};
ghost use Rattle.tilt_live_cli.specs.LiveOptions.{live_options, options_fit, units_fit};

use std::alloc::Global;
use tilt_cli::{Arguments, OptionRow, Shape, WordsFault};

// All options, each with what it does.
const LIVE_OPTIONS: [OptionRow; 37] = [
    // prints also what has begun
    OptionRow {
        word: "--begun",
        shape: Shape::Flag,
    },
    // stops at the first bad line
    OptionRow {
        word: "--strict",
        shape: Shape::Flag,
    },
    // leaves out fusion, as for `tilt`; the output is the same
    OptionRow {
        word: "--plain",
        shape: Shape::Flag,
    },
    // takes lines that come out of order by up to `N` ticks
    OptionRow {
        word: "--lateness",
        shape: Shape::Ticks,
    },
    // lets no input be more than `N` ticks behind
    OptionRow {
        word: "--idle",
        shape: Shape::Ticks,
    },
    // rejects a line that starts more than `N` ticks ahead
    OptionRow {
        word: "--ahead",
        shape: Shape::Ticks,
    },
    // reads lines that begin with a key, each with a run of its own
    OptionRow {
        word: "--keys",
        shape: Shape::Flag,
    },
    // stops if there are more than `N` keys
    OptionRow {
        word: "--max-keys",
        shape: Shape::Ticks,
    },
    // goes on from the state in a file
    OptionRow {
        word: "--resume",
        shape: Shape::Text,
    },
    // saves the state when the feed has ended
    OptionRow {
        word: "--save",
        shape: Shape::Text,
    },
    // writes into a folder, exactly once whatever kills it
    OptionRow {
        word: "--folder",
        shape: Shape::Text,
    },
    // commits after every `N` lines
    OptionRow {
        word: "--every",
        shape: Shape::Ticks,
    },
    // reads the feed from its byte `N` on
    OptionRow {
        word: "--from",
        shape: Shape::Ticks,
    },
    // prints how many bytes of the feed are committed
    OptionRow {
        word: "--position",
        shape: Shape::Flag,
    },
    // reads readings, whose times are in this column
    OptionRow {
        word: "--time",
        shape: Shape::Text,
    },
    // finds the name of a reading's input in this column
    OptionRow {
        word: "--name",
        shape: Shape::Text,
    },
    // finds the value in this column
    OptionRow {
        word: "--value",
        shape: Shape::Text,
    },
    // makes ticks so long, such as `1s` or `100ms`
    OptionRow {
        word: "--tick",
        shape: Shape::Text,
    },
    // starts tick 1 at this moment
    OptionRow {
        word: "--origin",
        shape: Shape::Text,
    },
    // reads times as numbers of `s`, `ms`, `us` or `ns` since 1970
    OptionRow {
        word: "--unit",
        shape: Shape::Text,
    },
    // reads times without an offset as local times of this zone, such as `Europe/Berlin`
    OptionRow {
        word: "--zone",
        shape: Shape::Text,
    },
    // takes this moment, `first` or `second`, of a local time that clocks skip or show twice
    OptionRow {
        word: "--fold",
        shape: Shape::Text,
    },
    // multiplies values: by `10`, or by input, as in `a=10,b=100`
    OptionRow {
        word: "--scale",
        shape: Shape::Text,
    },
    // lets each reading hold on its own tick alone
    OptionRow {
        word: "--event",
        shape: Shape::Flag,
    },
    // lets the readings of these inputs do so, such as `price,volume`
    OptionRow {
        word: "--events",
        shape: Shape::Text,
    },
    // lets each reading hold so long at most: `5min`, or by input, `a=5min,b=1h`
    OptionRow {
        word: "--max-age",
        shape: Shape::Text,
    },
    // closes ticks at this end, `left` or `right`: it belongs to the tick
    OptionRow {
        word: "--closed",
        shape: Shape::Text,
    },
    // decides between readings in one tick: `first`, `last`, `spread` or `refuse`
    OptionRow {
        word: "--ties",
        shape: Shape::Text,
    },
    // takes these texts to mean that there is no value
    OptionRow {
        word: "--null",
        shape: Shape::Text,
    },
    // skips texts without a value
    OptionRow {
        word: "--skip-empty",
        shape: Shape::Flag,
    },
    // reads lines with this byte between their fields; `\t` is a tab
    OptionRow {
        word: "--delimiter",
        shape: Shape::Text,
    },
    // reads numbers with this mark before their fraction: `.` or `,`
    OptionRow {
        word: "--decimal",
        shape: Shape::Text,
    },
    // writes times as dates, by the clock of the readings
    OptionRow {
        word: "--times",
        shape: Shape::Flag,
    },
    // writes values with `N` decimals: divided by 10 to the `N`
    OptionRow {
        word: "--decimals",
        shape: Shape::Ticks,
    },
    // reads the query in units: values and literals are decimals
    OptionRow {
        word: "--units",
        shape: Shape::Flag,
    },
    // checks the query and prints its scales and bounds; no feed is read
    OptionRow {
        word: "--check",
        shape: Shape::Flag,
    },
    // says what inputs can have, as in `a=-50:150,b=0:9:1/60`
    OptionRow {
        word: "--bounds",
        shape: Shape::Text,
    },
];

// The options that only a feed of rows has.
const ROW_OPTIONS: [&str; 3] = ["--lateness", "--idle", "--ahead"];

// The options that only a feed of readings has, in addition to the column of its times.
const READING_OPTIONS: [&str; 17] = [
    "--name",
    "--value",
    "--tick",
    "--origin",
    "--unit",
    "--zone",
    "--fold",
    "--event",
    "--events",
    "--max-age",
    "--closed",
    "--ties",
    "--null",
    "--skip-empty",
    "--delimiter",
    "--decimal",
    "--times",
];

// The options that a feed with keys doesn't have.
const KEYLESS_OPTIONS: [&str; 5] = ["--resume", "--save", "--folder", "--time", "--check"];

// The arguments after the file of the query.
pub(crate) fn read_options(alloc: Global, words: &[String]) -> Result<Arguments, WordsFault>
    ensures { MatchResult result
        (λ given. AreArguments live_options no_arguments (texts words.now) (arguments_of given))
        (λ fault. fault ≡ Usage → (given : ArgumentsValue) → ¬ (AreArguments live_options no_arguments (texts words.now) given)) }
{
    Arguments::read(alloc, &LIVE_OPTIONS, words)
}

// Whether options fit together.
pub(crate) fn options_fit(given: &Arguments) -> bool
    ensures { result ≡ options_fit (arguments_of given.now).settings }
{
    folders_fit(given)
        && forms_fit(given)
        && decimals_fit(given)
        && units_fit(given)
        && checks_fit(given)
        && keys_fit(given)
}

// Whether the options of folders and states fit together. With a folder there are no files of states. If its position is asked for, there
// is no plan; and without a folder there is none of this.
fn folders_fit(given: &Arguments) -> bool
    ensures { result ≡ folders_fit (arguments_of given.now).settings }
{
    let position = given.has("--position");
    let planned = given.has("--every") || given.has("--from");
    let stated = given.has("--resume") || given.has("--save");
    if given.has("--folder") {
        !stated && !(position && planned)
    } else {
        !(position || planned)
    }
}

// Whether the options are of one form of feeds: of readings if there is a column of times, and otherwise of rows.
fn forms_fit(given: &Arguments) -> bool
    ensures { result ≡ forms_fit (arguments_of given.now).settings }
{
    if given.has("--time") {
        !is_one_set(given, &ROW_OPTIONS)
    } else {
        !is_one_set(given, &READING_OPTIONS)
    }
}

// Whether values are to have at most 19 decimals.
fn decimals_fit(given: &Arguments) -> bool
    ensures { result ≡ decimals_fit (arguments_of given.now).settings }
{
    match given.ticks_of("--decimals") {
        Some(decimals) => decimals <= 19,
        None => true,
    }
}

// Whether scales are those of readings or of a query in units, whose output has decimals of its own.
fn units_fit(given: &Arguments) -> bool
    ensures { result ≡ units_fit (arguments_of given.now).settings }
{
    if given.has("--units") {
        !given.has("--decimals")
    } else {
        given.has("--time") || !given.has("--scale")
    }
}

// Whether only a query in units is checked, in place of a run, and bounds are those of a query in units.
fn checks_fit(given: &Arguments) -> bool
    ensures { result ≡ checks_fit (arguments_of given.now).settings }
{
    if given.has("--check") {
        given.has("--units") && !given.has("--position")
    } else {
        given.has("--units") || !given.has("--bounds")
    }
}

// Whether a feed with keys has no other options than those that it can have, and a number of keys is that of such a feed.
fn keys_fit(given: &Arguments) -> bool
    ensures { result ≡ keys_fit (arguments_of given.now).settings }
{
    if given.has("--keys") {
        !is_one_set(given, &KEYLESS_OPTIONS)
    } else {
        !given.has("--max-keys")
    }
}

// Whether one of the options is set.
fn is_one_set(given: &Arguments, words: &[&str]) -> bool
    ensures { result ≡ list_any (λ word. is_set word.now (arguments_of given.now).settings) words.now }
{
    words.iter().any(|word| given.has(word))
}
