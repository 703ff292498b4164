// The arguments of the program.
ghost use Rattle.std.specs.Prelude.{◌≡◌, Some, IfOk, MatchResult, codes, option_map, string_bytes};
ghost use Rattle.tilt_cli.specs.Arguments.{arguments_of};
ghost use Rattle.tilt_cli.specs.Command.{texts};
ghost use Rattle.tilt_cli.specs.declared.fault.WordsFault.TheVariants.{Usage};
ghost use Rattle.tilt_live_cli.specs.Arguments.{CommandValue, IsLiveCommand, asked_options, choice_value, chosen, command_value};
ghost use Rattle.tilt_live_cli.specs.Arguments.{display_asked, keys_asked, number_or, task_asked};
ghost use Rattle.tilt_live_cli.specs.Readings.{reading_texts, scale_text, text_at};

use crate::asked::Asked;
use crate::live_options::{options_fit, read_options};
use crate::reading_texts::{read_known, read_readings, read_units, take_reading_texts};
use std::alloc::Global;
use tilt_cli::{Arguments, WordsFault, is_file};
use tilt_exactly_once::Plan;
use tilt_input_scales::Scales;
use tilt_live_run::Display;
use tilt_reading_options::{ReadingChoice, ReadingTexts};
use tilt_row_text::{RowStyle, Times};
use tilt_unit_report::InputBound;
use tilt_watermarks::Options;

/// What the arguments ask for. A clause sees it as bytes by `command_value` of `specs/Arguments`.
#[derive(Drop)]
pub struct LiveCommand<'a> {
    /// The file of the query.
    pub query: &'a str,
    /// Whether no loops are merged.
    pub plain: bool,
    /// Whether times are written as dates.
    pub dated: bool,
    /// What is asked of the run. A feed of readings has no watermarks of its own.
    pub asked: Asked,
    /// How readings are written and what they mean, if its feed has readings.
    pub readings: Option<ReadingChoice>,
    /// The scales of the inputs, if the query is in units.
    pub units: Option<Scales>,
    /// What is known of the inputs, if the query is in units.
    pub bounds: Option<Vec<InputBound>>,
    /// The same, if the query is checked and no feed is read.
    pub check: Option<Vec<InputBound>>,
    /// The file of the state that it goes on from, if it goes on from one.
    pub resume: Option<String>,
    /// The file in which its state is saved, if it is.
    pub save: Option<String>,
    /// The folder into which its feed is served, if it is served into one.
    pub folder: Option<FolderChoice>,
}

impl LiveCommand<'_> {
    ghost use Rattle.std.specs.Prelude.{◌≡◌};

    /// The scales of the inputs, if the query is in units.
    pub fn units(&self) -> &Option<Scales>
        ensures { result.now ≡ self.now.units }
    {
        &self.units
    }
}

/// A folder, and what is done with it.
#[derive(Drop)]
pub struct FolderChoice {
    pub name: String,
    pub task: Task,
}

/// What is done with a folder.
#[derive(Clone, Copy, Debug, PartialEq, Eq)]
pub enum Task {
    /// How many bytes of the feed are committed is printed.
    Position,
    /// The feed is served.
    Serve(Plan),
}

// The texts that options have: those of readings if there are some, otherwise that of scales; the files of states;
// a folder; and bounds.
#[derive(Drop)]
struct Texts {
    readings: Option<ReadingTexts>,
    scale: Option<String>,
    resume: Option<String>,
    save: Option<String>,
    folder: Option<String>,
    bounds: Option<String>,
}

/// The command that the arguments are: the file of the query, and options that fit together. `Usage` comes exactly if they are none.
/// `OutOfMemory` comes if memory runs out, and for no other reason.
pub fn read_command(alloc: Global, words: &[String]) -> Result<LiveCommand<'_>, WordsFault>
    ensures is { MatchResult result
        (λ command. IsLiveCommand (texts words.now) (command_value command))
        (λ fault. fault ≡ Usage → (command : CommandValue) → ¬ (IsLiveCommand (texts words.now) command)) }

    // Arguments are one command at most.
    ensures only { IfOk result (λ command. (other : CommandValue) → IsLiveCommand (texts words.now) other → other ≡ command_value command) }
{
    let Some((first, rest)) = words.split_first() else {
        return Err(WordsFault::Usage);
    };
    let query = first.as_str();
    if !is_file(query) {
        return Err(WordsFault::Usage);
    }
    let mut given = read_options(alloc, rest)?;
    if !given.binds.is_empty() {
        return Err(WordsFault::Usage);
    }
    if !options_fit(&given) {
        return Err(WordsFault::Usage);
    }
    let plain = given.has("--plain");
    let dated = given.has("--times");
    let asked = asked_options(&given);
    let task = task_asked(&given);
    let in_units = given.has("--units");
    let checks = given.has("--check");
    let texts = take_texts(&mut given);
    let units = read_units(alloc, in_units, scale_in(&texts.readings, &texts.scale))?;
    let bounds = read_known(alloc, in_units, &units, &texts.bounds)?;
    let check = read_known(alloc, checks, &units, &texts.bounds)?;
    let readings = read_readings(alloc, texts.readings)?;
    Ok(LiveCommand {
        query,
        plain,
        dated,
        asked,
        readings,
        units,
        bounds,
        check,
        resume: texts.resume,
        save: texts.save,
        folder: choose(texts.folder, task),
    })
}

// What the options ask to be done with a folder.
fn task_asked(given: &Arguments) -> Task
    ensures { result ≡ task_asked (arguments_of given.now).settings }
{
    if given.has("--position") {
        return Task::Position;
    }
    Task::Serve(Plan {
        from: number_or(0, given.ticks_of("--from")),
        every: number_or(1, given.ticks_of("--every")),
    })
}

// A number, or another one if there is none.
fn number_or(other: u64, number: Option<u64>) -> u64
    ensures { result ≡ number_or other number }
{
    number.unwrap_or(other)
}

// The texts of options. These options are taken out.
fn take_texts(given: &mut Arguments) -> Texts
    ensures readings { result.readings ≡ reading_texts (arguments_of given.old).settings }
    ensures scale { scale_text result.readings (option_map (λ text. string_bytes text) result.scale)
        ≡ text_at (codes "--scale") (arguments_of given.old).settings }
    ensures resume { option_map (λ text. string_bytes text) result.resume
        ≡ text_at (codes "--resume") (arguments_of given.old).settings }
    ensures save { option_map (λ text. string_bytes text) result.save
        ≡ text_at (codes "--save") (arguments_of given.old).settings }
    ensures folder { option_map (λ text. string_bytes text) result.folder
        ≡ text_at (codes "--folder") (arguments_of given.old).settings }
    ensures bounds { option_map (λ text. string_bytes text) result.bounds
        ≡ text_at (codes "--bounds") (arguments_of given.old).settings }
{
    let readings = take_reading_texts(given);
    let scale = given.remove_text("--scale");
    let resume = given.remove_text("--resume");
    let save = given.remove_text("--save");
    let folder = given.remove_text("--folder");
    let bounds = given.remove_text("--bounds");
    Texts {
        readings,
        scale,
        resume,
        save,
        folder,
        bounds,
    }
}

// The text of the scales: of the options of readings, if there are some.
fn scale_in<'t>(readings: &'t Option<ReadingTexts>, rows: &'t Option<String>) -> &'t Option<String>
    ensures { option_map (λ text. string_bytes text) result.now
        ≡ scale_text readings.now (option_map (λ text. string_bytes text) rows.now) }
{
    match readings {
        Some(readings) => &readings.scale,
        None => rows,
    }
}

// The folder of that name, if there is one, and what is done with it.
fn choose(name: Option<String>, task: Task) -> Option<FolderChoice>
    ensures { option_map choice_value result ≡ chosen task (option_map (λ text. string_bytes text) name) }
{
    match name {
        None => None,
        Some(name) => Some(FolderChoice { name, task }),
    }
}

// What the options ask to be written, and how.
fn display_asked(given: &Arguments) -> Display
    ensures { result ≡ display_asked (arguments_of given.now).settings }
{
    Display {
        with_begun: given.has("--begun"),
        style: RowStyle {
            times: Times::Ticks,
            decimals: number_or(0, given.ticks_of("--decimals")).min(19) as u8,
        },
    }
}

// What the options ask of a run.
fn asked_options(given: &Arguments) -> Asked
    ensures { result ≡ asked_options (arguments_of given.now).settings }
{
    Asked {
        display: display_asked(given),
        strict: given.has("--strict"),
        watermarks: Options {
            idle: given.ticks_of("--idle"),
            ahead: given.ticks_of("--ahead"),
            lateness: given.ticks_of("--lateness"),
        },
        keys: keys_asked(given.has("--keys"), given.ticks_of("--max-keys")),
    }
}

// How many keys a feed may have at most, if its lines have keys.
fn keys_asked(keyed: bool, most: Option<u64>) -> Option<u64>
    ensures { result ≡ keys_asked keyed most }
{
    if keyed {
        Some(number_or(u64::MAX, most))
    } else {
        None
    }
}
