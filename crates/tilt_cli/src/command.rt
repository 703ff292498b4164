// The command that arguments ask for.
ghost use Rattle.std.specs.Prelude.{◌≡◌, Some, option_map, string_bytes};
ghost use Rattle.tilt_cli.specs.Arguments.{arguments_of};
ghost use Rattle.tilt_cli.specs.Command.{command_of, command_with, is_plain, plain_of};

use crate::arguments::Arguments;
use crate::bind::Bind;
use crate::command_table::Form;
use crate::upto::Upto;
use std::alloc::Global;

/// What the arguments of a command line ask for. The names of files are as the arguments give them, not empty; the names of files that a
/// command reads first don't start with `--`. Times are in ticks and lie in `-T..=T`. If `plain` is true no loops are merged.
#[derive(Debug, Drop)]
pub enum Command {
    /// Run the query on the files that are bound.
    Run {
        query: String,
        binds: Vec<Bind>,
        plain: bool,
        /// The times at which the run is cut into sessions, none below the one before it. Without `--cut` there is none.
        cuts: Vec<i64>,
    },
    /// Print the query's code.
    Compile {
        query: String,
        plain: bool,
    },
    /// Run the code on the files that are bound.
    Exec {
        code: String,
        binds: Vec<Bind>,
    },
    /// Print what the compiler finds out about the query.
    Explain {
        query: String,
    },
    /// Run the query's first session, up to a cut of each input, and save its state.
    Start {
        query: String,
        binds: Vec<Bind>,
        plain: bool,
        upto: Upto,
        save: String,
    },
    /// Go on from a checkpoint up to a cut of each input, and save the state reached.
    ResumeUpto {
        file: String,
        binds: Vec<Bind>,
        plain: bool,
        upto: Upto,
        save: String,
    },
    /// Go on from a checkpoint to the end.
    ResumeEnd {
        file: String,
        binds: Vec<Bind>,
        plain: bool,
    },
    /// Run the query on the files that are bound, and print how many snapshots its loops held at most.
    Pipe {
        query: String,
        binds: Vec<Bind>,
        plain: bool,
    },
    /// Run the query on the files that are bound, show each row to the watchers once its line was written, and print their figures.
    Watch {
        query: String,
        binds: Vec<Bind>,
        plain: bool,
    },
    /// Run the query in parts of its output domain, in an order of steps, and join what they give.
    Parts {
        query: String,
        binds: Vec<Bind>,
        plain: bool,
        /// The times at which the output domain is cut into parts, each above the one before it. There is at least one.
        at: Vec<i64>,
        /// The parts, numbered from 0, from each of which one more snapshot is taken, in this order, before the others are.
        order: Vec<u32>,
    },
    /// Run a pipeline of operators on the files that are bound.
    Flow {
        flow: String,
        binds: Vec<Bind>,
        plain: bool,
    },
    /// Run the query on the files that are bound, correct some of their rows, and print which times each correction reaches.
    Fix {
        query: String,
        binds: Vec<Bind>,
        plain: bool,
        /// The file of the corrections.
        edits: String,
    },
    /// Run a fixed query on rows that are drawn from a seed.
    Try {
        /// At most 2147483647.
        seed: u32,
        /// How many rows each input has, at most 1000000.
        count: u32,
    },
}

impl Command {
    /// Whether no loops of its query are merged.
    pub fn is_plain(&self) -> bool
        ensures { result ≡ is_plain (command_of self.now) }
    {
        match self {
            Command::Run { plain, .. }
            | Command::Compile { plain, .. }
            | Command::Start { plain, .. }
            | Command::ResumeUpto { plain, .. }
            | Command::ResumeEnd { plain, .. }
            | Command::Pipe { plain, .. }
            | Command::Watch { plain, .. }
            | Command::Parts { plain, .. }
            | Command::Flow { plain, .. }
            | Command::Fix { plain, .. } => *plain,
            Command::Exec { .. } | Command::Explain { .. } | Command::Try { .. } => false,
        }
    }

    // The command of this form with this file and these arguments. It is `None` if an option is missing that it must have.
    pub(crate) fn new(
        alloc: Global,
        form: Form,
        file: String,
        arguments: Arguments,
    ) -> Option<Command>
        ensures { option_map command_of result ≡ command_with form (string_bytes file) (arguments_of arguments) }
    {
        let plain = arguments.has("--plain");
        match form {
            Form::Run => Some(run(alloc, file, plain, arguments)),
            Form::Watch => Some(Command::Watch {
                query: file,
                binds: arguments.binds,
                plain,
            }),
            Form::Pipe => Some(Command::Pipe {
                query: file,
                binds: arguments.binds,
                plain,
            }),
            Form::Parts => Some(parts(alloc, file, plain, arguments)),
            Form::Fix => fix(file, plain, arguments),
            Form::Flow => Some(Command::Flow {
                flow: file,
                binds: arguments.binds,
                plain,
            }),
            Form::Compile => Some(Command::Compile { query: file, plain }),
            Form::Exec => Some(Command::Exec {
                code: file,
                binds: arguments.binds,
            }),
            Form::Explain => Some(Command::Explain { query: file }),
            Form::Start => start(file, plain, arguments),
            Form::ResumeUpto => resume_upto(file, plain, arguments),
            Form::ResumeEnd => Some(Command::ResumeEnd {
                file,
                binds: arguments.binds,
                plain,
            }),
        }
    }
}

// `run`, cut by `--cut`.
fn run(alloc: Global, query: String, plain: bool, mut arguments: Arguments) -> Command
    requires { plain ≡ plain_of (arguments_of arguments) }
    ensures { Some (command_of result) ≡ command_with Form.Run (string_bytes query) (arguments_of arguments) }
{
    let cuts = arguments.remove_times(alloc, "--cut");
    Command::Run {
        query,
        binds: arguments.binds,
        plain,
        cuts,
    }
}

// `parts`, cut by `--at` and stepped through by `--order`.
fn parts(alloc: Global, query: String, plain: bool, mut arguments: Arguments) -> Command
    requires { plain ≡ plain_of (arguments_of arguments) }
    ensures { Some (command_of result) ≡ command_with Form.Parts (string_bytes query) (arguments_of arguments) }
{
    let at = arguments.remove_times(alloc, "--at");
    let order = arguments.remove_numbers(alloc, "--order");
    Command::Parts {
        query,
        binds: arguments.binds,
        plain,
        at,
        order,
    }
}

// `fix`, with the corrections in the file of `--edits`.
fn fix(query: String, plain: bool, mut arguments: Arguments) -> Option<Command>
    requires { plain ≡ plain_of (arguments_of arguments) }
    ensures { option_map command_of result ≡ command_with Form.Fix (string_bytes query) (arguments_of arguments) }
{
    let edits = arguments.remove_text("--edits")?;
    Some(Command::Fix {
        query,
        binds: arguments.binds,
        plain,
        edits,
    })
}

// `start`, up to the cuts of `--upto`, saved in the file of `--save`.
fn start(query: String, plain: bool, mut arguments: Arguments) -> Option<Command>
    requires { plain ≡ plain_of (arguments_of arguments) }
    ensures { option_map command_of result ≡ command_with Form.Start (string_bytes query) (arguments_of arguments) }
{
    let upto = arguments.remove_cuts("--upto")?;
    let save = arguments.remove_text("--save")?;
    Some(Command::Start {
        query,
        binds: arguments.binds,
        plain,
        upto,
        save,
    })
}

// `resume`, up to the cuts of `--upto`, saved in the file of `--save`.
fn resume_upto(file: String, plain: bool, mut arguments: Arguments) -> Option<Command>
    requires { plain ≡ plain_of (arguments_of arguments) }
    ensures { option_map command_of result ≡ command_with Form.ResumeUpto (string_bytes file) (arguments_of arguments) }
{
    let upto = arguments.remove_cuts("--upto")?;
    let save = arguments.remove_text("--save")?;
    Some(Command::ResumeUpto {
        file,
        binds: arguments.binds,
        plain,
        upto,
        save,
    })
}
