// The commands that have a file, as a table.
ghost use Rattle.std.specs.Prelude.{◌≡◌, ◌||◌, option_map};
ghost use Rattle.std.specs.List.{list_all, list_any};
ghost use Rattle.std.specs.Str.{bytes_eq};
ghost use Rattle.tilt_cli.specs.Arguments.{arguments_of};
ghost use Rattle.tilt_cli.specs.Legal.{command_found, command_of_table, is_legal, is_listed};
ghost use Rattle.tilt_cli.specs.Options.{is_set};
ghost use Rattle.tilt_cli.specs.Tables.{command_entry};

use crate::arguments::Arguments;

// Which command it is.
#[derive(Clone, Copy, Debug, PartialEq, Eq)]
pub(crate) enum Form {
    Run,
    Watch,
    Pipe,
    Parts,
    Fix,
    Flow,
    Compile,
    Exec,
    Explain,
    Start,
    ResumeUpto,
    ResumeEnd,
}

// A command that has a file.
#[derive(Clone, Copy, Debug)]
pub(crate) struct CommandRow {
    // The first argument.
    pub(crate) word: &'static str,
    pub(crate) form: Form,
    // The options that it must have.
    pub(crate) required: &'static [&'static str],
    // The other options that it can have.
    pub(crate) allowed: &'static [&'static str],
    // Whether it can have binds `NAME=FILE`.
    pub(crate) takes_binds: bool,
}

// All commands that have a file, each with the name of the file and what it prints.
pub(crate) const COMMANDS: [CommandRow; 12] = [
    // QUERY: the output of the query
    CommandRow {
        word: "run",
        form: Form::Run,
        required: &[],
        allowed: &["--plain", "--cut"],
        takes_binds: true,
    },
    // QUERY: the same, and then four lines of figures on it
    CommandRow {
        word: "watch",
        form: Form::Watch,
        required: &[],
        allowed: &["--plain"],
        takes_binds: true,
    },
    // QUERY: the same, and then how many snapshots were held at once
    CommandRow {
        word: "pipe",
        form: Form::Pipe,
        required: &[],
        allowed: &["--plain"],
        takes_binds: true,
    },
    // QUERY: the same, by parts, and then how many snapshots come from each
    CommandRow {
        word: "parts",
        form: Form::Parts,
        required: &["--at"],
        allowed: &["--order", "--plain"],
        takes_binds: true,
    },
    // QUERY: the same for corrected rows, and then which ticks each correction reaches
    CommandRow {
        word: "fix",
        form: Form::Fix,
        required: &["--edits"],
        allowed: &["--plain"],
        takes_binds: true,
    },
    // PIPELINE: the output of a pipeline of operators
    CommandRow {
        word: "flow",
        form: Form::Flow,
        required: &[],
        allowed: &["--plain"],
        takes_binds: true,
    },
    // QUERY: the code of the query
    CommandRow {
        word: "compile",
        form: Form::Compile,
        required: &[],
        allowed: &["--plain"],
        takes_binds: false,
    },
    // CODE: the output of the code
    CommandRow {
        word: "exec",
        form: Form::Exec,
        required: &[],
        allowed: &[],
        takes_binds: true,
    },
    // QUERY: how far the query looks, and which loops it has
    CommandRow {
        word: "explain",
        form: Form::Explain,
        required: &[],
        allowed: &[],
        takes_binds: false,
    },
    // QUERY: the output of a first session
    CommandRow {
        word: "start",
        form: Form::Start,
        required: &["--upto", "--save"],
        allowed: &["--plain"],
        takes_binds: true,
    },
    // CHECKPOINT: the output of the session that follows
    CommandRow {
        word: "resume",
        form: Form::ResumeUpto,
        required: &["--upto", "--save"],
        allowed: &["--plain"],
        takes_binds: true,
    },
    // CHECKPOINT: the output of the last session
    CommandRow {
        word: "resume",
        form: Form::ResumeEnd,
        required: &["--end"],
        allowed: &["--plain"],
        takes_binds: true,
    },
];

// The first command that has this first argument and can have the arguments after the file.
pub(crate) fn find_command(name: &str, arguments: &Arguments) -> Option<CommandRow>
    ensures { option_map command_entry result ≡ command_of_table name.now (arguments_of arguments.now) }
{
    find_row(&COMMANDS, name, arguments)
}

// The same in some rows.
#[tactic(auto, unfolding(crate::specs::Legal::command_found))]
fn find_row(rows: &[CommandRow], name: &str, arguments: &Arguments) -> Option<CommandRow>
    ensures { result ≡ command_found rows.now name.now (arguments_of arguments.now) }
{
    rows.iter()
        .copied()
        .find(|row| row.word == name && row.allows(arguments))
}

impl CommandRow {
    // Whether the command can have these arguments after its file.
    fn allows(&self, arguments: &Arguments) -> bool
        ensures { result ≡ is_legal (command_entry self.now) (arguments_of arguments.now) }
    {
        if !self.has_required(arguments) {
            return false;
        }
        if !self.takes_options(arguments) {
            return false;
        }
        self.takes_binds || arguments.binds.is_empty()
    }

    // Whether all options that it must have are set.
    fn has_required(&self, arguments: &Arguments) -> bool
        ensures { result ≡ list_all (λ option. is_set option.now (arguments_of arguments.now).settings) self.now.required.now }
    {
        self.required.iter().all(|word| arguments.has(word))
    }

    // Whether all options that are set are its own.
    fn takes_options(&self, arguments: &Arguments) -> bool
        ensures { result ≡ list_all (λ setting. (is_listed (command_entry self.now).required setting.word.now
            || is_listed (command_entry self.now).allowed setting.word.now)) arguments.now.settings.items }
    {
        arguments
            .settings
            .iter()
            .all(|setting| self.takes_option(setting.word))
    }

    // Whether the option is one of its own.
    fn takes_option(&self, word: &str) -> bool
        ensures { result ≡ (is_listed (command_entry self.now).required word.now || is_listed (command_entry self.now).allowed word.now) }
    {
        is_listed(self.required, word) || is_listed(self.allowed, word)
    }
}

// Whether the word is one of these.
fn is_listed(words: &[&str], word: &str) -> bool
    ensures { result ≡ list_any (λ other. bytes_eq other.now word.now) words.now }
{
    words.iter().any(|other| *other == word)
}
