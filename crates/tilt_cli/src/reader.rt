// The arguments of a command line as a command.
ghost use Rattle.std.specs.Prelude.{◌≡◌, ◌↔◌, ◌∷◌, ℕ, codes, IfErr, IfOk, IsErr, IsTrue, MatchOption, MatchResult};
ghost use Rattle.tilt_cli.specs.Arguments.{AreArguments, ArgumentsValue, arguments_of, no_arguments};
ghost use Rattle.tilt_cli.specs.Command.{CommandValue, IsCommand, IsFile, IsFileCommand, IsTry, IsWithin, command_of, texts};
ghost use Rattle.tilt_cli.specs.Tables.{options};

use crate::arguments::Arguments;
use crate::command::Command;
use crate::command_table::find_command;
use crate::fault::WordsFault;
use crate::number::read_up_to;
use crate::option_table::OPTIONS;
use std::alloc::Global;

// The maximum seed and the maximum count of `try`.
const SEED: u32 = 2_147_483_647;

const COUNT: u32 = 1_000_000;

/// The command that the arguments after the program's name are. The first argument names the command, and for each
/// except `try` the second is a file: not empty, and it doesn't start with `--`. After it come binds `NAME=FILE` and
/// the options that the command takes, in any order, each option at most once. `Usage` comes if the arguments are no
/// command.
pub fn read_words(alloc: Global, words: &[String]) -> Result<Command, WordsFault>
    ensures command { IfOk result (λ command. IsCommand (texts words.now) (command_of command)) }
    ensures usage { IfErr result (λ fault. fault ≡ WordsFault.Usage →
        (command : CommandValue) → ¬ (IsCommand (texts words.now) command)) }

    // What the caller of a command may rely on.
    ensures within { IfOk result (λ command. IsWithin (command_of command)) }

    // Arguments are one command at most: no other is returned, and none if they are none.
    ensures one { (command other : CommandValue) → IsCommand (texts words.now) command → IsCommand (texts words.now) other →
        command ≡ other }
    ensures only { (command : CommandValue) → IsCommand (texts words.now) command →
        MatchResult result (λ found. command_of found ≡ command) (λ fault. fault ≡ WordsFault.OutOfMemory) }
    ensures none { ((command : CommandValue) → ¬ (IsCommand (texts words.now) command)) → IsErr result }
{
    let [name, second, rest @ ..] = words else {
        return Err(WordsFault::Usage);
    };
    if name.as_str() == "try" {
        read_try(second.as_str(), rest).ok_or(WordsFault::Usage)
    } else {
        read_call(alloc, name.as_str(), second.as_str(), rest)
    }
}

// `try`, whose first word comes before these: a seed, and after it a count alone.
fn read_try(seed: &str, rest: &[String]) -> Option<Command>
    ensures { let words = codes "try" ∷ seed.now ∷ texts rest.now in MatchOption result
        ((seed count : ℕ) → ¬ (IsTry words seed count))
        (λ command. IsCommand words (command_of command)) }
{
    let [count] = rest else {
        return None;
    };
    let seed = read_up_to(seed, SEED)?;
    let count = read_up_to(count.as_str(), COUNT)?;
    Some(Command::Try { seed, count })
}

// The command with a file that has this first word and this second one.
fn read_call(alloc: Global, name: &str, file: &str, rest: &[String]) -> Result<Command, WordsFault>
    ensures { let words = name.now ∷ file.now ∷ texts rest.now in MatchResult result
        (λ command. IsFileCommand words (command_of command))
        (λ fault. fault ≡ WordsFault.Usage → (command : CommandValue) → ¬ (IsFileCommand words command)) }
{
    if !is_file(file) {
        return Err(WordsFault::Usage);
    }
    let arguments = read_arguments(alloc, rest)?;
    let row = find_command(name, &arguments).ok_or(WordsFault::Usage)?;
    let file = String::from_str(alloc, file)?;
    Command::new(alloc, row.form, file, arguments).ok_or(WordsFault::Usage)
}

// The arguments after the file, by the options of `tilt`.
fn read_arguments(alloc: Global, words: &[String]) -> Result<Arguments, WordsFault>
    ensures { MatchResult result
        (λ arguments. AreArguments options no_arguments (texts words.now) (arguments_of arguments))
        (λ fault. fault ≡ WordsFault.Usage → (new : ArgumentsValue) → ¬ (AreArguments options no_arguments (texts words.now) new)) }
{
    Arguments::read(alloc, &OPTIONS, words)
}

/// Whether the argument can name the file that a program reads first: it isn't empty and doesn't start with `--`.
pub fn is_file(word: &str) -> bool
    ensures { IsTrue result ↔ IsFile word.now }
{
    !word.is_empty() && !word.starts_with("--")
}
