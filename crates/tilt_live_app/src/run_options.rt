// The options of the run that a command asks for.
ghost use Rattle.std.specs.Prelude.{◌≡◌, ◌<◌, ◌^◌, ℕ, List, None, Some, IfErr, IfOk, length};
ghost use Rattle.tilt_live_cli.specs.Arguments.{command_value};
ghost use Rattle.tilt_live_app.specs.Asked.{IsMisnamed, NamesInputs, display_for, missing_named, options_asked, setup_for, with_decimals};
ghost use Rattle.tilt_live_app.specs.BeginReport.{begin_report};
ghost use Rattle.tilt_reading_options.specs.Form.{missing_input};

use crate::unbegun::Unbegun;
use std::alloc::Global;
use tilt_feed_form::{FeedForm, ReadingSetup};
use tilt_input_scales::Scales;
use tilt_lexer::Name;
use tilt_live_cli::LiveCommand;
use tilt_live_run::{Display, RunOptions};
use tilt_reading_options::{ReadingChoice, check_names};
use tilt_row_text::{RowStyle, Times};
use tilt_zones::Zone;

// The options of the run that a command asks for, with the table of its zone, on a query with these inputs. Its output has these decimals
// if it is in units. A name in its options that is no input is an error.
pub(crate) fn run_options<'a>(
    alloc: Global,
    command: &LiveCommand<'_>,
    table: &Option<Zone>,
    inputs: &[Name],
    decimals: Option<u8>,
) -> Result<RunOptions, Unbegun<'a>>
    requires { length inputs.now < 2 ^ 32 }
    ensures named { IfOk result (λ _. NamesInputs (command_value command.now) inputs.now) }
    ensures asked { IfOk result (λ options. options ≡ options_asked (command_value command.now) table.now inputs.now decimals) }
    ensures fault { IfErr result (λ why. IsMisnamed (missing_named (command_value command.now).readings
        (command_value command.now).units inputs.now) (begin_report why)) }
{
    let Some(choice) = &command.readings else {
        check_scales(&command.units, inputs)?;
        return Ok(RunOptions {
            display: with_decimals(decimals, command.asked.display),
            strict: command.asked.strict,
            form: FeedForm::Rows {
                options: command.asked.watermarks,
            },
        });
    };
    let setup = make_setup(alloc, choice, table, inputs)?;
    Ok(RunOptions {
        display: with_decimals(
            decimals,
            display_for(choice, command.dated, command.asked.display),
        ),
        strict: command.asked.strict,
        form: FeedForm::Readings { setup },
    })
}

// Fails at the first name of a scale that is no input, if a query of rows is in units.
fn check_scales<'a>(units: &Option<Scales>, inputs: &[Name]) -> Result<(), Unbegun<'a>>
    ensures named { IfOk result (λ _. missing_named None units.now inputs.now ≡ None) }
    ensures fault { IfErr result (λ why. IsMisnamed (missing_named None units.now inputs.now) (begin_report why)) }
{
    let Some(scales) = units else {
        return Ok(());
    };
    check_names(scales.named(), inputs)?;
    Ok(())
}

// The same with the decimals of a query in units, if it is one.
fn with_decimals(decimals: Option<u8>, display: Display) -> Display
    ensures { result ≡ with_decimals decimals display }
{
    let Some(decimals) = decimals else {
        return display;
    };
    Display {
        with_begun: display.with_begun,
        style: RowStyle {
            times: display.style.times,
            decimals,
        },
    }
}

// What is written of a feed of readings, and how, if this is asked for.
fn display_for(choice: &ReadingChoice, dated: bool, display: Display) -> Display
    ensures { result ≡ display_for (Some choice.now) dated display }
{
    let clock = choice.clock();
    Display {
        with_begun: display.with_begun,
        style: RowStyle {
            times: if dated {
                Times::Dates { clock }
            } else {
                Times::Ticks
            },
            decimals: display.style.decimals,
        },
    }
}

// How readings of these inputs are written and what they mean, by a choice and the table of its zone.
fn make_setup<'a>(
    alloc: Global,
    choice: &ReadingChoice,
    table: &Option<Zone>,
    inputs: &[Name],
) -> Result<ReadingSetup, Unbegun<'a>>
    requires { length inputs.now < 2 ^ 32 }
    ensures setup { IfOk result (λ setup. setup ≡ setup_for choice.now table.now inputs.now) }
    ensures named { IfOk result (λ _. missing_input choice.now inputs.now ≡ None) }
    ensures fault { IfErr result (λ why. IsMisnamed (missing_input choice.now inputs.now) (begin_report why)) }
{
    let (form, options) = choice.form(alloc, table, inputs)?;
    Ok(ReadingSetup::new(form, options))
}
