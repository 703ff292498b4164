//! The options of a feed of readings: from the texts of a command line to how readings are written and what they mean.
//!
//! What comes in is the texts of the options, as they were given. What goes out is a choice, or the first option that is bad or missing.
//! Of a choice, and of the names of a query's inputs, come the form of the lines and the options of each input.
//!
//! `specs/Choice` says in `choice_said` what the texts say, option by option. `specs/Form` says in `form_for` and `options_for` what the
//! form and the options are: `convention_named` is what the readings of an input mean. A name in an option that is no input is a fault:
//! `missing_input` is the first one. Nothing here reads or writes.
#![tactic(auto)]

mod choice;
mod conventions;
mod duration;
mod fault;
mod form;
mod given;
mod input_convention;
mod named;
mod part_reader;
mod parts;
mod read_holding;
mod read_scales;
mod reading_option;
mod texts;
mod whole;
mod words;
mod zone_choice;

pub use choice::{ReadingChoice, read_choice};
pub use fault::{ChoiceFault, FormFault};
pub use form::check_names;
pub use given::read_input_scales;
pub use part_reader::{PartReader, cut_name, cut_text, take_parts};
pub use reading_option::ReadingOption;
pub use texts::ReadingTexts;
pub use whole::read_whole;
pub use zone_choice::ZoneChoice;
