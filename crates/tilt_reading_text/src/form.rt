use std::marker::Model;
use tilt_reading_lines::{Rules, Source, Titles};

/// How the lines of a feed of readings are written. A clause sees it as plain data.
#[derive(Debug, Drop)]
pub struct ReadingForm {
    /// The byte between the fields of a line.
    pub delimiter: u8,
    /// How its columns are titled.
    pub titles: Titles,
    /// How texts become readings.
    pub rules: Rules,
    /// The inputs, in the order of their numbers.
    pub sources: Vec<Source>,
}

impl Model for ReadingForm {
    ghost use Rattle.tilt_reading_lines.specs.Titles.{titles_of};
    ghost use Rattle.tilt_reading_text.specs.Form.{FormValue};

    ghost Value = { FormValue };

    ghost view = { λ f. record {
      delimiter = f.delimiter;
      titles = titles_of f.titles;
      rules = f.rules;
      sources = f.sources.items;
    } };
}
