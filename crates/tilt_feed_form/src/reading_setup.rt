// How readings are written, and what they mean.
ghost use Rattle.std.specs.Prelude.{◌≡◌, ◌<◌, ◌^◌, length};
ghost use Rattle.tilt_reading_feed.specs.Laws.{HoldTicks};

use std::marker::Model;
use tilt_conventions::Options;
use tilt_reading_text::ReadingForm;

/// How readings are written, and what those of each input mean. There are fewer than 2^32 inputs, and a maximum age is at least one tick.
/// A clause sees it as plain data.
#[derive(Debug, Drop)]
pub struct ReadingSetup {
    form: ReadingForm,
    // What the readings of each input mean, in the order of the sources.
    options: Vec<Options>,
}

impl Model for ReadingSetup {
    ghost use Rattle.tilt_feed_form.specs.Setup.{IsSetup, SetupParts};

    ghost Value = { SetupParts };

    ghost view = { λ s. record { form = s.form; options = s.options.items } };

    ghost invariant = { λ s. IsSetup (record { form = s.form; options = s.options.items }) };
}

impl ReadingSetup {
    /// The setup of a feed whose lines have this form, and the readings of whose inputs mean this, in the order of the sources.
    pub fn new(form: ReadingForm, options: Vec<Options>) -> ReadingSetup
        requires sources { length form.sources < 2 ^ 32 }
        requires few { length options.items < 2 ^ 32 }
        requires ages { HoldTicks options.items }
        ensures form { result.form ≡ form }
        ensures options { result.options ≡ options.items }
    {
        ReadingSetup { form, options }
    }

    /// How the lines are written.
    pub fn form(&self) -> &ReadingForm
        ensures { result.now ≡ self.now.form }
    {
        &self.form
    }

    /// What the readings of each input mean, in the order of the sources.
    pub fn options(&self) -> &[Options]
        ensures { result.now ≡ self.now.options }
    {
        &self.options
    }

    // The form of the lines, and what the readings of each input mean.
    pub(crate) fn into_parts(self) -> (ReadingForm, Vec<Options>)
        ensures form { result.0 ≡ self.form }
        ensures options { result.1.items ≡ self.options }
        ensures sources { length result.0.sources < 2 ^ 32 }
        ensures few { length result.1.items < 2 ^ 32 }
        ensures ages { HoldTicks result.1.items }
    {
        (self.form, self.options)
    }
}
