// What the options say.
ghost use Rattle.tilt_reading_options.specs.Choice.{choice_said};
ghost use Rattle.tilt_reading_options.specs.Results.{IsChoice};

use crate::conventions::Conventions;
use crate::fault::{ChoiceFault, FormFault};
use crate::form::{check_inputs, copy_titles, make_local, make_options, make_sources, split_nulls};
use crate::parts::{
    copy_nulls, read_conventions, read_marks, read_scales_of, read_tick_rules, read_times,
    read_titles, read_zone_of, skips_empty,
};
use crate::texts::ReadingTexts;
use crate::zone_choice::ZoneChoice;
use std::alloc::Global;
use std::marker::Model;
use tilt_conventions::{Options, Ties};
use tilt_input_scales::Scales;
use tilt_lexer::Name;
use tilt_reading_lines::{Moments, Rules, Titles};
use tilt_reading_text::ReadingForm;
use tilt_readings::Clock;
use tilt_zones::Zone;

/// How readings are written, and what they mean, before the inputs are known. A clause sees it as plain data.
#[derive(Drop)]
pub struct ReadingChoice {
    titles: Titles,
    moments: Moments,
    clock: Clock,
    scales: Scales,
    conventions: Conventions,
    ties: Ties,
    nulls: Option<String>,
    skips_empty: bool,
    delimiter: u8,
    mark: u8,
    zone: Option<ZoneChoice>,
}

impl Model for ReadingChoice {
    ghost use Rattle.std.specs.Prelude.{◌<◌};
    ghost use Rattle.tilt_reading_options.specs.Choice.{nulls_said};
    ghost use Rattle.tilt_reading_options.specs.Texts.{given};
    ghost use Rattle.tilt_reading_lines.specs.Titles.{titles_of};
    ghost use Rattle.tilt_reading_options.specs.Values.{ChoiceValue};

    ghost Value = { ChoiceValue };

    ghost view = { λ c. record {
      titles = titles_of c.titles;
      moments = c.moments;
      clock = c.clock;
      scales = c.scales;
      conventions = c.conventions;
      ties = c.ties;
      nulls = nulls_said (given c.nulls);
      skips_empty = c.skips_empty;
      delimiter = c.delimiter;
      mark = c.mark;
      zone = c.zone;
    } };

    ghost invariant = { λ c. 0 < c.clock.length };
}

/// What the texts of the options say. `Bad` has the first option that is bad or missing, in the order of `ReadingOption`. `OutOfMemory`
/// comes if memory runs out, and for no other reason.
pub fn read_choice(alloc: Global, texts: ReadingTexts) -> Result<ReadingChoice, ChoiceFault>
    ensures { IsChoice result (choice_said texts) }
{
    choose(alloc, &texts)
}

// The same of texts that are kept.
fn choose(alloc: Global, texts: &ReadingTexts) -> Result<ReadingChoice, ChoiceFault>
    ensures { IsChoice result (choice_said texts.now) }
{
    let titles = read_titles(alloc, texts)?;
    let times = read_times(texts)?;
    let scales = read_scales_of(alloc, texts)?;
    let conventions = read_conventions(alloc, texts, times.tick)?;
    let rules = read_tick_rules(texts)?;
    let marks = read_marks(texts)?;
    let zone = read_zone_of(alloc, texts)?;
    let nulls = copy_nulls(alloc, texts)?;
    Ok(ReadingChoice {
        titles,
        moments: times.moments,
        clock: Clock {
            origin: times.origin,
            length: times.tick,
            closed: rules.closed,
        },
        scales,
        conventions,
        ties: rules.ties,
        nulls,
        skips_empty: skips_empty(texts),
        delimiter: marks.delimiter,
        mark: marks.mark,
        zone,
    })
}

impl ReadingChoice {
    ghost use Rattle.std.specs.Prelude.{◌≡◌, ◌<◌, ◌^◌, IfOk, length};
    ghost use Rattle.tilt_reading_feed.specs.Laws.{HoldTicks};
    ghost use Rattle.tilt_reading_options.specs.Form.{form_for, missing_input, options_for};
    ghost use Rattle.tilt_reading_options.specs.Results.{IsMissing};

    /// How moments become ticks.
    pub fn clock(&self) -> Clock
        ensures { result ≡ self.now.clock }
    {
        self.clock
    }

    /// The scales of the inputs.
    pub fn scales(&self) -> &Scales
        ensures { result.now ≡ self.now.scales }
    {
        &self.scales
    }

    /// The zone of local times, if there is one.
    pub fn zone(&self) -> &Option<ZoneChoice>
        ensures { result.now ≡ self.now.zone }
    {
        &self.zone
    }

    /// The form of the lines and the options of each input, for inputs with these names in their order. They are as `ReadingText::new`
    /// takes them. The table says what clocks of the zone show. Without a zone, or without a table, a time without an offset is none.
    /// `NoInput` has the first name in the texts of options that is no input: in the scales, then in the ages, then in the events.
    /// `OutOfMemory` comes if memory runs out, and for no other reason.
    pub fn form(
        &self,
        alloc: Global,
        table: &Option<Zone>,
        inputs: &[Name],
    ) -> Result<(ReadingForm, Vec<Options>), FormFault>
        requires { length inputs.now < 2 ^ 32 }
        ensures missing { IsMissing result (missing_input self.now inputs.now) }
        ensures form { IfOk result (λ made. made.0 ≡ form_for self.now table.now inputs.now) }
        ensures options { IfOk result (λ made. made.1.items ≡ options_for self.now inputs.now) }
        ensures sources { IfOk result (λ made. length made.0.sources < 2 ^ 32) }
        ensures few { IfOk result (λ made. length made.1.items < 2 ^ 32) }
        ensures ages { IfOk result (λ made. HoldTicks made.1.items) }
    {
        check_inputs(&self.scales, &self.conventions, inputs)?;
        let sources = make_sources(alloc, &self.scales, inputs)?;
        let titles = copy_titles(&self.titles)?;
        let nulls = split_nulls(alloc, &self.nulls)?;
        let local = make_local(alloc, &self.zone, table)?;
        let rules = Rules::new(
            self.moments,
            local,
            self.clock,
            self.mark,
            nulls,
            self.skips_empty,
        );
        let options = make_options(alloc, &self.conventions, self.ties, inputs)?;
        let form = ReadingForm {
            delimiter: self.delimiter,
            titles,
            rules,
            sources,
        };
        Ok((form, options))
    }
}
