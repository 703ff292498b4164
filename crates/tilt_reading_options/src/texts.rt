// The texts of the options.
use std::marker::Model;

/// The texts of the options, as they were given, and whether the two without a text were. A clause sees them as plain data.
#[derive(Drop)]
pub struct ReadingTexts {
    /// `--time`: the title of the column of times.
    pub time: String,
    /// `--name`: the title of the column of names.
    pub name: Option<String>,
    /// `--value`: the title of the column of values.
    pub value: Option<String>,
    /// `--tick`: the length of a tick.
    pub tick: Option<String>,
    /// `--origin`: the moment at which the tick 1 starts.
    pub origin: Option<String>,
    /// `--unit`: what a number since 1970 counts.
    pub unit: Option<String>,
    /// `--zone`: the name of the zone whose clocks show times without an offset. It can't be given beside `--unit`.
    pub zone: Option<String>,
    /// `--fold`: which moment a local time means that clocks skip or show twice.
    pub fold: Option<String>,
    /// `--scale`: by what values are multiplied.
    pub scale: Option<String>,
    /// `--event`: whether the readings of all inputs hold on their own tick alone.
    pub event: bool,
    /// `--events`: the inputs whose readings hold on their own tick alone, as in `a,b`. It can't be given beside `--event`.
    pub events: Option<String>,
    /// `--max-age`: for how long a reading holds at most, in whole ticks: one age for all inputs that hold, or one for each name, as in
    /// `a=5s,b=1min`. An event has no age.
    pub max_age: Option<String>,
    /// `--closed`: which end of a tick belongs to it.
    pub closed: Option<String>,
    /// `--ties`: which of several readings in one tick counts.
    pub ties: Option<String>,
    /// `--null`: texts that mean that there is no value.
    pub null: Option<String>,
    /// `--skip-empty`: whether a text without a value is no reading.
    pub skips_empty: bool,
    /// `--delimiter`: the byte between fields.
    pub delimiter: Option<String>,
    /// `--decimal`: the mark before the fraction of a number.
    pub decimal: Option<String>,
}

impl Model for ReadingTexts {
    ghost use Rattle.std.specs.Prelude.{string_bytes};
    ghost use Rattle.tilt_reading_options.specs.Texts.{TextsValue, given};

    ghost Value = { TextsValue };

    ghost view = { λ t. record {
      time = string_bytes t.time;
      name = given t.name;
      value = given t.value;
      tick = given t.tick;
      origin = given t.origin;
      unit = given t.unit;
      zone = given t.zone;
      fold = given t.fold;
      scale = given t.scale;
      event = t.event;
      events = given t.events;
      max_age = given t.max_age;
      closed = given t.closed;
      ties = given t.ties;
      null = given t.null;
      skips_empty = t.skips_empty;
      delimiter = given t.delimiter;
      decimal = given t.decimal;
    } };
}
