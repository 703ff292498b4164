// How texts become readings.
ghost use Rattle.std.specs.Prelude.{◌<◌};

use std::marker::Model;
use tilt_base::Cell;
use tilt_lexer::Name;
use tilt_readings::{Clock, Unit};
use tilt_zones::{Fold, Zone};

/// A reading of an input, which is counted from 0 in the order of the sources.
#[derive(Clone, Copy, Debug, PartialEq, Eq)]
pub struct InputReading {
    pub input: u32,
    /// The tick that its moment lies in, from `1 - T` to `T`.
    pub tick: i64,
    /// Its value times the scale of the input, or nothing.
    pub value: Cell,
}

/// How moments are written.
#[derive(Clone, Copy, Debug, PartialEq, Eq)]
pub enum Moments {
    /// As dates with a time of day and an offset, as `read_date` reads them.
    Dates,
    /// As numbers of a unit since 1970, as `read_epoch` reads them.
    Numbers { unit: Unit },
}

/// An input: its name, and the scale of its values, which is above 0. A clause sees it as plain data.
#[derive(Debug, Drop)]
pub struct Source {
    pub(crate) name: Name,
    pub(crate) scale: u64,
}

impl Model for Source {
    ghost use Rattle.std.specs.Prelude.{◌<◌};
    ghost use Rattle.tilt_reading_lines.specs.Rules.{SourceValue};

    ghost Value = { SourceValue };

    ghost view = { λ s. record { name = s.name; scale = s.scale } };

    ghost invariant = { λ s. 0 < s.scale };
}

impl Source {
    ghost use Rattle.std.specs.Prelude.{◌≡◌, ◌<◌};

    /// The input with this name. Its values times the scale are whole numbers.
    pub fn new(name: Name, scale: u64) -> Source
        requires { 0 < scale }
        ensures name { result.name ≡ name }
        ensures scale { result.scale ≡ scale }
    {
        Source { name, scale }
    }

    /// Its name.
    pub fn name(&self) -> &Name
        ensures { result.now ≡ self.now.name }
    {
        &self.name
    }

    /// Its scale.
    pub fn scale(&self) -> u64
        ensures scale { result ≡ self.now.scale }
        ensures some { 0 < result }
    {
        self.scale
    }
}

/// How times without an offset are read: as local times of a zone. A clause sees it as plain data.
#[derive(Debug, Drop)]
pub struct LocalRules {
    pub(crate) zone: Zone,
    pub(crate) fold: Option<Fold>,
    pub(crate) name: Vec<u8>,
}

impl Model for LocalRules {
    ghost use Rattle.tilt_reading_lines.specs.Rules.{LocalValue};

    ghost Value = { LocalValue };

    ghost view = { λ l. record { zone = l.zone; fold = l.fold; name = l.name.items } };
}

impl LocalRules {
    ghost use Rattle.std.specs.Prelude.{◌≡◌};

    /// The rules for local times of a zone, which has this name. The fold says which moment a local time means that clocks skip or show
    /// twice; without one such a time is bad.
    pub fn new(zone: Zone, fold: Option<Fold>, name: Vec<u8>) -> LocalRules
        ensures zone { result.zone ≡ zone }
        ensures fold { result.fold ≡ fold }
        ensures name { result.name ≡ name.items }
    {
        LocalRules { zone, fold, name }
    }

    /// Which moment a local time means that clocks skip or show twice.
    pub fn fold(&self) -> Option<Fold>
        ensures { result ≡ self.now.fold }
    {
        self.fold
    }

    /// The name of the zone.
    pub fn name(&self) -> &[u8]
        ensures { result.now ≡ self.now.name }
    {
        &self.name
    }
}

/// How the texts of a line become readings. A clause sees it as plain data.
#[derive(Debug, Drop)]
pub struct Rules {
    pub(crate) moments: Moments,
    pub(crate) local: Option<LocalRules>,
    pub(crate) clock: Clock,
    pub(crate) mark: u8,
    pub(crate) nulls: Vec<Vec<u8>>,
    pub(crate) skips_empty: bool,
}

impl Model for Rules {
    ghost use Rattle.std.specs.Prelude.{◌<◌, map};
    ghost use Rattle.tilt_reading_lines.specs.Rules.{RulesValue};

    ghost Value = { RulesValue };

    ghost view = { λ r. record {
      moments = r.moments;
      local = r.local;
      clock = r.clock;
      mark = r.mark;
      nulls = map (λ text. text.items) r.nulls.items;
      skips_empty = r.skips_empty;
    } };

    ghost invariant = { λ r. 0 < r.clock.length };
}

impl Rules {
    ghost use Rattle.std.specs.Prelude.{◌≡◌, ◌<◌, map};

    /// The rules for moments that are written in this form, by this clock. Dates without an offset are local times, if there are rules for
    /// them. A decimal has this mark before its fraction. Each of the null texts means that there is no value, as an empty text does. If
    /// empty ones are skipped, then a text without a value is no reading; else it is a reading without a value.
    pub fn new(
        moments: Moments,
        local: Option<LocalRules>,
        clock: Clock,
        mark: u8,
        nulls: Vec<Vec<u8>>,
        skips_empty: bool,
    ) -> Rules
        requires { 0 < clock.length }
        ensures moments { result.moments ≡ moments }
        ensures local { result.local ≡ local }
        ensures clock { result.clock ≡ clock }
        ensures mark { result.mark ≡ mark }
        ensures nulls { result.nulls ≡ map (λ text. text.items) nulls.items }
        ensures empty { result.skips_empty ≡ skips_empty }
    {
        Rules {
            moments,
            local,
            clock,
            mark,
            nulls,
            skips_empty,
        }
    }

    /// How moments are written.
    pub fn moments(&self) -> Moments
        ensures { result ≡ self.now.moments }
    {
        self.moments
    }

    /// How dates without an offset are read, if they are.
    pub fn local(&self) -> &Option<LocalRules>
        ensures { result.now ≡ self.now.local }
    {
        &self.local
    }

    /// How moments become ticks. Its length is above 0.
    pub fn clock(&self) -> Clock
        ensures clock { result ≡ self.now.clock }
        ensures some { 0 < result.length }
    {
        self.clock
    }

    /// The mark before the fraction of a decimal.
    pub fn mark(&self) -> u8
        ensures { result ≡ self.now.mark }
    {
        self.mark
    }

    /// The texts that mean that there is no value, as an empty one does.
    pub fn nulls(&self) -> &[Vec<u8>]
        ensures { map (λ text. text.items) result.now ≡ self.now.nulls }
    {
        &self.nulls
    }

    /// Whether texts without a value are skipped.
    pub fn skips_empty(&self) -> bool
        ensures { result ≡ self.now.skips_empty }
    {
        self.skips_empty
    }
}
