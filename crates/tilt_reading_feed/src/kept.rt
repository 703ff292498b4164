// What a feed of readings keeps, as plain data.
use std::marker::Model;
use tilt_conventions::KeptConverter;

/// What is kept of a feed, apart from what its readings mean. With that it is enough to go on from: a clause sees it as plain data.
#[derive(Drop)]
pub struct KeptReadings {
    /// What the converter of each input keeps, in the order of the inputs.
    pub inputs: Vec<KeptConverter>,
    /// Whether the feed is finished.
    pub finished: bool,
}

impl Model for KeptReadings {
    ghost use Rattle.tilt_reading_feed.specs.Kept.{BareKept};

    ghost Value = { BareKept };

    ghost view = { λ k. record { inputs = k.inputs.items; finished = k.finished } };
}
