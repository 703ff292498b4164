use crate::kept::Kept;
use std::marker::Model;

// What follows the query in a checkpoint. A clause sees it as plain data.
#[derive(Drop)]
pub(crate) struct Body {
    pub(crate) cut: i64,
    pub(crate) open_start: Option<i64>,
    pub(crate) series: Vec<Kept>,
}

impl Model for Body {
    ghost use Rattle.tilt_checkpoint.specs.Checkpoint.{BodyParts};
    ghost use Rattle.tilt_checkpoint.specs.Stored.{coded_body};

    ghost Value = { BodyParts };

    ghost coded = { coded_body };

    ghost view = { λ b. record { cut = b.cut; open_start = b.open_start; series = b.series.items } };
}
