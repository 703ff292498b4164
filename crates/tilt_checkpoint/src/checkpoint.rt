ghost use Rattle.std.specs.Prelude.{◌≡◌};
ghost use Rattle.tilt_checkpoint.specs.Valid.{IsCheckpoint};

use crate::kept::Kept;
use std::marker::Model;
use tilt_syntax::Query;

/// What a session of a query hands on to the next one. It is valid: the query is one that is accepted, and there is one series for each
/// input, each with a cut of its own. The cuts are within the range of times, and if there are inputs the checkpoint's cut is the least of
/// theirs. A start of an open snapshot is there exactly if some of the output is decided at that cut and not all, and it lies in what is
/// decided. Of each series the rows are in order, reach to the first tick that must be kept, and start before the series' cut. The last end
/// is the end of the last row; if no row is kept, it is the end of a row that needn't be kept. A clause sees it as plain data.
#[derive(Drop)]
pub struct Checkpoint {
    query: Query,
    cut: i64,
    open_start: Option<i64>,
    series: Vec<Kept>,
}

impl Model for Checkpoint {
    ghost use Rattle.tilt_checkpoint.specs.Checkpoint.{CheckpointParts};
    ghost use Rattle.tilt_checkpoint.specs.Stored.{coded_checkpoint};
    ghost use Rattle.tilt_checkpoint.specs.Valid.{IsCheckpoint};

    ghost Value = { CheckpointParts };

    ghost coded = { coded_checkpoint };

    ghost view = { λ c. record { query = c.query; cut = c.cut; open_start = c.open_start; series = c.series.items } };

    ghost invariant = { λ c.
        IsCheckpoint (record { query = c.query; cut = c.cut; open_start = c.open_start; series = c.series.items }) };
}

impl Checkpoint {
    /// The checkpoint of these parts.
    pub fn new(query: Query, cut: i64, open_start: Option<i64>, series: Vec<Kept>) -> Checkpoint
        requires { IsCheckpoint (record { query = query; cut = cut; open_start = open_start; series = series.items }) }
        ensures value { result ≡ record { query = query; cut = cut; open_start = open_start; series = series.items } }
        ensures valid { IsCheckpoint result }
    {
        Checkpoint {
            query,
            cut,
            open_start,
            series,
        }
    }

    /// The query.
    pub fn query(&self) -> &Query
        ensures value { result.now ≡ self.now.query }
        ensures valid { IsCheckpoint self.now }
    {
        &self.query
    }

    /// The least cut. The cut of each input is in what is kept of it: the sessions so far were handed the rows of the input that start
    /// before its cut.
    pub fn cut(&self) -> i64
        ensures value { result ≡ self.now.cut }
        ensures valid { IsCheckpoint self.now }
    {
        self.cut
    }

    /// The start of the last snapshot of what is decided, which isn't printed yet, since its end isn't known. It is there exactly if some
    /// of the output is decided and not all.
    pub fn open_start(&self) -> Option<i64>
        ensures value { result ≡ self.now.open_start }
        ensures valid { IsCheckpoint self.now }
    {
        self.open_start
    }

    /// What is kept of each input, in the order of the query.
    pub fn series(&self) -> &[Kept]
        ensures value { result.now ≡ self.now.series }
        ensures valid { IsCheckpoint self.now }
    {
        &self.series
    }

    /// The query and what is kept, for the next checkpoint.
    pub fn into_parts(self) -> (Query, Vec<Kept>)
        ensures query { result.0 ≡ self.query }
        ensures series { result.1.items ≡ self.series }
        ensures valid { IsCheckpoint self }
    {
        (self.query, self.series)
    }
}
