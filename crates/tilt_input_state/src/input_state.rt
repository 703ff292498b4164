// What is known of an input, in memory.
ghost use Rattle.std.specs.Prelude.{◌≡◌, ◌↔◌, neg_ℤ, IfSome, IsSome, IsTrue};
ghost use Rattle.tilt_base.specs.declared.limits.TheConstants.{T};
ghost use Rattle.tilt_feed.specs.Laws.{IsInOrder};
ghost use Rattle.tilt_stream.specs.Snap.{InOrder};

use std::marker::Model;
use tilt_base::T;
use tilt_feed::Edge;
use tilt_stream::{Row, Rows};

/// What is known of an input of a query: closed rows, and the edge after them. They are in order: the last row ends at the start of the
/// open row or below it, and the open row starts below the watermark. A clause sees it as a plain record. Times are ticks.
#[derive(Drop)]
pub struct InputState {
    rows: Rows,
    edge: Edge,
}

impl Model for InputState {
    ghost use Rattle.tilt_feed.specs.Feed.{InputFeed};
    ghost use Rattle.tilt_feed.specs.Laws.{IsInOrder};
    ghost use Rattle.tilt_input_state.specs.Stored.{coded_input};

    ghost Value = { InputFeed };

    ghost coded = { coded_input };

    ghost view = { λ i. record { rows = i.rows; edge = i.edge } };

    ghost invariant = { λ i. IsInOrder (record { rows = i.rows; edge = i.edge }) };
}

impl InputState {
    /// An input with these rows and this edge. `None` comes exactly if they aren't in order.
    pub fn new(rows: Rows, edge: Edge) -> Option<InputState>
        ensures value { IfSome result (λ input. input ≡ record { rows = rows; edge = edge }) }
        ensures exact { IsSome result ↔ IsInOrder (record { rows = rows; edge = edge }) }
    {
        if !is_in_order(&rows, edge) {
            return None;
        }
        Some(InputState { rows, edge })
    }

    /// Its closed rows.
    pub fn rows(&self) -> &[Row]
        ensures rows { result.now ≡ self.now.rows }
        ensures order { IsInOrder self.now }
    {
        self.rows.as_slice()
    }

    /// Where what is known of it ends.
    pub fn edge(&self) -> Edge
        ensures edge { result ≡ self.now.edge }
        ensures order { IsInOrder self.now }
    {
        self.edge
    }
}

// Whether closed rows and the edge after them are in order.
fn is_in_order(rows: &Rows, edge: Edge) -> bool
    ensures { IsTrue result ↔ IsInOrder (record { rows = rows.now; edge = edge }) }
{
    if edge.watermark < -T || T < edge.watermark {
        return false;
    }
    let Some(row) = edge.open_row else {
        return ends_by(rows, edge.watermark);
    };
    if row.start < -T || edge.watermark <= row.start {
        return false;
    }
    ends_by(rows, row.start)
}

// Whether all rows end at a tick or below it.
fn ends_by(rows: &Rows, tick: i64) -> bool
    ensures { IsTrue result ↔ InOrder (neg_ℤ T) tick rows.now }
{
    // Rows are in order by themselves.
    let _ = rows.as_slice();
    match rows.last_end() {
        Some(end) => end <= tick,
        None => true,
    }
}
