// What the loops of an engine read.
ghost use Rattle.std.specs.Prelude.{◌≡◌, ◌≤◌, ◌*◌, ◌^◌, ◌++◌, [], get_or, length, map, neg_ℤ, slice_get};
ghost use Rattle.tilt_base.specs.declared.limits.TheConstants.{WIDE};
ghost use Rattle.tilt_engine.specs.Forgetting.{kept_lists};
ghost use Rattle.tilt_engine.specs.Stock.{inlet_list, made_list};
ghost use Rattle.tilt_pipe.specs.Rings.{held};
ghost use Rattle.tilt_engine.specs.Wanted.{IsUnread};
ghost use Rattle.tilt_stream.specs.Snap.{InOrder};

use crate::inlet::Inlet;
use crate::made::Made;
use tilt_stream::{Buffer, Snap};
use tilt_turn::Buffers;

// The inputs, and what each loop has made.
#[derive(Drop)]
pub(crate) struct Stock {
    pub(crate) inputs: Vec<Inlet>,
    pub(crate) loops: Vec<Made>,
}

impl Buffers for Stock {
    ghost use Rattle.tilt_engine.specs.Stock.{inlet_list, made_list};

    ghost lists = { λ s. map inlet_list s.inputs.items ++ map made_list s.loops.items };

    ghost forgotten = { λ _. [] };

    #[inline]
    fn made(&self, buffer: usize) -> usize {
        match self.inputs.get(buffer) {
            Some(input) => Buffer::made(input),
            None => self.loop_made(buffer - self.inputs.len()),
        }
    }

    #[inline]
    fn first_kept(&self, buffer: usize) -> usize {
        let _ = buffer;
        0
    }

    #[inline]
    fn at(&self, buffer: usize, place: usize) -> Option<Snap> {
        match self.inputs.get(buffer) {
            Some(input) => Buffer::at(input, place),
            None => self.loop_at(buffer - self.inputs.len(), place),
        }
    }
}

impl Stock {
    // How many snapshots of a buffer no turn reads, of which the turns read a first tick, or nothing.
    pub(crate) fn count_unread(&self, number: usize, first: Option<i64>) -> usize
        ensures { IsUnread first (get_or (kept_lists self.now.inputs.items self.now.loops.items) number []) result }
    {
        match self.inputs.get(number) {
            Some(input) => input.count_unread(first),
            None => self.loop_unread(number - self.inputs.len(), first),
        }
    }

    // How many closed rows of inputs and settled snapshots of loops are kept.
    pub(crate) fn held(&self) -> u128
        ensures { result ≡ held (kept_lists self.now.inputs.items self.now.loops.items) }
    {
        rows_held(&self.inputs) + made_held(&self.loops)
    }

    // The same of a loop.
    fn loop_unread(&self, place: usize, first: Option<i64>) -> usize
        ensures { IsUnread first (get_or (map (λ m. m.made) self.now.loops.items) place []) result }
    {
        match self.loops.get(place) {
            Some(made) => made.count_unread(first),
            None => 0,
        }
    }

    // How many snapshots a turn reads of a loop.
    #[inline]
    fn loop_made(&self, place: usize) -> usize
        ensures count { result ≡ length (get_or (map made_list self.now.loops.items) place []) }
        ensures in_order { InOrder (neg_ℤ WIDE) WIDE (get_or (map made_list self.now.loops.items) place []) }
    {
        match self.loops.get(place) {
            Some(made) => Buffer::made(made),
            None => 0,
        }
    }

    // The one at a place of these, or none.
    #[inline]
    fn loop_at(&self, place: usize, number: usize) -> Option<Snap>
        ensures snap { result ≡ slice_get (get_or (map made_list self.now.loops.items) place []) number }
        ensures in_order { InOrder (neg_ℤ WIDE) WIDE (get_or (map made_list self.now.loops.items) place []) }
    {
        Buffer::at(self.loops.get(place)?, number)
    }
}

// How many closed rows of inputs are kept.
pub(crate) fn rows_held(inputs: &[Inlet]) -> u128
    ensures value { result ≡ held (map (λ i. i.input.rows) inputs.now) }
    ensures few { result ≤ length inputs.now * 2 ^ 64 }
{
    let mut total = 0;
    for input in inputs {
        total += input.kept() as u128;
    }
    total
}

// How many settled snapshots of loops are kept.
fn made_held(loops: &[Made]) -> u128
    ensures value { result ≡ held (map (λ m. m.made) loops.now) }
    ensures few { result ≤ length loops.now * 2 ^ 64 }
{
    let mut total = 0;
    for made in loops {
        total += made.kept() as u128;
    }
    total
}
