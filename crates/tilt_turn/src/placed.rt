// The leaves of a body, each with the numbers of its registers.
ghost use Rattle.std.specs.Prelude.{◌≡◌, ◌<◌, ℕ, ℤ, pos, true, [], ◌∷◌, ◌++◌, ◌<ℤ◌, get_or, length, map, Option};
ghost use Rattle.std.specs.Prelude.{IfOk, IfSome, IsTrue, OnOk, ◌↔◌};
ghost use Rattle.std.specs.List.{AllByRecursion};
ghost use Rattle.tilt_code.specs.Body.{leaf_of};
ghost use Rattle.tilt_code.specs.Code.{Block};
ghost use Rattle.tilt_code.specs.declared.instr.Instr.TheVariants.{Const};
ghost use Rattle.tilt_stream.specs.Marks.{NamesNextMark};
ghost use Rattle.tilt_stream.specs.Stream.{stream_of};
ghost use Rattle.tilt_turn.specs.Again.{placed_again};
ghost use Rattle.tilt_turn.specs.Held.{AreAllRead, IsAmong, IsPlaceOf, IsPlacedBy, IsUnread, origin, places_of};
ghost use Rattle.tilt_turn.specs.Picked.{reads, written};
ghost use Rattle.tilt_turn.specs.Ready.{IsMarkTick};
ghost use Rattle.tilt_turn.specs.Stepped.{MayLook};

use crate::buffers::Buffers;
use crate::leaf::Leaf;
use crate::reading::Reading;
use crate::repeat::earlier_equal;
use std::alloc::{AllocError as OutOfMemory, Global};
use tilt_base::Cell;
use tilt_code::Instr;

// A leaf of a body, with the number of its register, and the numbers of the registers of later instructions that read the same. It has its
// next mark as it was seen when the leaf was last looked at: below it the registers stay as they are. That mark is the smallest tick if the
// leaf was never looked at, or must be looked at again.
#[derive(Drop)]
pub(crate) struct Placed {
    pub(crate) place: usize,
    pub(crate) again: Vec<usize>,
    pub(crate) leaf: Leaf,
    pub(crate) next: Option<i64>,
}

impl Placed {
    // Makes the registers those of the grid point of a reading, and gives the next mark above it. Below the mark that is kept the leaf
    // isn't looked at: its registers have its cell already.
    #[inline]
    pub(crate) fn step<S: Buffers>(
        &mut self,
        reading: &Reading<'_, '_, S>,
        registers: &mut [Cell],
        arguments: &mut Vec<Cell>,
    ) -> Result<Option<i64>, OutOfMemory>
        requires room { length registers.old ≡ length reading.now.each.now.body }
        requires may { MayLook (S.lists reading.now.buffers.now) (S.forgotten reading.now.buffers.now) reading.now.each.now.maps
            reading.now.point self.old.leaf }
        requires fit { IsPlacedBy (S.lists reading.now.buffers.now) reading.now.each.now.maps reading.now.each.now.body registers.old
            reading.now.point self.old }
        ensures fit { OnOk result (IsPlacedBy (S.lists reading.now.buffers.now) reading.now.each.now.maps reading.now.each.now.body
            registers.new reading.now.point self.new) }
        ensures same { OnOk result (places_of self.new ≡ places_of self.old) }
        ensures cells { OnOk result (registers.new ≡ written ((leaf_of (map stream_of (S.lists reading.now.buffers.now))
            reading.now.each.now.maps (origin self.old.leaf)).cell reading.now.point) (places_of self.old) registers.old) }
        ensures next { IfOk result (NamesNextMark (leaf_of (map stream_of (S.lists reading.now.buffers.now)) reading.now.each.now.maps
            (origin self.old.leaf)) reading.now.point) }
        ensures bounds { IfOk result (λ next. IfSome next IsMarkTick) }
    {
        if self.lasts_until(reading.point) {
            return Ok(self.next);
        }
        let seen = self.leaf.look(reading, arguments)?;
        registers[self.place] = seen.cell;
        write_all(registers, &self.again, seen.cell);
        self.next = seen.next;
        Ok(seen.next)
    }

    // Whether its next mark lies above a grid point.
    #[inline]
    fn lasts_until(&self, point: i64) -> bool
        ensures { IsTrue result ↔ IfSome self.now.next (λ next. point <ℤ next) }
    {
        match self.next {
            Some(next) => point < next,
            None => true,
        }
    }

    // Makes the leaf be looked at again at the next grid point, whatever next mark was seen before.
    pub(crate) fn look_again(&mut self)
        ensures { self.new ≡ placed_again self.old }
    {
        self.leaf.look_again();
        self.next = Some(i64::MIN);
    }

    // Adds the place of a later instruction that reads the same.
    fn add(&mut self, place: usize) -> Result<(), OutOfMemory>
        ensures unread { OnOk result ((body : Block) → IsUnread body self.old → IsPlaceOf body (origin self.old.leaf) place
            → IsUnread body self.new) }
        ensures places { OnOk result (places_of self.new ≡ places_of self.old ++ place ∷ []) }
    {
        self.again.push(place)?;
        Ok(())
    }
}

// Writes a cell to these registers.
#[inline]
fn write_all(registers: &mut [Cell], places: &[usize], cell: Cell)
    requires { AllByRecursion (λ place. place < length registers.old) places.now }
    ensures { registers.new ≡ written cell places.now registers.old }
{
    for place in places {
        registers[*place] = cell;
    }
}

// The leaves of a body, which have read nothing so far.
pub(crate) fn leaves_of(alloc: Global, body: &[Instr]) -> Result<Vec<Placed>, OutOfMemory>
    ensures all { IfOk result (λ leaves. AreAllRead body.now (map places_of leaves.items)) }
    ensures unread { IfOk result (λ leaves. AllByRecursion (IsUnread body.now) leaves.items) }
{
    let mut leaves = Vec::new(alloc);
    for place in 0..body.len() {
        add_leaf(alloc, body, place, &mut leaves)?;
    }
    Ok(leaves)
}

// Adds the instruction in a place of a body, if it reads a buffer. It is added to a leaf that reads the same, or else as a leaf that has
// read nothing so far.
fn add_leaf(
    alloc: Global,
    body: &[Instr],
    place: usize,
    leaves: &mut Vec<Placed>,
) -> Result<(), OutOfMemory>
    requires place { place < length body.now }
    requires unread { AllByRecursion (IsUnread body.now) leaves.old.items }
    ensures unread { OnOk result (AllByRecursion (IsUnread body.now) leaves.new.items) }
    ensures before { OnOk result ((earlier : ℕ) → IsAmong earlier (map places_of leaves.old.items)
        → IsAmong earlier (map places_of leaves.new.items)) }
    ensures here { OnOk result (reads (get_or body.now place (Const (pos 0))) ≡ true → IsAmong place (map places_of leaves.new.items)) }
{
    let Some(leaf) = Leaf::new(alloc, body[place]) else {
        return Ok(());
    };
    match earlier_equal(body, place, leaves) {
        Some(number) => leaves[number].add(place)?,
        None => leaves.push(Placed {
            place,
            again: Vec::new(alloc),
            leaf,
            next: Some(i64::MIN),
        })?,
    }
    Ok(())
}
