// The parts of a query's output domain.
ghost use Rattle.std.specs.Prelude.{◌≡◌, ◌≢◌, ◌<◌, ◌++◌, ◌∷◌, [], ◌↔◌, false, true, length, min, slice_get, take, List, ℕ, ℤ, Some};
ghost use Rattle.std.specs.Prelude.{IfOk, IsErr, IsOk, MatchOption, MatchResult, OnOk, OnErr, IfSome};
ghost use Rattle.std.specs.List.{AllByRecursion, list_all};
ghost use Rattle.std.specs.Option.{ForSome};
ghost use Rattle.tilt_compiler.specs.Accepted.{AcceptedParts};
ghost use Rattle.tilt_core.specs.Core.{domain_of};
ghost use Rattle.tilt_core.specs.Meaning.{output_of};
ghost use Rattle.tilt_parts.specs.Part.{PartValue, is_finished};
ghost use Rattle.tilt_parts.specs.Parts.{AreInside, AreParts, all_on, joined_after, times};
ghost use Rattle.tilt_stream.specs.Snap.{Snapshot};

use crate::joined::joined;
use crate::part::Part;
use std::alloc::{AllocError as OutOfMemory, Global};
use std::marker::Model;
use tilt_base::Span;
use tilt_compiler::Accepted;
use tilt_pipe::Input;
use tilt_stream::SnapList;

/// The parts of a query's output domain, by their numbers from 0. The first begins where the domain does, each later one a tick before
/// its cut, and the last ends where the domain does. Each has a pipe of its own, and all of them share the rows of the inputs.
#[derive(Drop)]
pub struct Parts {
    alloc: Global,
    parts: Vec<Part>,
}

impl Model for Parts {
    ghost use Rattle.std.specs.Prelude.{List, ℕ, ℤ};
    ghost use Rattle.tilt_compiler.specs.Accepted.{AcceptedParts};
    ghost use Rattle.tilt_parts.specs.Part.{PartValue};
    ghost use Rattle.tilt_parts.specs.Parts.{AreParts};
    ghost use Rattle.tilt_stream.specs.Snap.{Snapshot};

    ghost Value = { List PartValue };

    ghost view = { λ p. p.parts.items };

    ghost invariant = { λ p. (query : AcceptedParts) × (rows : List (List Snapshot)) × (cuts : List ℤ) × (steps : List ℕ)
        × AreParts query rows cuts steps p.parts.items };
}

impl Parts {
    /// The parts that cuts make of the output domain, in ticks: they rise, and each lies inside the domain. The inputs are the query's, in
    /// its order, and none of their rows is copied. No snapshot was taken from any part.
    pub fn new(
        alloc: Global,
        accepted: &Accepted,
        rows: &[Input],
        cuts: &[i64],
    ) -> Result<Parts, OutOfMemory>
        requires many { length rows.now ≡ length accepted.now.core.inputs }
        requires inside { ForSome (domain_of accepted.now.core.defs) (λ domain. AreInside domain.start cuts.now domain.end) }
        ensures parts { IfOk result (λ parts. AreParts accepted.now rows.now cuts.now [] parts) }
        ensures fresh { IfOk result (λ parts. AllByRecursion (λ part. part.refused ≡ false) parts) }
    {
        let domain = accepted.domain();
        let mut parts = Vec::new(alloc);
        let mut start = domain.start;
        for cut in cuts {
            parts.push(Part::new(alloc, accepted, rows, Span { start, end: *cut })?)?;
            start = *cut - 1;
        }
        let last = Span {
            start,
            end: domain.end,
        };
        parts.push(Part::new(alloc, accepted, rows, last)?)?;
        Ok(Parts { alloc, parts })
    }

    /// Takes the next snapshot of a part, or changes nothing if all of them were taken. If memory runs out, each later step of this part
    /// returns `OutOfMemory`, and the other parts are as before.
    pub fn step(&mut self, part: usize) -> Result<(), OutOfMemory>
        requires { part < length self.old }
        ensures after { (query : AcceptedParts) (rows : List (List Snapshot)) (cuts : List ℤ) (steps : List ℕ)
            → AreParts query rows cuts steps self.old → AreParts query rows cuts (steps ++ part ∷ []) self.new }
        ensures others { (other : ℕ) → other ≢ part → slice_get self.new other ≡ slice_get self.old other }
        ensures finished { ForSome (slice_get self.old part) (λ old. old.refused ≡ false → is_finished old ≡ true
            → IsOk result × (self.new ≡ self.old)) }
        ensures granted { OnOk result (ForSome (slice_get self.new part) (λ new. new.refused ≡ false)) }
        ensures refused { OnErr result (ForSome (slice_get self.new part) (λ new. new.refused ≡ true)) }
        ensures for_good { ForSome (slice_get self.old part) (λ old. old.refused ≡ true → IsErr result) }
        ensures stretch { ForSome (slice_get self.old part) (λ old. ForSome (slice_get self.new part) (λ new.
            new.stretch ≡ old.stretch)) }
        ensures many { length self.new ≡ length self.old }
    {
        self.parts[part].step()
    }

    /// Takes the steps in their order, each of which names a part. If memory runs out, a prefix of them was taken.
    pub fn follow(&mut self, order: &[u32]) -> Result<(), OutOfMemory>
        requires { AllByRecursion (λ part. part < length self.old) order.now }
        ensures after { (query : AcceptedParts) (rows : List (List Snapshot)) (cuts : List ℤ) (steps : List ℕ)
            → AreParts query rows cuts steps self.old → MatchResult result (λ _. AreParts query rows cuts (steps ++ order.now) self.new)
            (λ _. (count : ℕ) × AreParts query rows cuts (steps ++ take count order.now) self.new) }
        ensures granted { OnOk result (AllByRecursion (λ part. part.refused ≡ false) self.old
            → AllByRecursion (λ part. part.refused ≡ false) self.new) }
        ensures many { length self.new ≡ length self.old }
    {
        for part in order {
            self.step(*part as usize)?;
        }
        Ok(())
    }

    /// Takes all steps that are left, part by part from the first on. After that each part is finished; if memory runs out, some of these
    /// steps were taken.
    pub fn finish(&mut self) -> Result<(), OutOfMemory>
        requires { AllByRecursion (λ part. part.refused ≡ false) self.old }
        ensures after { (query : AcceptedParts) (rows : List (List Snapshot)) (cuts : List ℤ) (steps : List ℕ)
            → AreParts query rows cuts steps self.old
            → (more : List ℕ) × AreParts query rows cuts (steps ++ more) self.new }
        ensures finished { OnOk result (AllByRecursion (λ part. is_finished part ≡ true) self.new) }
        ensures granted { OnOk result (AllByRecursion (λ part. part.refused ≡ false) self.new) }
        ensures many { length self.new ≡ length self.old }
    {
        for part in 0..self.parts.len() {
            self.finish_part(part)?;
        }
        Ok(())
    }

    // Takes all steps that are left of a part.
    fn finish_part(&mut self, part: usize) -> Result<(), OutOfMemory>
        requires within { part < length self.old }
        requires granted { AllByRecursion (λ part. part.refused ≡ false) self.old }
        ensures after { (query : AcceptedParts) (rows : List (List Snapshot)) (cuts : List ℤ) (steps : List ℕ)
            → AreParts query rows cuts steps self.old
            → (more : List ℕ) × AreParts query rows cuts (steps ++ more) self.new }
        ensures finished { OnOk result (ForSome (slice_get self.new part) (λ p. is_finished p ≡ true)) }
        ensures granted { OnOk result (AllByRecursion (λ part. part.refused ≡ false) self.new) }
        ensures others { (other : ℕ) → other ≢ part → slice_get self.new other ≡ slice_get self.old other }
        ensures many { length self.new ≡ length self.old }
    {
        while !self.finished(part) {
            self.step(part)?;
        }
        Ok(())
    }

    /// Whether all snapshots of a part were taken: as many as the query gives on its stretch, as long as memory didn't run out for it. It
    /// takes no memory.
    pub fn finished(&self, part: usize) -> bool
        requires { part < length self.now }
        ensures value { ForSome (slice_get self.now part) (λ p. result ≡ is_finished p) }
        ensures all { (query : AcceptedParts) (rows : List (List Snapshot)) (cuts : List ℤ) (steps : List ℕ)
            → AreParts query rows cuts steps self.now → ForSome (slice_get self.now part) (λ p. p.refused ≡ false
            → (result ≡ true) ↔ (length p.taken ≡ length (all_on query rows p.stretch))) }
        ensures kept { (query : AcceptedParts) × (rows : List (List Snapshot)) × (cuts : List ℤ) × (steps : List ℕ)
            × AreParts query rows cuts steps self.now }
    {
        self.parts[part].is_finished()
    }

    /// How many snapshots of a part were taken: as many as steps named it, but no more than there are, as long as memory didn't run out for
    /// it. It takes no memory.
    pub fn given(&self, part: usize) -> u64
        requires { part < length self.now }
        ensures value { ForSome (slice_get self.now part) (λ p. result ≡ length p.taken) }
        ensures counted { (query : AcceptedParts) (rows : List (List Snapshot)) (cuts : List ℤ) (steps : List ℕ)
            → AreParts query rows cuts steps self.now → ForSome (slice_get self.now part) (λ p. p.refused ≡ false
            → result ≡ min (length (all_on query rows p.stretch)) (times part steps)) }
    {
        self.parts[part].taken.len() as u64
    }

    /// What was taken from all parts, joined at the cuts: `None` exactly if a part isn't finished. No step may have run out of memory.
    pub fn joined(&self) -> Result<Option<SnapList>, OutOfMemory>
        requires granted { AllByRecursion (λ part. part.refused ≡ false) self.now }
        ensures finished { IfOk result (λ found. MatchOption found (AllByRecursion (λ part. is_finished part ≡ true) self.now → ⊥)
            (λ _. AllByRecursion (λ part. is_finished part ≡ true) self.now)) }
        ensures joined { IfOk result (λ found. IfSome found (λ list. list ≡ joined_after [] self.now)) }
        ensures whole { (query : AcceptedParts) (rows : List (List Snapshot)) (cuts : List ℤ) (steps : List ℕ)
            → AreParts query rows cuts steps self.now
            → IfOk result (λ found. IfSome found (λ list. output_of query.core rows ≡ Some list)) }
    {
        let finished = are_finished(&self.parts);
        match self.parts.split_first() {
            Some((first, later)) if finished => Ok(Some(joined(self.alloc, &first.taken, later)?)),
            _ => Ok(None),
        }
    }
}

// Whether each of them is finished.
fn are_finished(parts: &[Part]) -> bool
    ensures { result ≡ list_all is_finished parts.now }
{
    parts.iter().all(|part| part.is_finished())
}
