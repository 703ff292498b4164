// One part of the output domain.
ghost use Rattle.std.specs.Prelude.{◌≡◌, ◌<◌, false, true, length, suc, IfOk, IsOk, IsErr, OnOk, OnErr};
ghost use Rattle.tilt_code.specs.Run.{run_of};
ghost use Rattle.tilt_core.specs.Core.{domain_of};
ghost use Rattle.tilt_lower.specs.Law.{LiesWithin};
ghost use Rattle.tilt_parts.specs.Part.{IsPart, is_finished, part_after};
ghost use Rattle.tilt_parts.specs.Parts.{all_on, code_on};

use std::alloc::{AllocError as OutOfMemory, Global};
use std::marker::Model;
use tilt_base::Span;
use tilt_compiler::Accepted;
use tilt_pipe::{Input, Pipe, share_inputs};
use tilt_stream::SnapList;

// The part of a stretch: its pipe, the snapshots that were taken from it, and whether memory ran out for it.
#[derive(Drop)]
pub(crate) struct Part {
    stretch: Span,
    pipe: Pipe,
    pub(crate) taken: SnapList,
    refused: bool,
}

impl Model for Part {
    ghost use Rattle.tilt_parts.specs.Part.{PartValue, IsPart, coded_part};

    ghost Value = { PartValue };

    ghost coded = { coded_part };

    ghost view = { λ p. record { stretch = p.stretch; pipe = p.pipe; taken = p.taken; refused = p.refused } };

    ghost invariant = { λ p. IsPart (record { stretch = p.stretch; pipe = p.pipe; taken = p.taken; refused = p.refused }) };
}

impl Part {
    // The part of a stretch within the output domain, from which nothing was taken. Its pipe shares the rows of the inputs.
    pub(crate) fn new(
        alloc: Global,
        accepted: &Accepted,
        rows: &[Input],
        stretch: Span,
    ) -> Result<Part, OutOfMemory>
        requires within { LiesWithin (domain_of accepted.now.core.defs) stretch.start stretch.end }
        requires many { length rows.now ≡ length accepted.now.core.inputs }
        ensures means { IfOk result (λ part. run_of part.pipe.code rows.now ≡ all_on accepted.now rows.now stretch) }
        ensures part { IfOk result (λ part. part ≡ part_after stretch (code_on accepted.now stretch) rows.now 0) }
    {
        let code = accepted.code_on(alloc, stretch.start, stretch.end)?;
        let pipe = Pipe::new(alloc, code, share_inputs(alloc, rows)?)?;
        Ok(Part {
            stretch,
            pipe,
            taken: SnapList::new(alloc),
            refused: false,
        })
    }

    // Takes one more snapshot, or changes nothing if all were taken. If memory runs out, each later call returns `OutOfMemory`.
    pub(crate) fn step(&mut self) -> Result<(), OutOfMemory>
        ensures finished { self.old.refused ≡ false → is_finished self.old ≡ true → IsOk result × (self.new ≡ self.old) }
        ensures one_more { self.old.refused ≡ false → is_finished self.old ≡ false
            → length self.old.taken < length (run_of self.old.pipe.code self.old.pipe.inputs)
            → OnOk result (self.new ≡ part_after self.old.stretch self.old.pipe.code self.old.pipe.inputs (suc (length self.old.taken))) }
        ensures stretch { self.new.stretch ≡ self.old.stretch }
        ensures granted { OnOk result (self.new.refused ≡ false) }
        ensures refused { OnErr result (self.new.refused ≡ true) }
        ensures for_good { self.old.refused ≡ true → IsErr result }
    {
        if self.refused {
            return Err(OutOfMemory);
        }
        if self.is_finished() {
            return Ok(());
        }
        // So it remains set wherever this ends early.
        self.refused = true;
        if let Some(snap) = self.pipe.next()? {
            self.taken.push(snap)?;
        }
        self.refused = false;
        Ok(())
    }

    // Whether all of its snapshots were taken.
    pub(crate) fn is_finished(&self) -> bool
        ensures { result ≡ is_finished self.now }
    {
        match self.taken.as_slice().last() {
            Some(last) => last.end == self.stretch.end,
            None => false,
        }
    }
}
