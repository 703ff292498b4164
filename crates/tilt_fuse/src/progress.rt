// The state of a plan so far.
ghost use Rattle.std.specs.Prelude.{◌≡◌, ◌<◌, ◌++◌, [], ◌∷◌, Some, None, OnOk};
ghost use Rattle.tilt_fuse.specs.FusedTree.{fused_tree_of};

use crate::fused::Fused;
use crate::merged::Merged;
use crate::plan_loop::PlanLoop;
use std::alloc::AllocError as OutOfMemory;

/// The sources so far, merged or not, and the loops of those that are definitions with buffers.
#[derive(Drop)]
pub struct Progress {
    pub merged: Vec<Merged>,
    pub loops: Vec<PlanLoop>,
}

impl Progress {
    /// The next definition isn't used.
    pub fn skip(&mut self) -> Result<(), OutOfMemory>
        ensures sources { OnOk result (self.new.merged.items ≡ self.old.merged.items ++ None ∷ []) }
        ensures loops { OnOk result (self.new.loops.items ≡ self.old.loops.items) }
    {
        self.merged.push(Merged { tree: None })?;
        Ok(())
    }

    /// The next definition is merged and has this tree.
    pub fn merge(&mut self, tree: Fused) -> Result<(), OutOfMemory>
        ensures sources { OnOk result (self.new.merged.items ≡ self.old.merged.items ++ Some (fused_tree_of tree) ∷ []) }
        ensures loops { OnOk result (self.new.loops.items ≡ self.old.loops.items) }
    {
        self.merged.push(Merged { tree: Some(tree) })?;
        Ok(())
    }

    /// The next definition, which has this place, has a loop with this tree.
    pub fn add_loop(&mut self, place: usize, tree: Fused) -> Result<(), OutOfMemory>
        requires { place < 256 }
        ensures sources { OnOk result (self.new.merged.items ≡ self.old.merged.items ++ None ∷ []) }
        ensures loops { OnOk result (self.new.loops.items
            ≡ self.old.loops.items ++ record { def = place; body = fused_tree_of tree } ∷ []) }
    {
        self.loops.push(PlanLoop {
            def: place as u32,
            body: tree,
        })?;
        self.merged.push(Merged { tree: None })?;
        Ok(())
    }
}
