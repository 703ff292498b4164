// A law of the meaning.
ghost use Rattle.std.specs.Prelude.{List, ℕ};
ghost use Rattle.tilt_stream.specs.Snap.{Snapshot};
ghost use Rattle.tilt_stream.specs.Agreement.{ChangesOnlyAtMarks};
ghost use Rattle.tilt_core.specs.Core.{CoreParts, IsCore};
ghost use Rattle.tilt_core.specs.CoreTree.{Definition};
ghost use Rattle.tilt_core.specs.Meaning.{AreGrids, meaning};

/// This does nothing. Its clauses are the law that a source changes only at marks: if it has no mark at a tick, its
/// cell there is the cell of the tick before. It holds for each source of each accepted core, whatever the rows are, and of
/// any other definitions whose grids are grids.
pub fn changes_only_at_marks()
    ensures core { (core : CoreParts) (inputs : List (List Snapshot)) (source : ℕ) → IsCore core
        → ChangesOnlyAtMarks (meaning inputs core.defs source) }
    ensures definitions { (defs : List Definition) (inputs : List (List Snapshot)) (source : ℕ) → AreGrids defs
        → ChangesOnlyAtMarks (meaning inputs defs source) }
{}
