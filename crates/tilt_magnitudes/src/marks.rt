// The law of marks.
ghost use Rattle.std.specs.Prelude.{◌≡◌, ◌≤◌, ◌<◌, ℕ, ℤ, Bool, List, length};
ghost use Rattle.std.specs.Int.{int_gap};
ghost use Rattle.tilt_base.specs.Grid.{IsGrid};
ghost use Rattle.tilt_core.specs.CoreTree.{Definition};
ghost use Rattle.tilt_core.specs.Meaning.{AreGrids, definition_of, source_of, sources, with_definitions};
ghost use Rattle.tilt_magnitudes.specs.Marks.{HasAtMost, HaveMarks, in_ticks, marks_of_definition, more_marks, snapshots_met};
ghost use Rattle.tilt_magnitudes.specs.Marks.{HaveRates, marks_in};
ghost use Rattle.tilt_magnitudes.specs.declared.met.Rate.{Rate};
ghost use Rattle.tilt_stream.specs.Snap.{Snapshot};
ghost use Rattle.tilt_stream.specs.Stream.{Stream};
ghost use Rattle.tilt_stream.specs.Window.{met};

/// This does nothing. Its clauses are the law of marks. If each source has at most so many marks in so many ticks, they say how many
/// marks definitions have there, and how many snapshots a window meets.
pub fn windows_meet_few_snapshots()
    // In any other number of ticks.
    ensures stretches { (test : ℤ → Bool) (most ticks : ℕ) → HasAtMost most ticks test → 0 < ticks
        → (others : ℕ) → HasAtMost (in_ticks most ticks others) others test }
    ensures definition { (ticks : ℕ) (marks : List ℕ) (xs : List Stream) → HaveMarks ticks marks xs → (def : Definition) → IsGrid def.grid
        → HasAtMost (marks_of_definition ticks marks def) ticks (definition_of xs def).mark }
    ensures query { (ticks : ℕ) (marks : List ℕ) (xs : List Stream) (defs : List Definition) → length marks ≡ length xs → AreGrids defs
        → HaveMarks ticks marks xs → HaveMarks ticks (more_marks ticks marks defs) (with_definitions xs defs) }
    // Rows whose marks are at the rates of their inputs.
    ensures rows { (ticks : ℕ) (rates : List Rate) (rows : List (List Snapshot)) (defs : List Definition) → HaveRates rates rows
        → AreGrids defs → HaveMarks ticks (marks_in rates defs ticks) (sources rows defs) }
    // The snapshots of a source that a window meets.
    ensures window { (lo hi : ℤ) (marks : List ℕ) (xs : List Stream) → HaveMarks (int_gap lo hi) marks xs → (source : ℕ)
        → length (met (source_of xs source) lo hi) ≤ snapshots_met (int_gap lo hi) marks source }
{}
