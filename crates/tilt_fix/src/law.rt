// The law of what an edit reaches.
ghost use Rattle.std.specs.Prelude.{◌≡◌, List, length, Ok};
ghost use Rattle.std.specs.List.{AllByRecursion};
ghost use Rattle.tilt_compiler.specs.Accepted.{AcceptedParts, IsAccepted};
ghost use Rattle.tilt_core.specs.Core.{emitted_number};
ghost use Rattle.tilt_core.specs.Meaning.{meaning};
ghost use Rattle.tilt_edits.specs.Edited.{IsEditOf, after_edit};
ghost use Rattle.tilt_fix.specs.Reached.{StaysOutside};
ghost use Rattle.tilt_edits.specs.declared.edit.Edit.{Edit};
ghost use Rattle.tilt_stream.specs.Snap.{AreRows, Snapshot};

/// This does nothing. Its clause is a law of the definitions. At every tick that an edit doesn't reach, inside or outside the output
/// domain, what the query means has the same cell and the same mark as before.
pub fn edits_reach_no_further()
    ensures { (query : AcceptedParts) (rows after : List (List Snapshot)) (edit : Edit) → IsAccepted query
        → length rows ≡ length query.core.inputs → AllByRecursion AreRows rows → IsEditOf (length rows) edit
        → after_edit rows edit ≡ Ok after → StaysOutside query edit (meaning rows query.core.defs (emitted_number query.core))
        (meaning after query.core.defs (emitted_number query.core)) }
{}
