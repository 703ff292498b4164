// Edits of the rows of a query's inputs, one after another.
ghost use Rattle.std.specs.Prelude.{◌≡◌, ◌⊎◌, ◌++◌, ⊤, [], ◌∷◌, Ok, Err, length, map, IfOk, IfErr, OnOk};
ghost use Rattle.std.specs.List.{AllByRecursion};
ghost use Rattle.tilt_commands.specs.Corrections.{IsCorrected, after_edits};
ghost use Rattle.tilt_edits.specs.Edited.{IsEditOf};
ghost use Rattle.tilt_fix.specs.Reached.{reached};
ghost use Rattle.tilt_edits.specs.declared.fault.FixFault.{FixFault};
ghost use Rattle.tilt_load.specs.Load.{IsLoadFault};
ghost use Rattle.tilt_printed.specs.Text.{whole_text};
ghost use Rattle.tilt_report.specs.Report.{printed, refused, refusal, report_of};

use std::alloc::{AllocError as OutOfMemory, Global};
use tilt_base::Span;
use tilt_compiler::Accepted;
use tilt_edits::{Edit, FixFault};
use tilt_fix::Live;
use tilt_printed::WholeText;
use tilt_report::Fault;
use tilt_stream::Rows;

// The outcome of a query on its rows with edits of them, or the error of the first edit that is rejected.
pub(crate) fn correct<'a>(
    alloc: Global,
    accepted: Accepted,
    rows: Vec<Rows>,
    edits: &[Edit],
) -> Result<WholeText, Fault<'a>>
    requires many { length rows.items ≡ length accepted.core.inputs }
    requires each { AllByRecursion (IsEditOf (length accepted.core.inputs)) edits.now }
    ensures made { IfOk result (λ text. IsCorrected accepted.core accepted.margins rows.items edits.now (printed (whole_text text))) }
    ensures fault { IfErr result (λ fault. IsLoadFault ⊤
        (λ why. IsCorrected accepted.core accepted.margins rows.items edits.now (refused (refusal why))) (λ _. ⊥) 0 0 (report_of fault)) }
{
    let mut live = Live::new(alloc, accepted, rows)?;
    let reached = apply_all(alloc, &mut live, edits)?;
    Ok(WholeText::Corrected {
        list: live.into_output(),
        reached,
    })
}

// Applies the edits in order, and gives the ticks that each of them reached; or the error of the first that is rejected.
fn apply_all(alloc: Global, live: &mut Live, edits: &[Edit]) -> Result<Vec<Option<Span>>, FixFault>
    requires { AllByRecursion (IsEditOf (length live.old.rows)) edits.now }
    ensures rows { IfOk result (λ _. after_edits (Ok live.old.rows) edits.now ≡ Ok live.new.rows) }
    ensures reached { IfOk result (λ known. known.items ≡ map (reached live.old.query) edits.now) }
    ensures query { IfOk result (λ _. live.new.query ≡ live.old.query) }
    ensures refused { IfErr result (λ fault. (fault ≡ FixFault.OutOfMemory) ⊎ (after_edits (Ok live.old.rows) edits.now ≡ Err fault)) }
{
    let mut known = Vec::with_capacity(alloc, edits.len())?;
    for edit in edits {
        let span = live.apply(edit)?;
        keep(&mut known, span)?;
    }
    Ok(known)
}

// Appends the ticks of an edit to the ticks of the earlier ones. Nothing is said of them if memory ran out.
fn keep(known: &mut Vec<Option<Span>>, span: Option<Span>) -> Result<(), OutOfMemory>
    ensures { OnOk result (known.new.items ≡ known.old.items ++ span ∷ []) }
{
    known.push(span)?;
    Ok(())
}
