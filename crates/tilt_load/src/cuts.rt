// The cut of each input, as the arguments give it.
ghost use Rattle.std.specs.Prelude.{◌≡◌, ◌<◌, ⊤, ℕ, None, Some, IfErr, IfOk, MatchOption, MatchResult, length, map};
ghost use Rattle.tilt_load.specs.InputCuts.{RefusesCuts, cut_named, cuts_by, faulty_cut, names_cut};
ghost use Rattle.tilt_load.specs.Inputs.{faulty_among, name_told};
ghost use Rattle.tilt_load.specs.Load.{IsLoadFault};
ghost use Rattle.tilt_load.specs.declared.names.FaultyName.TheVariants.{Input};
ghost use Rattle.tilt_report.specs.Report.{report_of};
ghost use Rattle.tilt_cli.specs.Upto.{IsUptoWithin, UptoValue, cut_bindings_of, upto_of};

use crate::names::{FaultyName, faulty_name};
use std::alloc::{AllocError as OutOfMemory, Global};
use tilt_checkpoint::Cuts;
use tilt_cli::{CutBind, Upto};
use tilt_lexer::Name;
use tilt_report::{Fault, Refusal};

/// The cuts of a query's inputs, in their order: one for all of them, or a cut for each by its name. If the arguments don't give cuts to
/// exactly the names of the inputs, each once, the error has the faulty name.
pub fn cuts_by<'a>(alloc: Global, upto: &Upto, inputs: &[Name]) -> Result<Cuts, Fault<'a>>
    requires { IsUptoWithin (upto_of upto.now) }
    ensures named { IfOk result (λ _. faulty_cut inputs.now (upto_of upto.now) ≡ None) }
    ensures cuts { IfOk result (λ cuts. cuts ≡ cuts_by (upto_of upto.now) inputs.now) }
    ensures fault { IfErr result (λ fault. IsLoadFault ⊤ (RefusesCuts inputs.now (upto_of upto.now)) (λ _. ⊥) 0 0 (report_of fault)) }
{
    match upto {
        Upto::All(cut) => Ok(Cuts::same(alloc, *cut, inputs.len())?),
        Upto::Each(binds) => {
            check_names(inputs, binds)?;
            let each = cuts_named(alloc, inputs, binds)?;
            Ok(Cuts::of(each))
        }
    }
}

// Rejects cuts unless their names are the inputs, each once.
fn check_names<'a>(inputs: &[Name], binds: &[CutBind]) -> Result<(), Fault<'a>>
    ensures { let upto = UptoValue.each (cut_bindings_of binds.now) in MatchResult result
        (λ _. faulty_cut inputs.now upto ≡ None)
        (λ fault. IsLoadFault ⊤ (RefusesCuts inputs.now upto) (λ _. ⊥) 0 0 (report_of fault)) }
{
    match faulty_cut(inputs, binds) {
        None => Ok(()),
        Some(FaultyName::Given(name)) => {
            let name = name.copy()?;
            Err(Fault::Refused(Refusal::CutNames { name }))
        }
        Some(FaultyName::Input(place)) => {
            let name = inputs[place].copy()?;
            Err(Fault::Refused(Refusal::CutNames { name }))
        }
    }
}

// The first name with a cut that isn't an input's name or has a cut twice, or else the place of the first input without a cut.
fn faulty_cut<'a>(inputs: &[Name], binds: &'a [CutBind]) -> Option<FaultyName<'a>>
    ensures told { let given = names_cut (cut_bindings_of binds.now) in MatchOption result
        (faulty_among inputs.now given ≡ None)
        (λ faulty. faulty_among inputs.now given ≡ Some (name_told inputs.now faulty)) }
    ensures place { (at : ℕ) → result ≡ Some (Input at) → at < length inputs.now }
{
    faulty_name(inputs, binds)
}

// The cut of each input by its name.
fn cuts_named(alloc: Global, inputs: &[Name], binds: &[CutBind]) -> Result<Vec<i64>, OutOfMemory>
    ensures { IfOk result (λ each. each.items ≡ map (cut_named (cut_bindings_of binds.now)) inputs.now) }
{
    let mut each = Vec::new(alloc);
    for input in inputs {
        each.push(cut_named(binds, input))?;
    }
    Ok(each)
}

// The cut of a name; it is 0 if the name has none.
fn cut_named(binds: &[CutBind], name: &Name) -> i64
    ensures { result ≡ cut_named (cut_bindings_of binds.now) name.now }
{
    for bind in binds {
        if bind.name.bytes() == name.bytes() {
            return bind.cut;
        }
    }
    0
}
