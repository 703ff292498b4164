// The inputs of a pipeline.
ghost use Rattle.std.specs.Prelude.{◌≡◌, [], ◌∷◌, map, IfOk, OnOk};
ghost use Rattle.std.specs.List.{list_any};
ghost use Rattle.std.specs.Str.{bytes_eq};
ghost use Rattle.tilt_operators.specs.Flow.{step_tree};
ghost use Rattle.tilt_operators.specs.Inputs.{inputs_of, with_name, with_steps};

use crate::flow::Flow;
use crate::step::Step;
use std::alloc::{AllocError as OutOfMemory, Global};
use tilt_lexer::Name;

/// The names of the inputs that the pipeline reads, each once, in the order of their first mention.
pub fn flow_inputs(alloc: Global, flow: &Flow) -> Result<Vec<Name>, OutOfMemory>
    ensures { IfOk result (λ names. names.items ≡ inputs_of flow.now) }
{
    let mut names = Vec::new(alloc);
    let first = flow.first().copy()?;
    names.push(first)?;
    mention_all(&mut names, flow.steps())?;
    Ok(names)
}

// Adds the names that the steps read, unless they are there.
#[tactic(auto, using(crate::proofs::Known::with_steps_cons))]
fn mention_all(names: &mut Vec<Name>, steps: &[Step]) -> Result<(), OutOfMemory>
    ensures { OnOk result (names.new.items ≡ with_steps names.old.items (map step_tree steps.now)) }
{
    for step in steps {
        mention(names, step)?;
    }
    Ok(())
}

// Adds the name that the step reads, unless it is there.
fn mention(names: &mut Vec<Name>, step: &Step) -> Result<(), OutOfMemory>
    ensures { OnOk result (names.new.items ≡ with_steps names.old.items (step_tree step.now ∷ [])) }
{
    match step {
        Step::Join { name, .. } => add(names, name),
        Step::Select(_) | Step::Keep(_) | Step::Shift(_) | Step::Window { .. } => Ok(()),
    }
}

// Adds the name, unless it is there.
fn add(names: &mut Vec<Name>, name: &Name) -> Result<(), OutOfMemory>
    ensures { OnOk result (names.new.items ≡ with_name names.old.items name.now) }
{
    if !has_name(names, name) {
        names.push(name.copy()?)?;
    }
    Ok(())
}

// Whether the name is one of them.
fn has_name(names: &[Name], name: &Name) -> bool
    ensures { result ≡ list_any (λ other. bytes_eq other name.now) names.now }
{
    for other in names {
        if other.bytes() == name.bytes() {
            return true;
        }
    }
    false
}
