// All steps of a pipeline, read in order up to the first bad one.
ghost use Rattle.std.specs.Prelude.{◌≡◌, ◌≢◌, ◌↔◌, ◌<◌, ◌+◌, ◌++◌, ◌∷◌, [], length, map, IfOk, IfErr, IsTrue, OnOk, vec_len};
ghost use Rattle.tilt_base.specs.declared.span.Span.{Span};
ghost use Rattle.tilt_operators.specs.Flow.{StepTree, step_tree};
ghost use Rattle.tilt_operators.specs.Parts.{IsOfBadStep};
ghost use Rattle.tilt_operators.specs.Steps.{AreFlow, AreSteps, IsFit, IsLast, IsRefused, IsStep};
ghost use Rattle.tilt_operators.specs.declared.fault.FlowFault.{FlowFault};
ghost use Rattle.tilt_syntax.specs.Query.{kinds, statements, AreSound};

use crate::fault::FlowFault;
use crate::one_step::{read_first, read_last, read_step};
use crate::step::Step;
use std::alloc::{AllocError as OutOfMemory, Global};
use tilt_base::Span;
use tilt_lexer::{Name, Token};
use tilt_syntax::first_statement;

// The most steps that a pipeline may have.
const MOST_STEPS: u32 = 100;

// The most tokens that a step may have, its `;` counted.
const MOST_TOKENS: usize = 200;

// The parts of the pipeline that the tokens are, whatever the types of its expressions are: its first input, its steps and its domain.
// Else the fault of its first bad step.
pub(crate) fn read_parts(
    alloc: Global,
    tokens: &[Token],
) -> Result<(Name, Vec<Step>, Span), FlowFault>
    requires { AreSound (kinds tokens.now) }
    ensures read { IfOk result (λ read. AreFlow (statements (kinds tokens.now))
        (record { first = read.0; steps = map step_tree read.1.items; domain = read.2 })) }
    ensures faulty { IfErr result (λ fault. fault ≢ FlowFault.OutOfMemory → IsRefused (kinds tokens.now) fault) }
{
    if tokens.is_empty() {
        return Err(FlowFault::BadStep { step: 1 });
    }
    let (step, rest) = first_statement(tokens);
    let Some(first) = read_first(step)? else {
        return Err(FlowFault::BadStep { step: 1 });
    };
    if rest.is_empty() {
        return Err(FlowFault::BadStep { step: 1 });
    }
    let (steps, domain) = read_later(alloc, rest)?;
    Ok((first, steps, domain))
}

// The steps after the first, which the tokens are, and the domain that the last one gives. Else the fault of the first bad one.
fn read_later(alloc: Global, tokens: &[Token]) -> Result<(Vec<Step>, Span), FlowFault>
    requires sound { AreSound (kinds tokens.now) }
    requires some { 0 < length tokens.now }
    ensures read { IfOk result (λ read. AreSteps 2 (statements (kinds tokens.now)) (map step_tree read.0.items) read.1) }
    ensures faulty { IfErr result (λ fault. fault ≢ FlowFault.OutOfMemory → IsOfBadStep 2 (statements (kinds tokens.now)) fault) }
{
    let mut steps = Vec::new(alloc);
    let (mut last, mut rest) = first_statement(tokens);
    while !rest.is_empty() {
        let number = steps.len() as u32 + 2;
        let step = fit_step(alloc, number, last)?;
        push_step(&mut steps, step)?;
        let (next, behind) = first_statement(rest);
        last = next;
        rest = behind;
    }
    let domain = fit_last(steps.len() as u32 + 2, last)?;
    Ok((steps, domain))
}

// Adds a step.
fn push_step(steps: &mut Vec<Step>, step: Step) -> Result<(), OutOfMemory>
    ensures items { OnOk result (steps.new.items ≡ steps.old.items ++ step ∷ []) }
    ensures len { OnOk result (vec_len steps.new ≡ vec_len steps.old + 1) }
{
    steps.push(step)?;
    Ok(())
}

// The step with that number, which the tokens are and after which there are others.
fn fit_step(alloc: Global, number: u32, tokens: &[Token]) -> Result<Step, FlowFault>
    requires { AreSound (kinds tokens.now) }
    ensures fit { IfOk result (λ s. IsFit number (kinds tokens.now) × IsStep (kinds tokens.now) (step_tree s)) }
    ensures faulty { IfErr result (λ fault. fault ≢ FlowFault.OutOfMemory → (fault ≡ FlowFault.BadStep number)
        × ((s : StepTree) → IsFit number (kinds tokens.now) → ¬ (IsStep (kinds tokens.now) s))) }
{
    if !is_fit(number, tokens) {
        return Err(FlowFault::BadStep { step: number });
    }
    let Some(step) = read_step(alloc, tokens)? else {
        return Err(FlowFault::BadStep { step: number });
    };
    Ok(step)
}

// The domain that the last step gives, which has that number and is the tokens.
fn fit_last(number: u32, tokens: &[Token]) -> Result<Span, FlowFault>
    requires { AreSound (kinds tokens.now) }
    ensures fit { IfOk result (λ domain. IsFit number (kinds tokens.now) × IsLast (kinds tokens.now) domain) }
    ensures faulty { IfErr result (λ fault. (fault ≡ FlowFault.BadStep number)
        × ((domain : Span) → IsFit number (kinds tokens.now) → ¬ (IsLast (kinds tokens.now) domain))) }
{
    if !is_fit(number, tokens) {
        return Err(FlowFault::BadStep { step: number });
    }
    let Some(domain) = read_last(tokens) else {
        return Err(FlowFault::BadStep { step: number });
    };
    Ok(domain)
}

// Whether the step with that number has a place in a pipeline, and few tokens.
fn is_fit(number: u32, tokens: &[Token]) -> bool
    ensures { IsTrue result ↔ IsFit number (kinds tokens.now) }
{
    number <= MOST_STEPS && tokens.len() <= MOST_TOKENS
}
