// Queries over whole numbers, and the quantities of their sources.
ghost use Rattle.std.specs.Prelude.{◌≡◌, ◌<◌, ◌≤◌, ◌+◌, ◌++◌, [], ◌∷◌, IfOk, OnOk, MatchOption, drop, length, map};
ghost use Rattle.tilt_core.specs.CoreTree.{nodes};
ghost use Rattle.tilt_units.specs.DecimalTree.{unit_tree};
ghost use Rattle.tilt_units.specs.Scaling.{Gives};
ghost use Rattle.tilt_units.specs.Translation.{input_quantities, more_definitions, query_of};
ghost use Rattle.tilt_units.specs.Translation.{scaled_definition, translated, unit_definition};

use crate::definition::DecimalDef;
use crate::fault::ScaleFault;
use crate::place::Place;
use crate::quantity::Quantity;
use crate::scale::Scale;
use crate::scaled::scale_expression;
use crate::tree::DecimalTree;
use std::alloc::{AllocError as OutOfMemory, Global};
use tilt_core::Def;

// The most nodes that an expression may have, and the most sources that a query may have.
const MOST: u32 = 256;

/// A query over whole numbers, and what its sources represent.
#[derive(Debug, Drop)]
pub struct Translated {
    /// The definitions, in order.
    pub defs: Vec<Def>,
    /// What each source represents: the inputs in order, then the definitions.
    pub quantities: Vec<Quantity>,
}

/// The query over whole numbers that the definitions are, if the inputs have these scales; or the fault of the first definition
/// that has one. Inputs have the numbers from 0 on, and the definitions follow in order; each reads only sources before it.
pub fn translate(
    alloc: Global,
    scales: &[Scale],
    defs: &[DecimalDef],
) -> Result<Translated, ScaleFault>
    ensures { Gives query_of result (translated scales.now (map unit_definition defs.now)) }
{
    if scales.len() > MOST as usize || defs.len() > MOST as usize - scales.len() {
        return Err(ScaleFault::TooManySources);
    }
    let mut query = Translated {
        defs: Vec::new(alloc),
        quantities: input_quantities(alloc, scales)?,
    };
    for def in defs {
        push_definition(alloc, &mut query, def)?;
    }
    Ok(query)
}

// What the inputs represent.
fn input_quantities(alloc: Global, scales: &[Scale]) -> Result<Vec<Quantity>, OutOfMemory>
    ensures { IfOk result (λ quantities. quantities.items ≡ input_quantities scales.now) }
{
    let mut quantities = Vec::new(alloc);
    for scale in scales {
        quantities.push(Quantity::Number(*scale))?;
    }
    Ok(quantities)
}

// Adds the translation of one more definition.
fn push_definition(
    alloc: Global,
    query: &mut Translated,
    def: &DecimalDef,
) -> Result<(), ScaleFault>
    requires { length query.old.defs.items < 256 }
    ensures query { Gives (λ _. query_of query.new) result (scaled_definition (query_of query.old) (unit_definition def.now)) }
    ensures count { OnOk result (length query.new.defs.items ≡ length query.old.defs.items + 1) }
{
    let place = Place {
        definition: query.defs.len() as u32,
        node: 0,
    };
    if budget_after(&def.body, MOST).is_none() {
        return Err(ScaleFault::BodyTooLarge(place));
    }
    let scaled = scale_expression(alloc, &query.quantities, place, &def.body)?;
    let one = Def {
        body: scaled.tree,
        over: def.over,
        grid: def.grid,
    };
    Ok(push_one(query, one, scaled.quantity)?)
}

// Adds a definition, and what it represents.
fn push_one(query: &mut Translated, def: Def, quantity: Quantity) -> Result<(), OutOfMemory>
    ensures defs { OnOk result (query.new.defs.items ≡ query.old.defs.items ++ def ∷ []) }
    ensures quantities { OnOk result (query.new.quantities.items ≡ query.old.quantities.items ++ quantity ∷ []) }
{
    query.quantities.push(quantity)?;
    query.defs.push(def)?;
    Ok(())
}

// What is left of a number of nodes after those of an expression, or `None` if it has more.
fn budget_after(tree: &DecimalTree, budget: u32) -> Option<u32>
    ensures { MatchOption result (budget < nodes (unit_tree tree.now)) (λ rest. rest + nodes (unit_tree tree.now) ≡ budget) }
{
    match tree {
        DecimalTree::Literal(_)
        | DecimalTree::Truth(_)
        | DecimalTree::Read { .. }
        | DecimalTree::Reduce { .. } => budget.checked_sub(1),
        DecimalTree::One(_, a) => budget_after(a, budget.checked_sub(1)?),
        DecimalTree::Two(_, a, b) => budget_after(b, budget_after(a, budget.checked_sub(1)?)?),
        DecimalTree::If(c, a, b) => {
            let rest = budget_after(c, budget.checked_sub(1)?)?;
            budget_after(b, budget_after(a, rest)?)
        }
    }
}
