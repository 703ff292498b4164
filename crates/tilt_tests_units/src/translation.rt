// Queries in units, and what they are over whole numbers.
use crate::cases::Word::{If, Literal, One, Read, Reduce, Truth, Two};
use crate::cases::{CASES, Case, Word};
use std::alloc::{AllocError, Global};
use std::test::Fail;
use tilt_base::Grid;
use tilt_units::{Decimal, DecimalDef, DecimalTree, Scale, translate};

fn pop(trees: &mut Vec<DecimalTree>) -> Result<DecimalTree, Fail> {
    Ok(trees.pop().ok_or("an operand is missing")?)
}

fn boxed(alloc: Global, tree: DecimalTree) -> Result<Box<DecimalTree>, AllocError> {
    Ok(Box::new(alloc, tree)?)
}

fn scale(parts: u64) -> Result<Scale, Fail> {
    Ok(Scale::new(parts).ok_or("no scale")?)
}

fn push_word(alloc: Global, trees: &mut Vec<DecimalTree>, word: Word) -> Result<(), Fail> {
    let tree = match word {
        Literal(number, parts) => {
            let scale = scale(parts)?;
            DecimalTree::Literal(Decimal { number, scale })
        }
        Truth(holds) => DecimalTree::Truth(holds),
        Read(source) => DecimalTree::Read { source, offset: 0 },
        Reduce(reducer, source) => DecimalTree::Reduce {
            reducer,
            source,
            from: -60,
            to: 0,
        },
        One(op) => DecimalTree::One(op, boxed(alloc, pop(trees)?)?),
        Two(op) => {
            let b = boxed(alloc, pop(trees)?)?;
            let a = boxed(alloc, pop(trees)?)?;
            DecimalTree::Two(op, a, b)
        }
        If => {
            let b = boxed(alloc, pop(trees)?)?;
            let a = boxed(alloc, pop(trees)?)?;
            let c = boxed(alloc, pop(trees)?)?;
            DecimalTree::If(c, a, b)
        }
    };
    trees.push(tree)?;
    Ok(())
}

fn tree_of(alloc: Global, words: &[Word]) -> Result<DecimalTree, Fail> {
    let mut trees = Vec::new(alloc);
    for word in words {
        push_word(alloc, &mut trees, *word)?;
    }
    pop(&mut trees)
}

fn defs_of(alloc: Global, bodies: &[&[Word]]) -> Result<Vec<DecimalDef>, Fail> {
    let mut defs = Vec::new(alloc);
    for words in bodies {
        let body = tree_of(alloc, words)?;
        let grid = Grid::new(1, 0).ok_or("no grid")?;
        defs.push(DecimalDef {
            body,
            over: None,
            grid,
        })?;
    }
    Ok(defs)
}

fn scales_of(alloc: Global, parts: &[u64]) -> Result<Vec<Scale>, Fail> {
    let mut scales = Vec::new(alloc);
    for one in parts {
        scales.push(scale(*one)?)?;
    }
    Ok(scales)
}

// What the last definition stands for, and its expression; or the fault.
fn show(alloc: Global, case: &Case) -> Result<String, Fail> {
    let (parts, bodies, _) = case;
    let scales = scales_of(alloc, parts)?;
    let defs = defs_of(alloc, bodies)?;
    match translate(alloc, &scales, &defs) {
        Ok(query) => {
            let quantity = query.quantities.last().ok_or("no source")?;
            let def = query.defs.last().ok_or("no definition")?;
            Ok(format!(in alloc; "{quantity:?} {:?}", def.body)?)
        }
        Err(fault) => Ok(format!(in alloc; "{fault:?}")?),
    }
}

#[test]
fn expressions_have_the_scales_of_their_units(rt: HostRuntime) -> Result<(), Fail> {
    let alloc = rt.alloc();
    for case in CASES {
        let shown = show(alloc, case)?;
        assert_eq!(rt; shown.as_str(), case.2);
    }
    Ok(())
}
