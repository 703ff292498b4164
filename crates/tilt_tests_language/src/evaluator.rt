// What sources and queries mean, tick by tick.
use crate::worked_queries::Word::{Const, If, One, Read, Reduce, Two};
use crate::worked_queries::{CASES, Case, DefWords, Word};
use std::alloc::{AllocError, Global};
use std::test::Fail;
use tilt_base::{Grid, Span, T};
use tilt_core::{Def, Tree};
use tilt_evaluator::{Source, evaluate, evaluate_query};
use tilt_stream::SnapList;
use tilt_testing::{Piece, core_of, inputs_of, pieces_of};

fn pop(trees: &mut Vec<Tree>) -> Result<Tree, Fail> {
    Ok(trees.pop().ok_or("an operand is missing")?)
}

fn boxed(alloc: Global, tree: Tree) -> Result<Box<Tree>, AllocError> {
    Ok(Box::new(alloc, tree)?)
}

fn push_word(alloc: Global, trees: &mut Vec<Tree>, word: Word) -> Result<(), Fail> {
    let tree = match word {
        Const(number) => Tree::Const(number),
        Read(source, offset) => Tree::Read { source, offset },
        Reduce(reducer, source, from, to) => Tree::Reduce {
            reducer,
            source,
            from,
            to,
        },
        One(op) => Tree::One(op, boxed(alloc, pop(trees)?)?),
        Two(op) => {
            let b = boxed(alloc, pop(trees)?)?;
            let a = boxed(alloc, pop(trees)?)?;
            Tree::Two(op, a, b)
        }
        If => {
            let b = boxed(alloc, pop(trees)?)?;
            let a = boxed(alloc, pop(trees)?)?;
            let c = boxed(alloc, pop(trees)?)?;
            Tree::If(c, a, b)
        }
    };
    trees.push(tree)?;
    Ok(())
}

fn tree_of(alloc: Global, words: &[Word]) -> Result<Tree, Fail> {
    let mut trees = Vec::new(alloc);
    for word in words {
        push_word(alloc, &mut trees, *word)?;
    }
    pop(&mut trees)
}

fn defs_of(alloc: Global, defs: &[DefWords]) -> Result<Vec<Def>, Fail> {
    let mut all = Vec::new(alloc);
    for (words, over, period, offset) in defs {
        let body = tree_of(alloc, words)?;
        let over = over.map(|(start, end)| Span { start, end });
        let grid = Grid::new(*period, *offset).ok_or("no grid")?;
        all.push(Def { body, over, grid })?;
    }
    Ok(all)
}

fn numbered(alloc: Global, list: &SnapList) -> Result<Vec<Piece>, Fail> {
    let mut pieces = Vec::new(alloc);
    for snap in list.as_slice() {
        if snap.value.is_some() {
            pieces.push((snap.start, snap.end, snap.value))?;
        }
    }
    Ok(pieces)
}

// The snapshots of the last definition on the domain that aren't null.
fn output_of(alloc: Global, case: &Case) -> Result<Vec<Piece>, Fail> {
    let inputs = inputs_of(alloc, case.inputs)?;
    let defs = defs_of(alloc, case.defs)?;
    let (lo, hi) = case.domain;
    if lo < -T || T < hi || 256 < inputs.len() || 256 < defs.len() || defs.is_empty() {
        return Err("no case".into());
    }
    let last = (inputs.len() + defs.len() - 1) as u32;
    let source = Source {
        inputs: &inputs,
        defs: &defs,
        number: last,
    };
    let list = evaluate(alloc, &source, lo, hi)?;
    numbered(alloc, &list)
}

#[test]
fn small_queries_mean_what_the_rules_say(rt: HostRuntime) -> Result<(), Fail> {
    for case in CASES {
        let output = output_of(rt.alloc(), case)?;
        assert_eq!(rt; output.as_slice(), case.want, "{}", case.name);
    }
    Ok(())
}

// Queries of one input, its rows, and what they give on their output domain.
const TEXTS: &[(&str, &[Piece], &[Piece])] = &[
    (
        "input x; emit sum(x[t-5:t]) over (0, 10] every 5;",
        &[(0, 5, Some(1)), (5, 8, Some(2))],
        &[(0, 5, Some(1)), (5, 10, Some(2))],
    ),
    (
        "input x; emit sum(x[t-5:t]) over (2, 12] every 5 from 2;",
        &[(0, 5, Some(1)), (5, 8, Some(2))],
        &[(2, 7, Some(3)), (7, 12, Some(2))],
    ),
    (
        "input x; let a = x every 4 from 1; emit a over (-1, 7] every 4 from 3;",
        &[(0, 2, Some(1)), (4, 5, Some(2)), (8, 9, Some(3))],
        &[(-1, 3, Some(2)), (3, 7, Some(3))],
    ),
];

// What a query of one input gives on its output domain.
fn output_of_text(alloc: Global, text: &str, rows: &[Piece]) -> Result<Vec<Piece>, Fail> {
    let core = core_of(alloc, text)?;
    let inputs = inputs_of(alloc, &[rows])?;
    if inputs.len() != core.inputs().len() {
        return Err("another number of inputs".into());
    }
    let list = evaluate_query(alloc, &core, &inputs)?;
    pieces_of(alloc, &list)
}

#[test]
fn checked_queries_give_their_output(rt: HostRuntime) -> Result<(), Fail> {
    for (text, rows, want) in TEXTS {
        let output = output_of_text(rt.alloc(), text, rows)?;
        assert_eq!(rt; output.as_slice(), *want, "at {text}");
    }
    Ok(())
}
