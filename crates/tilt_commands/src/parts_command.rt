// The outcome of `parts`.
ghost use Rattle.std.specs.Prelude.{◌≡◌, ◌||◌, neg_ℤ, int_le, List, ℕ, None, length, map, nat_lt, option_map, IfOk, IfErr};
ghost use Rattle.std.specs.List.{find};
ghost use Rattle.tilt_base.specs.declared.limits.TheConstants.{T};
ghost use Rattle.tilt_commands.specs.Divided.{IsParted, RefusesParts, TakesParts};
ghost use Rattle.tilt_commands.specs.Divided.{fault_within, first_outside, first_unnamed, parts_fault};
ghost use Rattle.tilt_commands.specs.Table.{parts_row};
ghost use Rattle.tilt_load.specs.Does.{Does, reading};
ghost use Rattle.tilt_load.specs.FileCommand.{HasFileTurn};
ghost use Rattle.tilt_load.specs.Load.{IsLoadFault};
ghost use Rattle.tilt_outside.specs.Counts.{added_count};
ghost use Rattle.tilt_outside.specs.Reads.{OnlyReads};
ghost use Rattle.tilt_printed.specs.Answer.{Fits, comes_to};
ghost use Rattle.tilt_printed.specs.Text.{whole_text};
ghost use Rattle.tilt_report.specs.Report.{printed, reason_of, report_of};
ghost use Rattle.tilt_watch.specs.Watch.{Watch};
ghost use Rattle.tilt_cli.specs.Binding.{bindings_of};
ghost use Rattle.tilt_cli.specs.Number.{ClimbFrom};

use std::alloc::{AllocError as OutOfMemory, Global};
use tilt_base::Span;
use tilt_cli::Bind;
use tilt_compiler::Accepted;
use tilt_load::{LoadedQuery, load_inputs, load_query};
use tilt_outside::Shelf;
use tilt_parts::Parts;
use tilt_pipe::{Input, share_rows};
use tilt_printed::{Answered, Printed, WholeText};
use tilt_report::{Fault, Refusal};

/// How a query is run in parts.
#[derive(Clone, Copy)]
pub struct Division<'a> {
    /// Whether its definitions are fused.
    pub fuse: bool,
    /// Where the output domain is cut into parts, in ticks; each cut is above the one before it.
    pub cuts: &'a [i64],
    /// The parts, numbered from 0, from each of which one more snapshot is taken, in this order, before all others are.
    pub order: &'a [u32],
}

/// The outcome of `parts`: the query in a file, on the files that are bound, by parts of its output domain that are stepped in an order
/// and joined. The test whether the cuts and the order fit the query comes before the test of the input names. All of it is there before
/// the first write.
pub fn parts<'a, S: Shelf>(
    alloc: Global,
    shelf: &mut S,
    query: &'a str,
    binds: &'a [Bind],
    division: Division<'_>,
) -> Result<Answered<'a>, Fault<'a>>
    requires lent { (name : List ℕ)
        → HasFileTurn (parts_row query.now division.cuts.now division.order.now) S.tells (S.files shelf.old) query.now
        (bindings_of binds.now) name → S.lends name }
    requires cuts { ClimbFrom (neg_ℤ T) T division.cuts.now }
    ensures { Does (λ (watchers : List Watch). parts_row query.now division.entry.cuts.now division.entry.order.now) comes_to (Fits ⊥ ⊥ ⊥)
        query.now (bindings_of binds.now)
        (reading S.tells S.files S.read_faults S.save_faults S.takes S.given shelf.old shelf.new) result }
{
    let loaded = load_divided(alloc, shelf, query, division)?;
    let rows = load_inputs(alloc, shelf, loaded.accepted.core().inputs(), binds)?;
    let inputs = share_rows(alloc, rows)?;
    let text = run_parts(alloc, &loaded.accepted, &inputs, division)?;
    Ok(Answered::unsaved(Printed::Whole(text)))
}

// The query in the file of that name, if the cuts and the order fit it.
fn load_divided<'a, S: Shelf>(
    alloc: Global,
    shelf: &mut S,
    name: &'a str,
    division: Division<'_>,
) -> Result<LoadedQuery, Fault<'a>>
    requires { S.lends name.now }
    ensures taken { S.tells → IfOk result (λ loaded.
        TakesParts division.entry.cuts.now division.entry.order.now (S.files shelf.old name.now) loaded.accepted.core) }
    ensures fits { IfOk result (λ loaded. parts_fault division.entry.cuts.now division.entry.order.now loaded.accepted.core ≡ None) }
    ensures fault { IfErr result (λ fault. IsLoadFault S.tells
        (RefusesParts name.now division.entry.cuts.now division.entry.order.now (S.files shelf.old name.now))
        (λ which. which ≡ name.now) (S.read_faults shelf.old) (S.read_faults shelf.new) (report_of fault)) }
    ensures given { S.tells → IfOk result (λ _. S.given shelf.new ≡ added_count (S.given shelf.old) (length (S.files shelf.old name.now))) }
    ensures rest { OnlyReads S.files S.read_faults S.save_faults S.takes shelf.old shelf.new }
{
    let loaded = load_query(alloc, shelf, name, division.fuse)?;
    match division_fault(loaded.accepted.domain(), division) {
        None => Ok(loaded),
        Some(refusal) => Err(Fault::Refused(refusal)),
    }
}

// Why a domain can't be cut so, or its parts can't be stepped in this order.
fn division_fault<'a>(domain: Span, division: Division<'_>) -> Option<Refusal<'a>>
    ensures { option_map (λ refusal. reason_of refusal) result
        ≡ fault_within division.entry.cuts.now division.entry.order.now domain }
{
    if let Some(at) = first_outside(domain, division.cuts) {
        return Some(Refusal::PartOutside { at });
    }
    let part = first_unnamed(division.cuts.len(), division.order)?;
    Some(Refusal::NoSuchPart { part })
}

// The first cut that isn't inside the domain.
fn first_outside(domain: Span, cuts: &[i64]) -> Option<i64>
    ensures { result ≡ first_outside domain cuts.now }
{
    cuts.iter().copied().find(|cut| is_outside(domain, *cut))
}

// Whether the tick isn't inside the domain.
fn is_outside(domain: Span, at: i64) -> bool
    ensures { result ≡ (int_le at domain.start || int_le domain.end at) }
{
    at <= domain.start || domain.end <= at
}

// The first number of the order that is above the number of cuts.
fn first_unnamed(count: usize, order: &[u32]) -> Option<u32>
    ensures { result ≡ first_unnamed count order.now }
{
    order.iter().copied().find(|part| count < *part as usize)
}

// The text of the query on its rows, by parts: the steps of the order are taken first, and then each part is stepped to its end.
fn run_parts(
    alloc: Global,
    accepted: &Accepted,
    rows: &[Input],
    division: Division<'_>,
) -> Result<WholeText, OutOfMemory>
    requires many { length rows.now ≡ length accepted.now.core.inputs }
    requires cuts { ClimbFrom (neg_ℤ T) T division.cuts.now }
    requires fits { parts_fault division.cuts.now division.order.now accepted.now.core ≡ None }
    ensures { IfOk result (λ text. IsParted division.entry.cuts.now accepted.now.core rows.now (printed (whole_text text))) }
{
    // The output domain is known from here on.
    let _domain = accepted.domain();
    let mut parts = Parts::new(alloc, accepted, rows, division.cuts)?;
    parts.follow(division.order)?;
    parts.finish()?;
    let Some(list) = parts.joined()? else {
        unreachable!()
    };
    let sizes = part_sizes(alloc, &parts, division.cuts.len() + 1)?;
    Ok(WholeText::Parted { list, sizes })
}

// How many snapshots were taken from each of the parts.
fn part_sizes(alloc: Global, parts: &Parts, count: usize) -> Result<Vec<u64>, OutOfMemory>
    requires { count ≡ length parts.now }
    ensures { IfOk result (λ sizes. sizes.items ≡ map (λ part. length part.taken) parts.now) }
{
    let mut sizes = Vec::new(alloc);
    for part in 0..count {
        sizes.push(parts.given(part))?;
    }
    Ok(sizes)
}
