// A query file, from the shelf to the query that it holds.
ghost use Rattle.std.specs.Prelude.{◌≡◌, ◌≤◌, ⊤, List, ℕ, Ok, length, IfOk, IfErr};
ghost use Rattle.tilt_base.specs.declared.limits.TheConstants.{FILE};
ghost use Rattle.tilt_load.specs.Load.{IsLoadFault};
ghost use Rattle.tilt_load.specs.QueryFile.{HasQuery, TakesQuery, RefusesQuery};
ghost use Rattle.tilt_outside.specs.Counts.{added_count};
ghost use Rattle.tilt_outside.specs.Reads.{OnlyReads};
ghost use Rattle.tilt_report.specs.Report.{report_of};
ghost use Rattle.tilt_syntax.specs.Query.{IsQuery};
ghost use Rattle.tilt_types.specs.Checked.{checked};

use crate::file::load;
use std::alloc::Global;
use tilt_compiler::{Accepted, accept};
use tilt_outside::Shelf;
use tilt_report::Fault;
use tilt_syntax::{Query, read_text};
use tilt_types::check;

/// A query that was accepted, as it is written, and what the compiler knows of it.
#[derive(Drop)]
pub struct LoadedQuery {
    pub query: Query,
    pub accepted: Accepted,
}

/// The query in the file of that name, with fusion or without. `Refused` has the first reason why the file is rejected.
/// `ReadFault` comes if a read failed, and `OutOfMemory` only if there was no memory.
pub fn load_query<'a, S: Shelf>(
    alloc: Global,
    shelf: &mut S,
    name: &'a str,
    fuse: bool,
) -> Result<LoadedQuery, Fault<'a>>
    requires { S.lends name.now }
    ensures taken { S.tells → IfOk result (λ query. TakesQuery (S.files shelf.old name.now) query.accepted.core) }
    ensures query { S.tells → IfOk result (λ query. HasQuery (S.files shelf.old name.now) query.query query.accepted.core) }
    ensures valid { IfOk result (λ query. IsQuery query.query) }
    ensures accepted { IfOk result (λ query. checked query.query ≡ Ok query.accepted.core) }
    ensures fuse { IfOk result (λ query. query.accepted.fuse ≡ fuse) }
    ensures fault { IfErr result (λ fault. IsLoadFault S.tells (RefusesQuery name.now (S.files shelf.old name.now))
        (λ which. which ≡ name.now) (S.read_faults shelf.old) (S.read_faults shelf.new) (report_of fault)) }
    ensures given { S.tells → IfOk result (λ _. S.given shelf.new ≡ added_count (S.given shelf.old) (length (S.files shelf.old name.now))) }
    ensures rest { OnlyReads S.files S.read_faults S.save_faults S.takes shelf.old shelf.new }
{
    let bytes = load(alloc, shelf, name)?;
    read_query(alloc, &bytes, fuse)
}

/// The query that a text is, which is no longer than a file may be. An error is the same as for a file of any name.
pub fn read_query<'a>(alloc: Global, bytes: &[u8], fuse: bool) -> Result<LoadedQuery, Fault<'a>>
    requires { length bytes.now ≤ FILE }
    ensures taken { IfOk result (λ query. TakesQuery bytes.now query.accepted.core) }
    ensures query { IfOk result (λ query. HasQuery bytes.now query.query query.accepted.core) }
    ensures valid { IfOk result (λ query. IsQuery query.query) }
    ensures accepted { IfOk result (λ query. checked query.query ≡ Ok query.accepted.core) }
    ensures fuse { IfOk result (λ query. query.accepted.fuse ≡ fuse) }
    ensures fault { (name : List ℕ) → IfErr result (λ fault. IsLoadFault ⊤ (RefusesQuery name bytes.now) (λ _. ⊥) 0 0 (report_of fault)) }
{
    let query = read_text(alloc, bytes)?;
    let core = check(alloc, &query)?;
    let accepted = accept(alloc, core, fuse)?;
    // That some text reads as the query is known from here on.
    let _parsed = query.statements();
    Ok(LoadedQuery { query, accepted })
}
