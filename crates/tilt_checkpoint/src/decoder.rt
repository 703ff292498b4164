// A checkpoint of its spelling.
ghost use Rattle.std.specs.Prelude.{◌≡◌, ◌⊎◌, Ok, length, IfOk, IfErr, MatchResult};
ghost use Rattle.tilt_bounds.specs.Margins.{margins_of};
ghost use Rattle.tilt_checkpoint.specs.Checkpoint.{CheckpointParts, with_query};
ghost use Rattle.tilt_checkpoint.specs.Cuts.{IsCut};
ghost use Rattle.tilt_checkpoint.specs.Decided.{IsFrame, frame_of};
ghost use Rattle.tilt_checkpoint.specs.Reading.{Gives, body_at, end_at, form_of, is_amid, is_least, is_open, none_below, one_has, rest_at};
ghost use Rattle.tilt_checkpoint.specs.Spelling.{Spells};
ghost use Rattle.tilt_checkpoint.specs.Valid.{IsCheckpoint};
ghost use Rattle.tilt_types.specs.Checked.{core_of};

use crate::body::Body;
use crate::checkpoint::Checkpoint;
use crate::cuts::is_cut;
use crate::fault::CheckpointFault;
use crate::form::Form;
use crate::frame::Frame;
use crate::kept::Kept;
use crate::query::{Asked, read_query};
use crate::reader::Reader;
use crate::series::read_series;
use crate::version::Version;
use std::alloc::Global;
use tilt_bounds::Margins;
use tilt_core::Core;
use tilt_syntax::Query;

/// A checkpoint that was read, and the core and the margins of its query.
#[derive(Drop)]
pub struct Decoded {
    pub checkpoint: Checkpoint,
    pub core: Core,
    pub margins: Margins,
}

/// The checkpoint that the bytes spell, with the core and the margins of its query. It returns `BadCheckpoint` exactly if the bytes spell
/// no valid checkpoint, unless memory runs out first.
pub fn decode(alloc: Global, bytes: &[u8]) -> Result<Decoded, CheckpointFault>
    ensures checkpoint { IfOk result (λ decoded. IsCheckpoint decoded.checkpoint × Spells bytes.now decoded.checkpoint) }
    ensures core { IfOk result (λ decoded. decoded.core ≡ core_of decoded.checkpoint.query) }
    ensures margins { IfOk result (λ decoded. margins_of decoded.core ≡ Ok decoded.margins) }
    ensures bad { IfErr result (λ fault. fault ≡ CheckpointFault.BadCheckpoint
        → (checkpoint : CheckpointParts) → IsCheckpoint checkpoint → ¬ (Spells bytes.now checkpoint)) }

    // Nothing else is: no other checkpoint, and no other fault.
    ensures only { (checkpoint : CheckpointParts) → IsCheckpoint checkpoint → Spells bytes.now checkpoint →
        MatchResult result (λ found. found.checkpoint ≡ checkpoint) (λ fault. fault ≡ CheckpointFault.OutOfMemory) }
    ensures none { ((checkpoint : CheckpointParts) → IsCheckpoint checkpoint → ¬ (Spells bytes.now checkpoint)) →
        MatchResult result (λ _. ⊥) (λ fault. (fault ≡ CheckpointFault.BadCheckpoint) ⊎ (fault ≡ CheckpointFault.OutOfMemory)) }
{
    read(alloc, bytes)
}

// The checkpoint that the bytes spell.
fn read(alloc: Global, bytes: &[u8]) -> Result<Decoded, CheckpointFault>
    ensures checkpoint { IfOk result (λ decoded. IsCheckpoint decoded.checkpoint × Spells bytes.now decoded.checkpoint) }
    ensures core { IfOk result (λ decoded. decoded.core ≡ core_of decoded.checkpoint.query) }
    ensures margins { IfOk result (λ decoded. margins_of decoded.core ≡ Ok decoded.margins) }
    ensures only { (checkpoint : CheckpointParts) → IsCheckpoint checkpoint → Spells bytes.now checkpoint →
        MatchResult result (λ found. found.checkpoint ≡ checkpoint) (λ fault. fault ≡ CheckpointFault.OutOfMemory) }
{
    let mut reader = Reader::new(bytes);
    let version = reader.version().ok_or(CheckpointFault::BadCheckpoint)?;
    let asked = read_query(alloc, &mut reader)?;
    let body = read_after(alloc, &asked, version, reader)?;
    Ok(Decoded {
        checkpoint: whole(asked.query, body),
        core: asked.core,
        margins: asked.margins,
    })
}

// The checkpoint of a query and what follows it.
fn whole(query: Query, body: Body) -> Checkpoint
    requires { IsCheckpoint (with_query query body) }
    ensures { result ≡ with_query query body }
{
    Checkpoint::new(query, body.cut, body.open_start, body.series)
}

// What follows a query.
fn read_after(
    alloc: Global,
    asked: &Asked,
    version: Version,
    reader: Reader<'_>,
) -> Result<Body, CheckpointFault>
    requires { margins_of asked.now.core ≡ Ok asked.now.margins }
    ensures { Gives (body_at version (frame_of asked.now.core) (length asked.now.core.inputs) reader.entry) (λ body. body) result }
{
    let frame = Frame::new(&asked.core, &asked.margins);
    read_body(alloc, version, reader, frame, asked.core.inputs().len())
}

// What follows a query with that frame and this number of inputs.
fn read_body(
    alloc: Global,
    version: Version,
    mut reader: Reader<'_>,
    frame: Frame,
    inputs: usize,
) -> Result<Body, CheckpointFault>
    requires { IsFrame frame }
    ensures { Gives (body_at version frame inputs reader.entry) (λ body. body) result }
{
    match reader.moment() {
        Some((cut, open_start)) => {
            if is_cut(cut) && is_open(frame, frame.decided(cut), open_start) {
                read_rest(
                    alloc,
                    reader,
                    inputs,
                    form_of(version, frame, cut),
                    open_start,
                )
            } else {
                Err(CheckpointFault::BadCheckpoint)
            }
        }
        None => Err(CheckpointFault::BadCheckpoint),
    }
}

// By what the lines of inputs are read.
fn form_of(version: Version, frame: Frame, cut: i64) -> Form
    requires frame { IsFrame frame }
    requires cut { IsCut cut }
    ensures { result ≡ form_of version frame cut }
{
    Form {
        version,
        first: frame.first_kept(cut),
        least: cut,
    }
}

// What follows the least cut and the start of the open snapshot.
fn read_rest(
    alloc: Global,
    mut reader: Reader<'_>,
    inputs: usize,
    form: Form,
    open_start: Option<i64>,
) -> Result<Body, CheckpointFault>
    ensures { Gives (rest_at inputs form open_start reader.entry) (λ body. body) result }
{
    let series = read_series(alloc, &mut reader, inputs, form)?;
    end(series, form.least, open_start, reader.left())
}

// The end, which nothing follows, if the cut is the least of the inputs' cuts.
fn end(
    series: Vec<Kept>,
    cut: i64,
    open_start: Option<i64>,
    bytes: &[u8],
) -> Result<Body, CheckpointFault>
    ensures { Gives (end_at cut open_start (series.items, bytes.now)) (λ body. body) result }
{
    if bytes == b"end\n".as_slice() && is_least(cut, &series) {
        Ok(Body {
            cut,
            open_start,
            series,
        })
    } else {
        Err(CheckpointFault::BadCheckpoint)
    }
}

// Whether a cut is the least of the inputs' cuts, if there are any.
fn is_least(cut: i64, series: &[Kept]) -> bool
    ensures { result ≡ is_least cut series.now }
{
    none_below(cut, series) && (series.is_empty() || one_has(cut, series))
}

// Whether the cut of no input lies below that.
fn none_below(cut: i64, series: &[Kept]) -> bool
    ensures { result ≡ none_below cut series.now }
{
    series.iter().all(|kept| cut <= kept.cut)
}

// Whether an input has that cut.
fn one_has(cut: i64, series: &[Kept]) -> bool
    ensures { result ≡ one_has cut series.now }
{
    series.iter().any(|kept| kept.cut == cut)
}

// Whether an open snapshot may start there, if the output is decided up to a tick.
fn is_open(frame: Frame, decided: i64, open_start: Option<i64>) -> bool
    ensures { result ≡ is_open frame decided open_start }
{
    match open_start {
        None => !is_amid(frame, decided),
        Some(start) => is_amid(frame, decided) && frame.start <= start && start < decided,
    }
}

// Whether some of the output is decided, and not all.
fn is_amid(frame: Frame, decided: i64) -> bool
    ensures { result ≡ is_amid frame decided }
{
    frame.start < decided && decided < frame.end
}
