// The bytes of a state, from a place on, and the pieces that they begin with.
ghost use Rattle.std.specs.Prelude.{◌≡◌, codes, MatchOption};
ghost use Rattle.tilt_checkpoint.specs.Reading.{Reads, behind, behind_line, count_at, maybe};
ghost use Rattle.tilt_checkpoint.specs.Reading.{maybe_at, natural, number_at, query_at, row_at, times};
ghost use Rattle.tilt_live_state.specs.Reading.{count_field, counts_at, edge_at, field_at, flag_at, given_at, head_at, heading_at};
ghost use Rattle.tilt_live_state.specs.Reading.{known_update, marks_at, null_update, open_row_of, options_at, place_at, progress_at};
ghost use Rattle.tilt_live_state.specs.Reading.{progress_of, row_update, ticks_at, ticks_of, update_at, update_of, value_update};
ghost use Rattle.tilt_text.specs.Cut.{until_at};

use crate::head::Head;
use crate::progress::Progress;
use std::marker::Model;
use tilt_feed::{Edge, OpenRow, Update};
use tilt_stream::{Row, Snap};
use tilt_text::{shortest, until};
use tilt_watermarks::Options;

// The bytes that are left. A clause sees them as a list.
#[derive(Drop)]
pub(crate) struct Reader<'a> {
    left: &'a [u8],
}

impl<'a> Model for Reader<'a> {
    ghost use Rattle.std.specs.Prelude.{List, ℕ};

    ghost Value = { List ℕ };

    ghost view = { λ r. r.left.now };
}

impl<'a> Reader<'a> {
    // All of the bytes.
    pub(crate) fn new(bytes: &'a [u8]) -> Reader<'a>
        ensures { result ≡ bytes.now }
    {
        Reader { left: bytes }
    }

    // Passes a text with which the bytes begin.
    fn pass(&mut self, text: &[u8]) -> Option<()>
        ensures { MatchOption result (behind text.now self.old ≡ None) (λ _. behind text.now self.old ≡ Some self.new) }
    {
        self.left = self.left.strip_prefix(text)?;
        Some(())
    }

    // The bytes up to the first mark, which is passed too.
    fn until(&mut self, mark: u8) -> Option<&'a [u8]>
        ensures { MatchOption result (until_at mark self.old ≡ None) (λ word. until_at mark self.old ≡ Some (word.now, self.new)) }
    {
        let (word, left) = until(self.left, mark)?;
        self.left = left;
        Some(word)
    }

    // Passes so many lines.
    fn pass_lines(&mut self, count: u64) -> Option<()>
        ensures { MatchOption result (times behind_line count self.old ≡ None) (λ _. times behind_line count self.old ≡ Some self.new) }
    {
        for _ in 0..count {
            self.until(b'\n')?;
        }
        Some(())
    }

    // The number up to the mark.
    fn number(&mut self, mark: u8) -> Option<i64>
        ensures { Reads (number_at mark self.old) result self.new }
    {
        shortest(self.until(mark)?)
    }

    // The count up to the mark.
    fn count(&mut self, mark: u8) -> Option<u64>
        ensures { Reads (count_at mark self.old) result self.new }
    {
        u64::try_from(self.number(mark)?).ok()
    }

    // The number up to the mark, or `None` if the word for nothing is there.
    fn maybe(&mut self, nothing: &[u8], mark: u8) -> Option<Option<i64>>
        ensures { Reads (maybe_at nothing.now mark self.old) result self.new }
    {
        maybe(nothing, self.until(mark)?)
    }

    // The printed query, after the first line.
    pub(crate) fn heading(&mut self) -> Option<(u64, &'a [u8])>
        ensures { MatchOption result (heading_at self.old ≡ None)
            (λ found. heading_at self.old ≡ Some ((found.0, found.1.now), self.new)) }
    {
        self.until(b'\n')?;
        self.query_lines()
    }

    // The number of the query's statements, and as many lines.
    fn query_lines(&mut self) -> Option<(u64, &'a [u8])>
        ensures { MatchOption result (query_at self.old ≡ None) (λ found. query_at self.old ≡ Some ((found.0, found.1.now), self.new)) }
    {
        self.pass(b"query ")?;
        let count = self.count(b'\n')?;
        let lines = self.left;
        self.pass_lines(count)?;
        let text = &lines[..lines.len() - self.left.len()];
        Some((count, text))
    }

    // The number of a field that ends with a mark, or `None` if it is `none`.
    fn field(&mut self, mark: u8) -> Option<Option<i64>>
        ensures { Reads (field_at mark self.old) result self.new }
    {
        self.until(b' ')?;
        self.maybe(b"none", mark)
    }

    // The number of a field, which is there.
    fn given(&mut self, mark: u8) -> Option<i64>
        ensures { Reads (given_at mark self.old) result self.new }
    {
        self.field(mark)?
    }

    // The number of a field, which is there and isn't negative.
    fn count_field(&mut self, mark: u8) -> Option<u64>
        ensures { Reads (count_field mark self.old) result self.new }
    {
        u64::try_from(self.given(mark)?).ok()
    }

    // The ticks of a line, or `None` if they are `none`.
    fn ticks(&mut self) -> Option<Option<u64>>
        ensures { Reads (ticks_at self.old) result self.new }
    {
        ticks_of(self.field(b'\n')?)
    }

    // Whether a line has `yes`.
    fn flag(&mut self) -> Option<bool>
        ensures { Reads (flag_at self.old) result self.new }
    {
        self.until(b' ')?;
        let word = self.until(b'\n')?;
        Some(word == b"yes".as_slice())
    }

    // The options of the watermarks.
    fn options(&mut self) -> Option<Options>
        ensures { Reads (options_at self.old) result self.new }
    {
        let lateness = self.ticks()?;
        let idle = self.ticks()?;
        let ahead = self.ticks()?;
        Some(Options {
            idle,
            ahead,
            lateness,
        })
    }

    // How many bytes and lines were taken, and how many bytes were written.
    fn counts(&mut self) -> Option<(u64, u64, u64)>
        ensures { Reads (counts_at self.old) result self.new }
    {
        let bytes = self.count_field(b'\n')?;
        let lines = self.count_field(b'\n')?;
        let written = self.count_field(b'\n')?;
        Some((bytes, lines, written))
    }

    // Where the output goes on, what was shown, and whether the feed is finished.
    fn place(&mut self) -> Option<(i64, Option<i64>, bool)>
        ensures { Reads (place_at self.old) result self.new }
    {
        let from = self.given(b'\n')?;
        let shown = self.field(b'\n')?;
        let finished = self.flag()?;
        Some((from, shown, finished))
    }

    // The largest watermark, and the same if the lateness isn't taken off.
    fn marks(&mut self) -> Option<(Option<i64>, Option<i64>)>
        ensures { Reads (marks_at self.old) result self.new }
    {
        let greatest = self.field(b'\n')?;
        let latest = self.field(b'\n')?;
        Some((greatest, latest))
    }

    // How far a run is.
    pub(crate) fn progress(&mut self) -> Option<Progress>
        ensures { Reads (progress_at self.old) result self.new }
    {
        let options = self.options()?;
        let counts = self.counts()?;
        let place = self.place()?;
        let marks = self.marks()?;
        Some(progress_of(options, counts, place, marks))
    }

    // An edge.
    fn edge(&mut self) -> Option<Edge>
        ensures { Reads (edge_at self.old) result self.new }
    {
        let watermark = self.given(b' ')?;
        let start = self.field(b' ')?;
        let value = self.field(b' ')?;
        Some(Edge {
            open_row: open_row_of(start, value),
            watermark,
        })
    }

    // The edge of an input, and how many rows and updates follow.
    pub(crate) fn head(&mut self) -> Option<Head>
        ensures { Reads (head_at self.old) result self.new }
    {
        let edge = self.edge()?;
        let rows = self.count_field(b' ')?;
        let held = self.count_field(b'\n')?;
        Some(Head { edge, rows, held })
    }

    // The row of a line.
    pub(crate) fn row(&mut self) -> Option<Row>
        ensures { Reads (row_at self.old) result self.new }
    {
        let start = self.number(b',')?;
        let end = self.number(b',')?;
        let value = self.maybe(b"", b'\n')?;
        if start < end {
            Some(Snap { start, end, value })
        } else {
            None
        }
    }

    // The update of a line.
    pub(crate) fn update(&mut self) -> Option<Update>
        ensures { Reads (update_at self.old) result self.new }
    {
        let word = self.until(b' ')?;
        self.update_of(word)
    }

    // The update that a line says after its word.
    fn update_of(&mut self, word: &[u8]) -> Option<Update>
        ensures { Reads (update_of word.now self.old) result self.new }
    {
        if word == b"row".as_slice() {
            self.row_update()
        } else if word == b"value".as_slice() {
            self.value_update()
        } else if word == b"null".as_slice() {
            self.null_update()
        } else {
            self.known_update()
        }
    }

    // A row that is held.
    fn row_update(&mut self) -> Option<Update>
        ensures { Reads (row_update self.old) result self.new }
    {
        let start = self.number(b',')?;
        let end = self.number(b',')?;
        let value = self.maybe(b"", b'\n')?;
        Some(Update::Row { start, end, value })
    }

    // A value that is held.
    fn value_update(&mut self) -> Option<Update>
        ensures { Reads (value_update self.old) result self.new }
    {
        let start = self.number(b',')?;
        let value = self.number(b'\n')?;
        Some(Update::Value { start, value })
    }

    // An end of values that is held.
    fn null_update(&mut self) -> Option<Update>
        ensures { Reads (null_update self.old) result self.new }
    {
        let start = self.number(b'\n')?;
        Some(Update::NoValue { start })
    }

    // A watermark that is held.
    fn known_update(&mut self) -> Option<Update>
        ensures { Reads (known_update self.old) result self.new }
    {
        let watermark = self.number(b'\n')?;
        Some(Update::KnownUpTo { watermark })
    }
}

// The number whose shortest decimal the word is, or `None` if it is the word for nothing.
fn maybe(nothing: &[u8], word: &[u8]) -> Option<Option<i64>>
    ensures { result ≡ maybe nothing.now word.now }
{
    if word == nothing {
        Some(None)
    } else {
        Some(Some(shortest(word)?))
    }
}

// Ticks, which aren't negative if they are there.
fn ticks_of(number: Option<i64>) -> Option<Option<u64>>
    ensures { result ≡ ticks_of number }
{
    match number {
        Some(ticks) => Some(Some(u64::try_from(ticks).ok()?)),
        None => Some(None),
    }
}

// How far a run is.
fn progress_of(
    options: Options,
    counts: (u64, u64, u64),
    place: (i64, Option<i64>, bool),
    marks: (Option<i64>, Option<i64>),
) -> Progress
    ensures { result ≡ progress_of options counts place marks }
{
    Progress {
        options,
        bytes: counts.0,
        lines: counts.1,
        written: counts.2,
        from: place.0,
        shown: place.1,
        finished: place.2,
        greatest: marks.0,
        latest: marks.1,
    }
}

// An open row, if it has a start and a value.
fn open_row_of(start: Option<i64>, value: Option<i64>) -> Option<OpenRow>
    ensures { result ≡ open_row_of start value }
{
    match (start, value) {
        (Some(start), Some(value)) => Some(OpenRow { start, value }),
        _ => None,
    }
}
