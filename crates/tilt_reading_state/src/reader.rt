// The bytes that are left, from a place on, and the pieces that they begin with.
ghost use Rattle.std.specs.Prelude.{◌≡◌, codes, MatchOption};
ghost use Rattle.tilt_checkpoint.specs.Reading.{Reads, count_at, maybe, maybe_at, natural, number_at};
ghost use Rattle.tilt_live_state.specs.Reading.{count_field, edge_at, field_at, flag_at, given_at, open_row_of};
ghost use Rattle.tilt_reading_state.specs.Reading.{input_at, latest_at, latest_of};
ghost use Rattle.tilt_text.specs.Cut.{until_at};

use std::marker::Model;
use tilt_conventions::{KeptConverter, Reading};
use tilt_feed::{Edge, OpenRow};
use tilt_text::{shortest, until};

// The bytes that are left. A clause sees them as a list.
#[derive(Drop)]
pub(crate) struct Reader<'a> {
    left: &'a [u8],
}

impl<'a> Model for Reader<'a> {
    ghost use Rattle.std.specs.Prelude.{List, ℕ};

    ghost Value = { List ℕ };

    ghost view = { λ r. r.left.now };
}

impl<'a> Reader<'a> {
    // All of the bytes.
    pub(crate) fn new(bytes: &'a [u8]) -> Reader<'a>
        ensures { result ≡ bytes.now }
    {
        Reader { left: bytes }
    }

    // The bytes up to the first mark, which is passed too.
    pub(crate) fn until(&mut self, mark: u8) -> Option<&'a [u8]>
        ensures { MatchOption result (until_at mark self.old ≡ None) (λ word. until_at mark self.old ≡ Some (word.now, self.new)) }
    {
        let (word, left) = until(self.left, mark)?;
        self.left = left;
        Some(word)
    }

    // The number up to the mark.
    fn number(&mut self, mark: u8) -> Option<i64>
        ensures { Reads (number_at mark self.old) result self.new }
    {
        shortest(self.until(mark)?)
    }

    // The count up to the mark.
    pub(crate) fn count(&mut self, mark: u8) -> Option<usize>
        ensures { Reads (count_at mark self.old) result self.new }
    {
        usize::try_from(self.number(mark)?).ok()
    }

    // The number of a field that ends with a mark, or `None` if it is `none`.
    fn field(&mut self, mark: u8) -> Option<Option<i64>>
        ensures { Reads (field_at mark self.old) result self.new }
    {
        self.until(b' ')?;
        self.maybe(b"none", mark)
    }

    // The number up to the mark, or `None` if the word for nothing is there.
    fn maybe(&mut self, nothing: &[u8], mark: u8) -> Option<Option<i64>>
        ensures { Reads (maybe_at nothing.now mark self.old) result self.new }
    {
        maybe(nothing, self.until(mark)?)
    }

    // The number of a field, which is there.
    fn given(&mut self, mark: u8) -> Option<i64>
        ensures { Reads (given_at mark self.old) result self.new }
    {
        self.field(mark)?
    }

    // The number of a field, which is there and isn't negative.
    fn count_field(&mut self, mark: u8) -> Option<u64>
        ensures { Reads (count_field mark self.old) result self.new }
    {
        u64::try_from(self.given(mark)?).ok()
    }

    // The same, as a place or as a number of items.
    pub(crate) fn place(&mut self, mark: u8) -> Option<usize>
        ensures { Reads (count_field mark self.old) result self.new }
    {
        usize::try_from(self.given(mark)?).ok()
    }

    // Whether a line has `yes`.
    pub(crate) fn flag(&mut self) -> Option<bool>
        ensures { Reads (flag_at self.old) result self.new }
    {
        self.until(b' ')?;
        let word = self.until(b'\n')?;
        Some(word == b"yes".as_slice())
    }

    // What is kept of an input.
    pub(crate) fn input(&mut self) -> Option<KeptConverter>
        ensures { Reads (input_at self.old) result self.new }
    {
        let edge = self.edge()?;
        let mark = self.given(b' ')?;
        let latest = self.latest()?;
        let skipped = self.count_field(b'\n')?;
        Some(KeptConverter {
            edge,
            mark,
            latest,
            skipped,
        })
    }

    // An edge.
    fn edge(&mut self) -> Option<Edge>
        ensures { Reads (edge_at self.old) result self.new }
    {
        let watermark = self.given(b' ')?;
        let start = self.field(b' ')?;
        let value = self.field(b' ')?;
        Some(Edge {
            open_row: open_row_of(start, value),
            watermark,
        })
    }

    // The latest reading, if there is one.
    fn latest(&mut self) -> Option<Option<Reading>>
        ensures { Reads (latest_at self.old) result self.new }
    {
        let tick = self.field(b' ')?;
        let value = self.field(b' ')?;
        Some(latest_of(tick, value))
    }
}

// The number whose shortest decimal the word is, or `None` if it is the word for nothing.
fn maybe(nothing: &[u8], word: &[u8]) -> Option<Option<i64>>
    ensures { result ≡ maybe nothing.now word.now }
{
    if word == nothing {
        Some(None)
    } else {
        Some(Some(shortest(word)?))
    }
}

// An open row, if it has a start and a value.
fn open_row_of(start: Option<i64>, value: Option<i64>) -> Option<OpenRow>
    ensures { result ≡ open_row_of start value }
{
    match (start, value) {
        (Some(start), Some(value)) => Some(OpenRow { start, value }),
        _ => None,
    }
}

// A reading, if it has a tick.
fn latest_of(tick: Option<i64>, value: Option<i64>) -> Option<Reading>
    ensures { result ≡ latest_of tick value }
{
    Some(Reading { tick: tick?, value })
}
