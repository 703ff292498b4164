// The bytes of a checkpoint, from a place on, and the pieces that they begin with.
ghost use Rattle.std.specs.Prelude.{◌≡◌, MatchOption};
ghost use Rattle.tilt_checkpoint.specs.Reading.{behind, behind_line, count_at, maybe, maybe_at, moment_at, number_at, own_cut_at};
ghost use Rattle.tilt_checkpoint.specs.Reading.{query_at, row_at, series_head, times, version_at, version_of, Reads};
ghost use Rattle.tilt_text.specs.Cut.{until_at};

use crate::version::Version;
use std::marker::Model;
use tilt_stream::{Row, Snap};
use tilt_text::{shortest, until};

// The bytes that are left. A clause sees them as a list.
#[derive(Drop)]
pub(crate) struct Reader<'a> {
    left: &'a [u8],
}

impl<'a> Model for Reader<'a> {
    ghost use Rattle.std.specs.Prelude.{List, ℕ};

    ghost Value = { List ℕ };

    ghost view = { λ r. r.left.now };
}

impl<'a> Reader<'a> {
    // All of the bytes.
    pub(crate) fn new(bytes: &'a [u8]) -> Reader<'a>
        ensures { result ≡ bytes.now }
    {
        Reader { left: bytes }
    }

    // The bytes that are left.
    pub(crate) fn left(&self) -> &'a [u8]
        ensures { result.now ≡ self.now }
    {
        self.left
    }

    // Passes a text with which the bytes begin.
    pub(crate) fn pass(&mut self, text: &[u8]) -> Option<()>
        ensures { MatchOption result (behind text.now self.old ≡ None) (λ _. behind text.now self.old ≡ Some self.new) }
    {
        self.left = self.left.strip_prefix(text)?;
        Some(())
    }

    // The bytes up to the first mark, which is also passed.
    pub(crate) fn until(&mut self, mark: u8) -> Option<&'a [u8]>
        ensures { MatchOption result (until_at mark self.old ≡ None) (λ word. until_at mark self.old ≡ Some (word.now, self.new)) }
    {
        let (word, left) = until(self.left, mark)?;
        self.left = left;
        Some(word)
    }

    // The number up to the mark.
    pub(crate) fn number(&mut self, mark: u8) -> Option<i64>
        ensures { Reads (number_at mark self.old) result self.new }
    {
        shortest(self.until(mark)?)
    }

    // The count up to the mark.
    pub(crate) fn count(&mut self, mark: u8) -> Option<u64>
        ensures { Reads (count_at mark self.old) result self.new }
    {
        u64::try_from(self.number(mark)?).ok()
    }

    // The number up to the mark, or `None` if the word for nothing is there.
    fn maybe(&mut self, nothing: &[u8], mark: u8) -> Option<Option<i64>>
        ensures { Reads (maybe_at nothing.now mark self.old) result self.new }
    {
        maybe(nothing, self.until(mark)?)
    }

    // The version that the first line names.
    pub(crate) fn version(&mut self) -> Option<Version>
        ensures { Reads (version_at self.old) result self.new }
    {
        self.pass(b"tilt checkpoint ")?;
        version_of(self.until(b'\n')?)
    }

    // The number of the query's statements, and as many lines.
    pub(crate) fn query_lines(&mut self) -> Option<(u64, &'a [u8])>
        ensures { MatchOption result (query_at self.old ≡ None) (λ found. query_at self.old ≡ Some ((found.0, found.1.now), self.new)) }
    {
        self.pass(b"query ")?;
        let count = self.count(b'\n')?;
        let lines = self.left;
        self.pass_lines(count)?;
        let text = &lines[..lines.len() - self.left.len()];
        Some((count, text))
    }

    // Passes this number of lines.
    fn pass_lines(&mut self, count: u64) -> Option<()>
        ensures { MatchOption result (times behind_line count self.old ≡ None) (λ _. times behind_line count self.old ≡ Some self.new) }
    {
        for _ in 0..count {
            self.until(b'\n')?;
        }
        Some(())
    }

    // The row of a line.
    pub(crate) fn row(&mut self) -> Option<Row>
        ensures { Reads (row_at self.old) result self.new }
    {
        let start = self.number(b',')?;
        let end = self.number(b',')?;
        let value = self.maybe(b"", b'\n')?;
        if start < end {
            Some(Snap { start, end, value })
        } else {
            None
        }
    }

    // The cut of an input: its own, or in the first version the least, which is the cut of all.
    pub(crate) fn own_cut(&mut self, version: Version, least: i64) -> Option<i64>
        ensures { Reads (own_cut_at version least self.old) result self.new }
    {
        match version {
            Version::First => Some(least),
            Version::Second => {
                self.pass(b"cut ")?;
                self.number(b' ')
            }
        }
    }

    // The last end and the number of rows of a series.
    pub(crate) fn series_head(&mut self) -> Option<(Option<i64>, u64)>
        ensures { Reads (series_head self.old) result self.new }
    {
        self.pass(b"last ")?;
        let last_end = self.maybe(b"none", b' ')?;
        self.pass(b"rows ")?;
        let count = self.count(b'\n')?;
        Some((last_end, count))
    }

    // The least cut, and the start of the open snapshot.
    pub(crate) fn moment(&mut self) -> Option<(i64, Option<i64>)>
        ensures { Reads (moment_at self.old) result self.new }
    {
        self.pass(b"cut ")?;
        let cut = self.number(b'\n')?;
        self.pass(b"open ")?;
        let open_start = self.maybe(b"none", b'\n')?;
        Some((cut, open_start))
    }
}

// The version that a word names.
fn version_of(word: &[u8]) -> Option<Version>
    ensures { result ≡ version_of word.now }
{
    if word == b"1".as_slice() {
        Some(Version::First)
    } else if word == b"2".as_slice() {
        Some(Version::Second)
    } else {
        None
    }
}

// The number whose shortest decimal the word is, or `None` if it is the word for nothing.
fn maybe(nothing: &[u8], word: &[u8]) -> Option<Option<i64>>
    ensures { result ≡ maybe nothing.now word.now }
{
    if word == nothing {
        Some(None)
    } else {
        Some(Some(shortest(word)?))
    }
}
