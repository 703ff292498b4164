ghost use Rattle.std.specs.Prelude.{◌≡◌};
ghost use Rattle.std.specs.Option.{option_to_list};
ghost use Rattle.tilt_edits.specs.Edited.{end_of, input_of, put_of, start_of};

use tilt_stream::Row;

/// A correction of the rows of an input, which is counted from 0.
#[derive(Debug, Drop, PartialEq, Eq)]
pub enum Edit {
    /// One row more, which has no tick in common with another.
    Add { input: u32, row: Row },
    /// The row on `(start, end]` is removed. The times are ticks.
    Remove { input: u32, start: i64, end: i64 },
    /// The row of exactly these times gets this value.
    Set { input: u32, row: Row },
}

impl Edit {
    /// The input that it is of.
    pub fn input(&self) -> u32
        ensures { result ≡ input_of self.now }
    {
        match self {
            Edit::Add { input, .. } => *input,
            Edit::Remove { input, .. } => *input,
            Edit::Set { input, .. } => *input,
        }
    }

    /// The tick before the first one of its row.
    pub fn start(&self) -> i64
        ensures { result ≡ start_of self.now }
    {
        match self {
            Edit::Add { row, .. } => row.start,
            Edit::Remove { start, .. } => *start,
            Edit::Set { row, .. } => row.start,
        }
    }

    /// The last tick of its row.
    pub fn end(&self) -> i64
        ensures { result ≡ end_of self.now }
    {
        match self {
            Edit::Add { row, .. } => row.end,
            Edit::Remove { end, .. } => *end,
            Edit::Set { row, .. } => row.end,
        }
    }

    /// The row that it writes; `None` for an edit that removes one.
    pub fn put(&self) -> Option<Row>
        ensures { option_to_list result ≡ put_of self.now }
    {
        match self {
            Edit::Add { row, .. } => Some(*row),
            Edit::Remove { .. } => None,
            Edit::Set { row, .. } => Some(*row),
        }
    }
}
