ghost use Rattle.std.specs.Prelude.{IfOk};

use std::alloc::{AllocError as OutOfMemory, Global};

/// How the columns of a record of readings are titled. White space around a title is skipped.
#[derive(Debug, Drop)]
pub enum Titles {
    /// A record is a reading of one input: a column has its name, and another one its value.
    Named {
        time: Vec<u8>,
        name: Vec<u8>,
        value: Vec<u8>,
    },
    /// A record has a value for each input: the title of its column is its name. There may be other columns.
    OfInputs {
        time: Vec<u8>,
    },
}

/// Where the fields of a record are. Places are counted from 0.
#[derive(Debug, Drop)]
pub struct Columns {
    /// How many fields a record has.
    pub count: usize,
    /// Where its time is.
    pub time: usize,
    /// Where its values are.
    pub values: ValueColumns,
}

/// Where the values are.
#[derive(Debug, Drop)]
pub enum ValueColumns {
    /// The name of an input, and its value.
    Named { name: usize, value: usize },
    /// The value of each input, in the order of the inputs.
    OfInputs { places: Vec<usize> },
}

impl Columns {
    ghost use Rattle.std.specs.Prelude.{◌≡◌};
    ghost use Rattle.tilt_reading_lines.specs.Rules.{layout_of};

    /// The same columns. `OutOfMemory` comes if memory runs out, and for no other reason.
    pub fn copy(&self, alloc: Global) -> Result<Columns, OutOfMemory>
        ensures { IfOk result (λ columns. layout_of columns ≡ layout_of self.now) }
    {
        let values = self.values.copy(alloc)?;
        Ok(Columns {
            count: self.count,
            time: self.time,
            values,
        })
    }
}

impl ValueColumns {
    ghost use Rattle.std.specs.Prelude.{◌≡◌};
    ghost use Rattle.tilt_reading_lines.specs.Rules.{values_of};

    // The same places.
    fn copy(&self, alloc: Global) -> Result<ValueColumns, OutOfMemory>
        ensures { IfOk result (λ values. values_of values ≡ values_of self.now) }
    {
        match self {
            ValueColumns::Named { name, value } => Ok(ValueColumns::Named {
                name: *name,
                value: *value,
            }),
            ValueColumns::OfInputs { places } => {
                let mut copied = Vec::new(alloc);
                copied.extend_from_slice(places)?;
                Ok(ValueColumns::OfInputs { places: copied })
            }
        }
    }
}
