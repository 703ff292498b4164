// Texts that are made whole before the first write.
ghost use Rattle.std.specs.Prelude.{length};
ghost use Rattle.std.specs.List.{flat_map};
ghost use Rattle.tilt_outside.specs.Written.{Puts};
ghost use Rattle.tilt_printed.specs.Reached.{corrected_text};
ghost use Rattle.tilt_printed.specs.Sizes.{parted_text, parts_line, size_text};
ghost use Rattle.tilt_printed.specs.Text.{whole_text};
ghost use Rattle.tilt_stream.specs.Text.{text_of};

use crate::reached::put_reached;
use itoa::Buffer;
use tilt_base::Span;
use tilt_outside::{Failed, Sink};
use tilt_series::{put_header, put_rows};
use tilt_stream::SnapList;

/// What a command prints that is made whole before the first write.
#[derive(Drop)]
pub enum WholeText {
    /// The text of these snapshots.
    Snapshots(SnapList),
    /// The text of these snapshots, and then the line of how many come from each part.
    Parted {
        list: SnapList,
        sizes: Vec<u64>,
    },
    /// The text of these snapshots, and then a line for each edit, by the ticks that it reached.
    Corrected {
        list: SnapList,
        reached: Vec<Option<Span>>,
    },
    /// The lines of these snapshots, without the header.
    Lines(SnapList),
    /// This text.
    Text(Vec<u8>),
}

impl WholeText {
    // Writes the text.
    pub(crate) fn put<O: Sink>(&self, out: &mut O) -> Result<(), Failed>
        requires { O.takes out.old (length (whole_text self.now)) }
        ensures { Puts O.tells O.written O.faults O.takes out.old out.new (whole_text self.now) result }
    {
        match self {
            WholeText::Snapshots(list) => put_text(out, list),
            WholeText::Parted { list, sizes } => put_parted(out, list, sizes),
            WholeText::Corrected { list, reached } => put_corrected(out, list, reached),
            WholeText::Lines(list) => put_rows(out, list),
            WholeText::Text(text) => out.put(text),
        }
    }
}

// Writes the text of snapshots.
fn put_text<O: Sink>(out: &mut O, list: &SnapList) -> Result<(), Failed>
    requires { O.takes out.old (length (text_of list.now)) }
    ensures { Puts O.tells O.written O.faults O.takes out.old out.new (text_of list.now) result }
{
    put_header(out)?;
    put_rows(out, list)
}

// Writes the text of snapshots, and then a line for each edit.
fn put_corrected<O: Sink>(
    out: &mut O,
    list: &SnapList,
    reached: &[Option<Span>],
) -> Result<(), Failed>
    requires { O.takes out.old (length (corrected_text list.now reached.now)) }
    ensures { Puts O.tells O.written O.faults O.takes out.old out.new (corrected_text list.now reached.now) result }
{
    put_text(out, list)?;
    put_reached(out, reached)
}

// Writes the text of snapshots, and then the line of sizes.
fn put_parted<O: Sink>(out: &mut O, whole: &SnapList, sizes: &[u64]) -> Result<(), Failed>
    requires { O.takes out.old (length (parted_text whole.now sizes.now)) }
    ensures { Puts O.tells O.written O.faults O.takes out.old out.new (parted_text whole.now sizes.now) result }
{
    put_text(out, whole)?;
    put_line(out, sizes)
}

// Writes the line `parts N N ..`.
fn put_line<O: Sink>(out: &mut O, sizes: &[u64]) -> Result<(), Failed>
    requires { O.takes out.old (length (parts_line sizes.now)) }
    ensures { Puts O.tells O.written O.faults O.takes out.old out.new (parts_line sizes.now) result }
{
    out.put(b"parts")?;
    put_sizes(out, sizes)?;
    out.put(b"\n")
}

// Writes a blank and a number for each size.
fn put_sizes<O: Sink>(out: &mut O, sizes: &[u64]) -> Result<(), Failed>
    requires { O.takes out.old (length (flat_map size_text sizes.now)) }
    ensures { Puts O.tells O.written O.faults O.takes out.old out.new (flat_map size_text sizes.now) result }
{
    for size in sizes {
        put_size(out, *size)?;
    }
    Ok(())
}

// Writes a blank and a number.
fn put_size<O: Sink>(out: &mut O, size: u64) -> Result<(), Failed>
    requires { O.takes out.old (length (size_text size)) }
    ensures { Puts O.tells O.written O.faults O.takes out.old out.new (size_text size) result }
{
    let mut buffer = Buffer::new();
    out.put(b" ")?;
    out.put(buffer.format(size).as_bytes())
}
