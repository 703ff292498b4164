// Texts that begin with what is kept of a text of readings, and texts that don't.
use std::alloc::Global;
use std::process::Abort;
use std::test::Fail;
use tilt_conventions::{KeptConverter, Reading};
use tilt_feed::{Edge, OpenRow};
use tilt_reading_feed::KeptReadings;
use tilt_reading_state::{KeptFault, decode_kept, encode_kept, is_in_range};
use tilt_reading_text::KeptText;

// Of the first input a row is open and readings were skipped; the latest reading of the second one has no value.
const WHOLE: &str = "columns 4 time 0 places 2\nplace 3\nplace 1\nfinished no\ninputs 2\n\
    watermark 41 open 37 value -5 mark 40 latest 41 reading 8 skipped 3\n\
    watermark -9 open none value none mark -9 latest -8 reading none skipped 0\n";

// A feed without inputs that is finished, whose names and values have columns.
const NAMED: &str = "columns 3 time 2 named 0 value 1\nfinished yes\ninputs 0\n";

// A feed before its header, whose only input has no reading.
const FIRST: &str = "no columns\nfinished no\ninputs 1\n\
    watermark -4000000000000000000 open none value none mark -4000000000000000000 latest none reading none skipped 0\n";

// No columns of inputs.
const NO_PLACES: &str = "columns 1 time 0 places 0\nfinished no\ninputs 0\n";

// Numbers at the edges of 64 bits, and the first and the last tick of a reading.
const EDGES: &str =
    "columns 9223372036854775807 time 9223372036854775807 named 9223372036854775807 value 0\nfinished no\ninputs 2\n\
    watermark -9223372036854775808 open 9223372036854775807 value -9223372036854775808 mark 9223372036854775807 \
    latest 4000000000000000000 reading -9223372036854775808 skipped 9223372036854775807\n\
    watermark 9223372036854775807 open -9223372036854775808 value 9223372036854775807 mark -9223372036854775808 \
    latest -3999999999999999999 reading 9223372036854775807 skipped 0\n";

// A part of the first text, and what makes it begin with nothing that is kept in its place.
const REPLACED: &[(&str, &str)] = &[
    // Numbers that aren't spelled in the shortest way, that are too large, or that aren't there.
    ("columns 4", "columns 04"),
    ("columns 4", "columns -4"),
    ("columns 4", "columns 9223372036854775808"),
    ("place 3", "place +3"),
    ("mark 40", "mark 9223372036854775808"),
    ("mark 40", "mark none"),
    ("reading 8", "reading -0"),
    ("skipped 3", "skipped 9223372036854775808"),
    ("skipped 3", "skipped none"),
    // Words that are missing or others.
    ("columns 4", "column 4"),
    ("columns 4 time 0 places 2\n", "no places\n"),
    ("time 0", "times 0"),
    ("places 2", "place 2"),
    ("finished no", "finished maybe"),
    ("inputs 2\n", "inputs\n"),
    ("reading 8", "value 8"),
    // An open row without a value or without a start, and a value without a tick.
    ("value -5", "value none"),
    ("open 37", "open none"),
    ("latest 41", "latest none"),
    // A tick that no reading has.
    ("latest 41", "latest 4000000000000000001"),
    ("latest -8", "latest -4000000000000000000"),
    // Fewer places and more of them than there are, more inputs, and a text that is cut off.
    ("places 2", "places 1"),
    ("places 2", "places 3"),
    ("inputs 2", "inputs 3"),
    ("skipped 0\n", "skipped 0"),
];

// The text is read back, whatever comes after it.
fn is_read_back<R: Abort>(alloc: Global, rt: &R, text: &str, rest: &str) -> Result<(), Fail> {
    let whole = format!(in alloc; "{text}{rest}")?;
    match decode_kept(alloc, whole.as_bytes()) {
        Ok((kept, count)) => {
            assert_eq!(rt; count, text.len());
            let mut again = Vec::new(alloc);
            encode_kept(&kept, &mut again)?;
            assert_eq!(rt; again.as_slice(), text.as_bytes());
        }
        Err(_fault) => assert!(rt; false),
    }
    Ok(())
}

fn is_not_kept<R: Abort>(alloc: Global, rt: &R, old: &str, new: &str) -> Result<(), Fail> {
    let (front, back) = WHOLE.split_once(old).ok_or("no such part")?;
    let text = format!(in alloc; "{front}{new}{back}")?;
    match decode_kept(alloc, text.as_bytes()) {
        Ok(_found) => assert!(rt; false),
        Err(fault) => assert_eq!(rt; fault, KeptFault::NotKept),
    }
    Ok(())
}

#[test]
fn what_is_kept_of_readings_is_read_back(rt: HostRuntime) -> Result<(), Fail> {
    for text in &[WHOLE, NAMED, FIRST, NO_PLACES, EDGES] {
        is_read_back(rt.alloc(), &rt, text, "")?;
        is_read_back(rt.alloc(), &rt, text, "end\n")?;
        is_read_back(rt.alloc(), &rt, text, WHOLE)?;
    }
    Ok(())
}

#[test]
fn other_texts_are_not_kept(rt: HostRuntime) -> Result<(), Fail> {
    for (old, new) in REPLACED {
        is_not_kept(rt.alloc(), &rt, old, new)?;
    }
    Ok(())
}

#[test]
fn each_field_of_an_input(rt: HostRuntime) -> Result<(), Fail> {
    match decode_kept(rt.alloc(), WHOLE.as_bytes()) {
        Ok((kept, _count)) => {
            let kept = &kept;
            let input = kept.readings.inputs.first().ok_or("no input")?;
            let open_row = Some(OpenRow {
                start: 37,
                value: -5,
            });
            let watermark = 41;
            assert_eq!(rt;
                input.edge,
                Edge {
                    open_row,
                    watermark
                }
            );
            assert_eq!(rt; input.mark, 40);
            let value = Some(8);
            assert_eq!(rt; input.latest, Some(Reading { tick: 41, value }));
            assert_eq!(rt; input.skipped, 3);
            assert!(rt; !kept.readings.finished);
        }
        Err(_fault) => assert!(rt; false),
    }
    Ok(())
}

// What is kept of a text before its header, of whose input so many readings were skipped.
fn kept_with(alloc: Global, skipped: u64) -> Result<KeptText, Fail> {
    let mut inputs = Vec::new(alloc);
    let edge = Edge {
        open_row: None,
        watermark: -9,
    };
    inputs.push(KeptConverter {
        edge,
        mark: -9,
        latest: None,
        skipped,
    })?;
    let finished = false;
    Ok(KeptText {
        columns: None,
        readings: KeptReadings { inputs, finished },
    })
}

// Whether it is in range, and whether it is read back.
fn is_kept(alloc: Global, skipped: u64) -> Result<(bool, bool), Fail> {
    let kept = kept_with(alloc, skipped)?;
    let mut text = Vec::new(alloc);
    encode_kept(&kept, &mut text)?;
    let is_read = decode_kept(alloc, text.as_slice()).is_ok();
    Ok((is_in_range(&kept), is_read))
}

#[test]
fn counts_from_2_to_the_63rd_on_are_out_of_range(rt: HostRuntime) -> Result<(), Fail> {
    assert_eq!(rt; is_kept(rt.alloc(), (1 << 63) - 1)?, (true, true));
    assert_eq!(rt; is_kept(rt.alloc(), 1 << 63)?, (false, false));
    assert_eq!(rt; is_kept(rt.alloc(), u64::MAX)?, (false, false));
    Ok(())
}
