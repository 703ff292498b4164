// Query files in units, loaded from a shelf in memory, and what they emit.
use crate::files::{BAD_FILES, BadFile, FILES, FileCase};
use crate::reading::scales_of;
use std::alloc::Global;
use std::test::Fail;
use tilt_outside::{MemShelf, MemSink};
use tilt_row_text::{RowStyle, Times, write_row};
use tilt_stream::Snap;
use tilt_testing::inputs_of;
use tilt_unit_load::{LoadedUnits, UnitLoadFault, load_in_units};

// The query that a file is.
fn load(
    alloc: Global,
    file: &str,
    given: &[(&str, u64)],
) -> Result<Result<LoadedUnits, UnitLoadFault<'static>>, Fail> {
    let mut shelf = MemShelf::new(alloc);
    shelf.hold("query.tilt", file.as_bytes(), 0)?;
    let scales = scales_of(alloc, given)?;
    Ok(load_in_units(alloc, &mut shelf, "query.tilt", &scales, true))
}

// Adds the line of a snapshot with so many decimals, unless it is null.
fn push_line(lines: &mut String, decimals: u8, snap: &Snap) -> Result<(), Fail> {
    if snap.value.is_none() {
        return Ok(());
    }
    let style = RowStyle {
        times: Times::Ticks,
        decimals,
    };
    let mut room = [0u8; 256];
    let end = write_row(style, snap, &mut room);
    lines.push_str(str::from_utf8(&room[..end]).map_err(|_| "no text")?)?;
    Ok(())
}

// The lines that a query emits.
fn lines_of(alloc: Global, case: &FileCase) -> Result<String, Fail> {
    let (file, given, inputs, _) = case;
    let Ok(loaded) = load(alloc, file, given)? else {
        return Err("a fault".into());
    };
    let rows = inputs_of(alloc, inputs)?;
    if rows.len() != loaded.accepted.core().inputs().len() {
        return Err("other inputs".into());
    }
    let domain = loaded.accepted.domain();
    let list = loaded
        .accepted
        .run_on(alloc, rows, domain.start, domain.end)?;
    let mut lines = String::new(alloc);
    for snap in list.as_slice() {
        push_line(&mut lines, loaded.decimals, snap)?;
    }
    Ok(lines)
}

#[test]
fn files_in_units_emit_values_in_units(rt: HostRuntime) -> Result<(), Fail> {
    let alloc = rt.alloc();
    for case in FILES {
        let lines = lines_of(alloc, case)?;
        assert_eq!(rt; lines.as_str(), case.3);
    }
    Ok(())
}

// The line that reports why a file is rejected.
fn report_of(alloc: Global, case: &BadFile) -> Result<MemSink, Fail> {
    let (file, given, _) = case;
    let mut err = MemSink::new(alloc, 200)?;
    match load(alloc, file, given)? {
        Ok(_) => Err("no fault".into()),
        Err(why) => {
            if why.status() != 1 {
                return Err("another status".into());
            }
            if why.put(&mut err).is_err() {
                return Err("no line".into());
            }
            Ok(err)
        }
    }
}

#[test]
fn faults_of_files_in_units_are_reported(rt: HostRuntime) -> Result<(), Fail> {
    let alloc = rt.alloc();
    for case in BAD_FILES {
        let err = report_of(alloc, case)?;
        assert_eq!(rt; err.written(), case.2.as_bytes());
    }
    Ok(())
}
