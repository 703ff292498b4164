// The shelf and the sink that never fail.
use std::alloc::Global;
use std::test::Fail;
use tilt_outside::{Shelf, Sink, SureShelf, SureSink, read_all};

// Pieces, and the room after each.
const PIECES: &[(&[u8], usize)] = &[(b"abc", 6), (b"", 6), (b"defghi", 0), (b"", 0)];

#[test]
fn a_sure_sink_takes_what_it_has_room_for(rt: HostRuntime) -> Result<(), Fail> {
    let mut sink = SureSink::new(rt.alloc(), 9)?;
    for (piece, room) in PIECES {
        if piece.len() <= sink.room() {
            assert_eq!(rt; sink.put(piece), Ok(()));
        }
        assert_eq!(rt; sink.flush(), Ok(()));
        assert_eq!(rt; sink.room(), *room, "{piece:?}");
    }
    assert_eq!(rt; sink.written(), b"abcdefghi".as_slice());
    Ok(())
}

// A shelf of two files.
fn two_files(alloc: Global) -> Result<SureShelf, Fail> {
    let mut shelf = SureShelf::new(alloc);
    shelf.hold("a", b"four", 8)?;
    shelf.hold("b", b"other", 2)?;
    Ok(shelf)
}

// Names, what they hold, and the room that they have.
const HELD: &[(&str, &[u8], usize)] = &[("a", b"four", 8), ("b", b"other", 5), ("c", b"", 0)];

#[test]
fn a_sure_shelf_reads_what_it_holds(rt: HostRuntime) -> Result<(), Fail> {
    let mut shelf = two_files(rt.alloc())?;
    for (name, bytes, room) in HELD {
        let read = read_all(rt.alloc(), &mut shelf, name, 9)?;
        assert_eq!(rt; read.as_slice(), *bytes, "{name}");
        assert_eq!(rt; shelf.room(name), *room, "{name}");
    }
    Ok(())
}

#[test]
fn a_sure_shelf_reads_from_a_place_on(rt: HostRuntime) -> Result<(), Fail> {
    let mut shelf = two_files(rt.alloc())?;
    let mut room = [0u8; 2];
    for (at, count) in [(0, 2), (3, 1), (4, 0), (5, 0)] {
        assert_eq!(rt; shelf.read_at("a", at, &mut room), Ok(count), "{at}");
    }
    Ok(())
}

// The name, the bytes, what is held then, and the room that there is.
const SAVES: &[(&str, &[u8], Option<&[u8]>, usize)] = &[
    ("a", b"", Some(b""), 8),
    ("a", b"eight...", Some(b"eight..."), 8),
    ("b", b"fives", Some(b"fives"), 5),
    ("b", b"no", Some(b"no"), 5),
    ("c", b"", None, 0),
];

#[test]
fn a_sure_shelf_saves_what_it_has_room_for(rt: HostRuntime) -> Result<(), Fail> {
    for (name, bytes, held, room) in SAVES {
        let mut shelf = two_files(rt.alloc())?;
        if bytes.len() <= shelf.room(name) {
            assert_eq!(rt; shelf.save(name, bytes), Ok(()));
        }
        assert_eq!(rt; shelf.bytes(name), *held, "{name} {bytes:?}");
        assert_eq!(rt; shelf.room(name), *room, "{name} {bytes:?}");
    }
    Ok(())
}
