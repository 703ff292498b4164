// Sinks in memory and over writers.
use std::alloc::Global;
use std::cell::Cell;
use std::io::{self, ErrorKind, Write};
use std::test::Fail;
use tilt_outside::{BufferedSink, Failed, MemSink, Sink, StdSink};

// Through the trait alone.
fn put_each<S: Sink>(sink: &mut S, pieces: &[&[u8]]) -> usize
    requires { (any : _) (n : _) → S.takes any n }
{
    let mut failed = 0usize;
    for piece in pieces {
        if sink.put(piece).is_err() {
            failed = failed.saturating_add(1);
        }
    }
    failed
}

const PIECES: &[&[u8]] = &[b"abc", b"de", b"", b"fghi"];

// The room, the call that fails, what is written, and how many writes fail.
const PUTS: &[(usize, u64, &[u8], usize)] = &[
    (20, 9, b"abcdefghi", 0),
    (9, 9, b"abcdefghi", 0),
    (8, 9, b"abcdefg", 1),
    (6, 9, b"abcdef", 1),
    (20, 2, b"abcdfghi", 1),
    (0, 3, b"", 4),
];

#[test]
fn puts_within_past_and_at_the_end_of_the_room(rt: HostRuntime) -> Result<(), Fail> {
    for (room, call, written, failed) in PUTS {
        let mut sink = MemSink::new(rt.alloc(), *room)?;
        sink.fail_at(*call)?;
        let count = put_each(&mut sink, PIECES);
        assert_eq!(rt; count, *failed, "room {room}, call {call}");
        assert_eq!(rt; sink.written(), *written, "room {room}, call {call}");
    }
    Ok(())
}

#[test]
fn a_flush_is_a_call_that_keeps_what_was_put(rt: HostRuntime) -> Result<(), Fail> {
    let mut sink = MemSink::new(rt.alloc(), 9)?;
    sink.fail_at(3)?;
    assert_eq!(rt; sink.put(b"abc"), Ok(()));
    assert_eq!(rt; sink.flush(), Ok(()));
    assert_eq!(rt; sink.flush(), Err(Failed));
    assert_eq!(rt; sink.flush(), Ok(()));
    assert_eq!(rt; sink.written(), b"abc".as_slice());
    Ok(())
}

// Counts what it is given, and fails from a byte on.
#[derive(Drop)]
struct CountingWriter<'a> {
    taken: &'a Cell<usize>,
    most: usize,
}

impl Write for CountingWriter<'_> {
    fn write(&mut self, bytes: &[u8]) -> io::Result<usize> {
        let count = bytes.len().min(self.most.saturating_sub(self.taken.get()));
        if count == 0 {
            return Err(io::Error::from(ErrorKind::StorageFull));
        }
        self.taken.set(self.taken.get().saturating_add(count));
        Ok(count)
    }

    fn flush(&mut self) -> io::Result<()> {
        Ok(())
    }
}

#[test]
fn pieces_are_held_back_until_the_flush(rt: HostRuntime) -> Result<(), Fail> {
    let taken = Cell::new(0usize);
    let writer = CountingWriter {
        taken: &taken,
        most: 8,
    };
    let mut sink = BufferedSink::new(rt.alloc(), writer)?;
    assert_eq!(rt; sink.put(b"piece"), Ok(()));
    assert_eq!(rt; taken.get(), 0);
    assert_eq!(rt; sink.flush(), Ok(()));
    assert_eq!(rt; taken.get(), 5);
    assert_eq!(rt; sink.put(b"piece"), Ok(()));
    assert_eq!(rt; sink.flush(), Err(Failed));
    assert_eq!(rt; taken.get(), 8);
    Ok(())
}

#[derive(Clone, Copy)]
enum Answer {
    Takes(usize),
    Interrupted,
    Fails,
}

// Returns the given answers, and then takes all.
#[derive(Drop)]
struct ToldWriter {
    answers: Vec<Answer>,
    taken: Vec<u8>,
}

impl Write for ToldWriter {
    fn write(&mut self, bytes: &[u8]) -> io::Result<usize> {
        let count = match self.answers.pop() {
            None => bytes.len(),
            Some(Answer::Takes(count)) => count.min(bytes.len()),
            Some(Answer::Interrupted) => return Err(io::Error::from(ErrorKind::Interrupted)),
            Some(Answer::Fails) => return Err(io::Error::from(ErrorKind::Other)),
        };
        self.taken.extend_from_slice(&bytes[..count])?;
        Ok(count)
    }

    fn flush(&mut self) -> io::Result<()> {
        Ok(())
    }
}

// Takes all, and fails if it is flushed.
#[derive(Drop)]
struct UnflushedWriter;

impl Write for UnflushedWriter {
    fn write(&mut self, bytes: &[u8]) -> io::Result<usize> {
        Ok(bytes.len())
    }

    fn flush(&mut self) -> io::Result<()> {
        Err(io::Error::from(ErrorKind::Other))
    }
}

#[test]
fn a_flush_reaches_the_writer(rt: HostRuntime) -> Result<(), Fail> {
    let mut sink = StdSink::new(UnflushedWriter);
    assert_eq!(rt; sink.put(b"piece"), Ok(()));
    assert_eq!(rt; sink.flush(), Err(Failed));
    let mut sink = BufferedSink::new(rt.alloc(), UnflushedWriter)?;
    assert_eq!(rt; sink.put(b"piece"), Ok(()));
    assert_eq!(rt; sink.flush(), Err(Failed));
    Ok(())
}

// The answers, of which the last one comes first, what is taken, and whether a fault is reported.
const TOLD: &[(&[Answer], &[u8], bool)] = &[
    (&[], b"piece", false),
    (
        &[Answer::Takes(1), Answer::Takes(1), Answer::Takes(1)],
        b"piece",
        false,
    ),
    (&[Answer::Interrupted], b"piece", false),
    (&[Answer::Takes(0), Answer::Takes(2)], b"pi", true),
    (
        &[Answer::Fails, Answer::Interrupted, Answer::Takes(4)],
        b"piec",
        true,
    ),
];

// What a writer takes of a piece, what is reported, and what is reported of no bytes after it.
fn put_told(alloc: Global, answers: &[Answer]) -> Result<(Vec<u8>, [Result<(), Failed>; 2]), Fail> {
    let mut writer = ToldWriter {
        answers: answers.to_vec(alloc)?,
        taken: Vec::new(alloc),
    };
    let mut sink = StdSink::new(&mut writer);
    let told = [sink.put(b"piece"), sink.put(b"")];
    Ok((writer.taken, told))
}

#[test]
fn pieces_are_written_whole_or_the_fault_is_told(rt: HostRuntime) -> Result<(), Fail> {
    for (answers, want, fails) in TOLD {
        let (taken, [piece, none]) = put_told(rt.alloc(), answers)?;
        assert_eq!(rt; piece.is_err(), *fails, "{want:?}");
        assert_eq!(rt; none, Ok(()), "{want:?}");
        assert_eq!(rt; taken.as_slice(), *want);
    }
    Ok(())
}
