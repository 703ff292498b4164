// The one call over files and sinks in memory. Each file that fits one read takes two: the second finds its end.
use std::alloc::Global;
use std::process::Abort;
use std::test::Fail;
use tilt_app::tilt;
use tilt_outside::{MemShelf, MemSink};
use tilt_watch::Watcher;

pub const WORDS: &str = "run\nq\nx=s";

pub const QUERY: &[u8] = b"input x; emit x over (0, 10];\n";

pub const SERIES: &[u8] = b"start,end,value\n0,5,7\n6,8,9\n";

// The name of a file, and what it holds.
pub type File<'a> = (&'a str, &'a [u8]);

// The numbers of the read, of the write of the output and of the write of the line that fail, and 0 for none.
#[derive(Drop)]
pub struct Failing {
    pub read: u64,
    pub put: u64,
    pub line: u64,
}

pub const NONE: Failing = Failing {
    read: 0,
    put: 0,
    line: 0,
};

// What the call leaves.
#[derive(Drop)]
pub struct End {
    pub status: u8,
    pub out: MemSink,
    pub err: MemSink,
}

pub fn words_of(alloc: Global, words: &str) -> Result<Vec<String>, Fail> {
    let mut list = Vec::new(alloc);
    for word in words.lines() {
        list.push(String::from_str(alloc, word)?)?;
    }
    Ok(list)
}

pub fn shelf_of(alloc: Global, files: &[File<'_>], failing: u64) -> Result<MemShelf, Fail> {
    let mut shelf = MemShelf::new(alloc);
    for (name, bytes) in files {
        shelf.hold(name, bytes, 0)?;
    }
    shelf.fail_at(failing)?;
    Ok(shelf)
}

pub fn sink_of(alloc: Global, failing: u64) -> Result<MemSink, Fail> {
    let mut sink = MemSink::new(alloc, 1000)?;
    sink.fail_at(failing)?;
    Ok(sink)
}

// What the call leaves if nobody watches.
pub fn end_of(
    alloc: Global,
    words: &str,
    files: &[File<'_>],
    failing: &Failing,
) -> Result<End, Fail> {
    let mut shelf = shelf_of(alloc, files, failing.read)?;
    end_over(alloc, words, &mut shelf, failing)
}

// What the call leaves over a shelf if nobody watches.
pub fn end_over(
    alloc: Global,
    words: &str,
    shelf: &mut MemShelf,
    failing: &Failing,
) -> Result<End, Fail> {
    let mut watchers = Vec::new(alloc);
    end_beside(alloc, words, shelf, failing, &mut watchers)
}

// What the call leaves over a shelf beside watchers.
pub fn end_beside(
    alloc: Global,
    words: &str,
    shelf: &mut MemShelf,
    failing: &Failing,
    watchers: &mut Vec<Box<dyn Watcher>>,
) -> Result<End, Fail> {
    let words = words_of(alloc, words)?;
    let mut out = sink_of(alloc, failing.put)?;
    let mut err = sink_of(alloc, failing.line)?;
    let status = tilt(alloc, &words, shelf, &mut out, &mut err, watchers);
    Ok(End { status, out, err })
}

// Ends the test unless the call ends so: its status, its output and its line.
pub fn assert_end(rt: &impl Abort, end: &End, status: u8, out: &[u8], err: &[u8], case: usize) {
    let found = (end.status, end.out.written(), end.err.written());
    assert_eq!(rt; found, (status, out, err), "case {case}");
}
