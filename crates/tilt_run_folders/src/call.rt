// The call of `tilt-live`, with all that it needs in memory.
ghost use Rattle.tilt_store.specs.Crash.{Only};
ghost use Rattle.tilt_store.specs.MemFolder.{mem_may_leave, mem_seen};

use std::alloc::Global;
use std::test::Fail;
use tilt_live_app::{Lived, live};
use tilt_outside::{MemShelf, MemSink};
use tilt_port::MemPort;
use tilt_store::{MemFolder, MemFolders};

// How many bytes a call writes or reports at most.
const ROOM: usize = 1 << 20;

// The arguments, one in each line.
pub(crate) fn words_of(alloc: Global, text: &str) -> Result<Vec<String>, Fail> {
    let mut words = Vec::new(alloc);
    for word in text.lines() {
        words.push(String::from_str(alloc, word)?)?;
    }
    Ok(words)
}

// The shelf with a query.
fn shelf_of(alloc: Global, query: &[u8]) -> Result<MemShelf, Fail> {
    let mut shelf = MemShelf::new(alloc);
    shelf.hold("q", query, 0)?;
    Ok(shelf)
}

// What a call prints for a feed, without a folder.
pub(crate) fn printed(alloc: Global, query: &[u8], feed: &[u8]) -> Result<Vec<u8>, Fail> {
    let mut port = MemPort::new(alloc, ROOM, 3)?;
    port.lend(feed)?;
    let folder = MemFolder::new(alloc, b"", b"", 0)?;
    let lived = call(alloc, "q", query, folder, &mut port)?;
    if lived.status != 0 {
        return Err(Fail::from("the call without a folder fails"));
    }
    Ok(port.written().to_vec(alloc)?)
}

// Makes a call with these arguments and this folder.
pub(crate) fn call(
    alloc: Global,
    words: &str,
    query: &[u8],
    folder: MemFolder,
    port: &mut MemPort,
) -> Result<Lived<MemFolder>, Fail>
    requires { Only (mem_seen folder) (mem_may_leave folder) }
{
    let words = words_of(alloc, words)?;
    let mut shelf = shelf_of(alloc, query)?;
    let mut folders = MemFolders::new(folder);
    let mut err = MemSink::new(alloc, ROOM)?;
    Ok(live(alloc, &words, &mut shelf, &mut folders, port, &mut err))
}
