// Feeds with keys, cut into two pieces, and what is written and reported for them.

use std::alloc::Global;
use std::test::Fail;
use tilt_compiler::accept;
use tilt_live_keys::{KeyRecipe, KeyedLive};
use tilt_live_run::Display;
use tilt_outside::MemSink;
use tilt_port::MemPort;
use tilt_row_text::{RowStyle, Times};
use tilt_serving::{FeedRun, Stop};
use tilt_testing::core_of;
use tilt_watermarks::Options;

// The input itself, for each key, with at most two keys.
fn make_recipe(alloc: Global, strict: bool) -> Result<KeyRecipe, Fail> {
    let core = core_of(alloc, "input x;\nemit x over (0, 30];")?;
    Ok(KeyRecipe {
        accepted: accept(alloc, core, true)?,
        fuse: true,
        display: Display {
            with_begun: false,
            style: RowStyle {
                times: Times::Ticks,
                decimals: 0,
            },
        },
        options: Options {
            idle: None,
            ahead: None,
            lateness: None,
        },
        strict,
        max_keys: 2,
    })
}

// Runs a feed that comes in two pieces to its end.
fn take_pieces(
    alloc: Global,
    recipe: KeyRecipe,
    pieces: (&[u8], &[u8]),
    port: &mut MemPort,
    err: &mut MemSink,
) -> Result<(), Stop> {
    let mut run = KeyedLive::start(alloc, recipe, port)?;
    run.feed(alloc, pieces.0, port, err)?;
    run.feed(alloc, pieces.1, port, err)?;
    run.end_feed(err)
}

// A header, a row of each key, a line of every key that is known up to tick 25, and so a late row. Then come a blank line, a line that is
// no row, one without a key, a row, and a key in quotes.
const FEED: &[u8] = b"key,name,start,end,value
a,x,0,10,5
b,x,0,20,7
,x,,25,
b,x,2,4,1

b,nonsense
no key
b,x,26,30,9
\"a\",x,26,27,1
";

const OUTPUT: &[u8] = b"key,start,end,value
a,0,10,5
b,0,20,7
b,26,30,9
";

const REPORTS: &[u8] = b"tilt: 82 line 5: late
tilt: 71 line 7: not 4 fields
tilt: 86 line 8: no key
tilt: 87 line 10: bad key
";

#[test]
fn pieces_do_not_matter(rt: HostRuntime) -> Result<(), Fail> {
    for cut in [0, 26, 30, 60, 80] {
        let mut port = MemPort::new(rt.alloc(), 500, 0)?;
        let mut err = MemSink::new(rt.alloc(), 500)?;
        let recipe = make_recipe(rt.alloc(), false)?;
        let ended = take_pieces(rt.alloc(), recipe, FEED.split_at(cut), &mut port, &mut err);
        assert_eq!(rt; ended, Ok(()));
        assert_eq!(rt; port.written(), OUTPUT);
        assert_eq!(rt; err.written(), REPORTS);
    }
    Ok(())
}

#[test]
fn a_new_key_starts_with_the_last_line_of_every_key(rt: HostRuntime) -> Result<(), Fail> {
    let mut port = MemPort::new(rt.alloc(), 500, 0)?;
    let mut err = MemSink::new(rt.alloc(), 500)?;
    let feed = (
        b",x,,25,\na,x,2,4,1\n".as_slice(),
        b"a,x,25,30,3\nb".as_slice(),
    );
    let recipe = make_recipe(rt.alloc(), false)?;
    let ended = take_pieces(rt.alloc(), recipe, feed, &mut port, &mut err);
    assert_eq!(rt; ended, Ok(()));
    assert_eq!(rt;
        port.written(),
        b"key,start,end,value\na,25,30,3\n".as_slice()
    );
    assert_eq!(rt;
        err.written(),
        b"tilt: 82 line 2: late\ntilt: 78 line 4: no end of line\n".as_slice()
    );
    Ok(())
}

#[test]
fn a_bad_line_of_every_key_stops_a_strict_run(rt: HostRuntime) -> Result<(), Fail> {
    let mut port = MemPort::new(rt.alloc(), 500, 0)?;
    let mut err = MemSink::new(rt.alloc(), 500)?;
    // The row is late for `b` alone, and would be final for `a`.
    let feed = (
        b"a,x,0,10,5\nb,x,0,20,7\n".as_slice(),
        b"a,x,10,15,4\n,x,15,20,6\na,x,20,30,1\n".as_slice(),
    );
    let recipe = make_recipe(rt.alloc(), true)?;
    let ended = take_pieces(rt.alloc(), recipe, feed, &mut port, &mut err);
    assert_eq!(rt; ended, Err(Stop::BadLine));
    assert_eq!(rt;
        port.written(),
        b"key,start,end,value\na,0,10,5\nb,0,20,7\na,10,15,4\n".as_slice()
    );
    assert_eq!(rt; err.written(), b"tilt: 82 line 4: late\n".as_slice());
    Ok(())
}

#[test]
fn a_key_too_many_stops_a_run(rt: HostRuntime) -> Result<(), Fail> {
    let mut port = MemPort::new(rt.alloc(), 500, 0)?;
    let mut err = MemSink::new(rt.alloc(), 500)?;
    let feed = (
        b"a,x,0,10,5\nb,x,0,20,7\n".as_slice(),
        b"a,x,10,15,4\nc,x,0,30,6\na,x,20,30,1\n".as_slice(),
    );
    let recipe = make_recipe(rt.alloc(), false)?;
    let ended = take_pieces(rt.alloc(), recipe, feed, &mut port, &mut err);
    assert_eq!(rt; ended, Err(Stop::TooManyKeys));
    assert_eq!(rt;
        port.written(),
        b"key,start,end,value\na,0,10,5\nb,0,20,7\na,10,15,4\n".as_slice()
    );
    assert_eq!(rt; err.written(), b"".as_slice());
    Ok(())
}
