// The code of queries.
use std::alloc::Global;
use std::test::Fail;
use tilt_bounds::reach;
use tilt_code::list;
use tilt_fuse::plan;
use tilt_lower::lower;
use tilt_testing::core_of;

// The listing of the code of a query for its output domain.
fn listing_of(alloc: Global, text: &str, fuse: bool) -> Result<Vec<u8>, Fail> {
    let core = core_of(alloc, text)?;
    let margins = reach(alloc, &core)?;
    let loops = plan(alloc, &core, fuse)?;
    let domain = core.domain();
    let code = lower(alloc, &loops, &core, &margins, domain.start, domain.end)?;
    Ok(list(alloc, &code)?)
}

// A query, whether definitions are merged, and the listing.
const QUERIES: &[(&str, bool, &str)] = &[
    // A shift in a window.
    (
        "input x; let y = x[t-2]; emit sum(y[t-3:t]) over (0, 5];",
        false,
        "tilt 1\ninput x\nloop -2 5 1 0\nr0 = port b0 -2\nend\nloop 0 5 1 0\nr0 = win sum b1 -3 0\nend\n",
    ),
    (
        "input x; let y = x + 1; emit max(y[t-4:t]) over (0, 8];",
        false,
        "tilt 1\ninput x\nloop -3 8 1 0\nr0 = port b0 0\nr1 = const 1\nr2 = add r0 r1\nend\n\
         loop 0 8 1 0\nr0 = win max b1 -4 0\nend\n",
    ),
    // An unused definition has no buffer, a definition of which nothing is left is null, one is cut down to its span, and
    // one is on a grid.
    (
        "input x; input y; let u = y[t-5]; let z = x over (100, 200]; let v = x[t+3] over (-20, 2];
        let w = x every 5; emit if isnull(z) then w[t-1] + v[t-4] else -z over (0, 5];",
        false,
        "tilt 1\ninput x\ninput y\n\
         loop 0 5 1 0\nr0 = null\nend\n\
         loop -4 2 1 0\nr0 = port b0 3\nend\n\
         loop -1 5 5 0\nr0 = port b0 0\nend\n\
         loop 0 5 1 0\nr0 = port b2 0\nr1 = isnull r0\nr2 = port b4 -1\nr3 = port b3 -4\nr4 = add r2 r3\n\
         r5 = port b2 0\nr6 = neg r5\nr7 = if r1 r4 r6\nend\n",
    ),
    // A grid with an offset.
    (
        "input x; emit sum(x[t-5:t]) over (2, 12] every 5 from 2;",
        false,
        "tilt 1\ninput x\nloop 2 12 5 2\nr0 = win sum b0 -5 0\nend\n",
    ),
    // With fusion: a window that is moved, two windows by maps of their own, and a loop after which a definition is merged.
    (
        "input x; let y = x[t-2]; emit sum(y[t-3:t]) over (0, 5];",
        true,
        "tilt 1\ninput x\nloop 0 5 1 0\nr0 = win sum b0 -5 -2\nend\n",
    ),
    (
        "input x; let y = x + 1; let z = -x; emit sum(y[t-2:t]) + max(z[t-3:t]) over (0, 5];",
        true,
        "tilt 1\ninput x\nloop 0 5 1 0\nmap\nr0 = cell\nr1 = const 1\nr2 = add r0 r1\nend\n\
         map\nr0 = cell\nr1 = neg r0\nend\nr0 = win sum b0 -2 0 m0\nr1 = win max b0 -3 0 m1\nr2 = add r0 r1\nend\n",
    ),
    (
        "input x; let g = x every 5; let y = g + 1; emit y[t-1] + g over (0, 5];",
        true,
        "tilt 1\ninput x\nloop -1 5 5 0\nr0 = port b0 0\nend\n\
         loop 0 5 1 0\nr0 = port b1 -1\nr1 = const 1\nr2 = add r0 r1\nr3 = port b1 0\nr4 = add r2 r3\nend\n",
    ),
];

#[test]
fn listings_are_those_worked_out(rt: HostRuntime) -> Result<(), Fail> {
    for (text, fuse, want) in QUERIES {
        let listed = listing_of(rt.alloc(), text, *fuse)?;
        assert_eq!(rt; listed.as_slice(), want.as_bytes(), "at {text}");
    }
    Ok(())
}
