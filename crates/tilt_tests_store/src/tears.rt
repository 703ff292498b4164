// What crashes leave of a folder in memory.
use std::alloc::Global;
use std::process::Abort;
use std::test::Fail;
use tilt_store::{Folder, MemFolder, Tear};

// What a crash does, and the output and the state that it leaves of "ab" and "s", with "cdef" appended and "t" in place of "s".
const LEFT: [(Tear, bool, &[u8], &[u8]); 5] = [
    (Tear::Nothing, false, b"ab", b"s"),
    (Tear::Nothing, true, b"ab", b"t"),
    (Tear::Half, false, b"abcd", b"s"),
    (Tear::Zeros, true, b"ab\0\0\0\0", b"t"),
    (Tear::Whole, false, b"abcdef", b"s"),
];

// The same after a sync and a cut to 5 bytes.
const LEFT_OF_CUT: [(Tear, bool, &[u8], &[u8]); 4] = [
    (Tear::Nothing, false, b"abcdef", b"t"),
    (Tear::Half, false, b"abcde", b"t"),
    (Tear::Zeros, true, b"abcde", b"t"),
    (Tear::Whole, true, b"abcde", b"t"),
];

fn leaves<R: Abort>(
    alloc: Global,
    rt: &R,
    folder: &MemFolder,
    case: &(Tear, bool, &[u8], &[u8]),
) -> Result<(), Fail> {
    let left = folder.crash(alloc, case.0, case.1, 0)?;
    assert_eq!(rt; left.output(), case.2);
    assert_eq!(rt; left.state(), case.3);
    Ok(())
}

#[test]
fn what_a_crash_leaves(rt: HostRuntime) -> Result<(), Fail> {
    let alloc = rt.alloc();
    let mut folder = MemFolder::new(alloc, b"ab", b"s", 9)?;
    assert!(rt; folder.append(b"cdef").is_ok());
    assert!(rt; folder.replace_state(b"t").is_ok());
    for case in &LEFT {
        leaves(alloc, &rt, &folder, case)?;
    }
    assert!(rt; folder.sync().is_ok());
    assert_eq!(rt; folder.output_length(), Ok(6));
    assert!(rt; folder.cut(5).is_ok());
    for case in &LEFT_OF_CUT {
        leaves(alloc, &rt, &folder, case)?;
    }
    Ok(())
}
