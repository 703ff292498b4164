// A folder on the disk, opened again and again.
use std::fs;
use std::process::Abort;
use std::test::Fail;
use tilt_store::{DiskFolder, Ledger, OpenError};

// The number of this program, for the names of new files.
const PROGRAM: u32 = 7;

const FOLDER: &str = "tilt_store_disk";

const OUTPUT: &str = "tilt_store_disk/output.csv";

const STATE: &str = "tilt_store_disk/state";

// Opens the folder, appends bytes, and commits them if a state is given. The state that the folder was opened to is returned.
fn go_on<R: Abort>(
    rt: &R,
    host: &HostRuntime,
    bytes: &[u8],
    state: Option<&[u8]>,
) -> Result<Vec<u8>, Fail> {
    let folder = DiskFolder::new(host.alloc(), host, PROGRAM, FOLDER)?;
    match Ledger::open(host.alloc(), folder, b"new") {
        Ok(mut opened) => {
            assert_eq!(rt; opened.ledger.append(bytes), Ok(()));
            if let Some(state) = state {
                assert_eq!(rt; opened.ledger.commit(host.alloc(), state), Ok(()));
            }
            Ok(opened.state)
        }
        Err((error, _folder)) => {
            assert_eq!(rt; error, OpenError::Failed);
            Ok(Vec::new(host.alloc()))
        }
    }
}

// Bytes to append, the state to commit with them, if one is, the state that is found before, and the files after.
const STEPS: &[(&[u8], Option<&[u8]>, &[u8], &[u8], &[u8])] = &[
    (
        b"a\n",
        Some(b"one"),
        b"new",
        b"a\n",
        b"tilt store 1 43e10f42988d2d78bf13257ac162d35ee9fffe138d7ca24e46ef8ae9b4467c3e\n2\none",
    ),
    (
        b"lost",
        None,
        b"one",
        b"a\nlost",
        b"tilt store 1 43e10f42988d2d78bf13257ac162d35ee9fffe138d7ca24e46ef8ae9b4467c3e\n2\none",
    ),
    (
        b"b\n",
        Some(b"two"),
        b"one",
        b"a\nb\n",
        b"tilt store 1 25250c6569267b3e72160f780be33eb259fe13e0cac5ef68d4939c7effea7fc3\n4\ntwo",
    ),
    (
        b"",
        Some(b""),
        b"two",
        b"a\nb\n",
        b"tilt store 1 7de1555df0c2700329e815b93b32c571c3ea54dc967b89e81ab73b9972b72d1d\n4\n",
    ),
    (
        b"c",
        None,
        b"",
        b"a\nb\nc",
        b"tilt store 1 7de1555df0c2700329e815b93b32c571c3ea54dc967b89e81ab73b9972b72d1d\n4\n",
    ),
];

#[test]
fn what_is_committed_is_there_again(rt: HostRuntime) -> Result<(), Fail> {
    let _ = fs::remove_dir_all(&rt, FOLDER);
    fs::create_dir(&rt, FOLDER)?;
    for (bytes, state, found, output, kept) in STEPS {
        assert_eq!(rt; go_on(&rt, &rt, bytes, *state)?.as_slice(), *found);
        assert_eq!(rt; fs::read(&rt, OUTPUT)?.as_slice(), *output);
        assert_eq!(rt; fs::read(&rt, STATE)?.as_slice(), *kept);
    }
    fs::remove_dir_all(&rt, FOLDER)?;
    Ok(())
}

#[test]
fn a_folder_that_is_not_there_is_a_fault(rt: HostRuntime) -> Result<(), Fail> {
    let folder = DiskFolder::new(rt.alloc(), &rt, PROGRAM, "tilt_store_nowhere")?;
    match Ledger::open(rt.alloc(), folder, b"new") {
        Ok(_opened) => assert!(rt; false),
        Err((error, _folder)) => assert_eq!(rt; error, OpenError::Failed),
    }
    Ok(())
}
