// Which folders can be opened, and to what.
ghost use Rattle.std.specs.Prelude.{◌≡◌};

use std::alloc::Global;
use std::process::Abort;
use std::test::Fail;
use tilt_store::{Ledger, MemFolder, OpenError};

// The SHA-256 of each text is from another program.

// An output, a state, and why the folder can't be opened.
const UNFIT: [(&[u8], &[u8], OpenError); 10] = [
    (b"a", b"", OpenError::OutputWithoutState),
    (
        b"abc",
        b"tilt store 1 4e07408562bedb8b60ce05c1decfe3ad16b72230967de01f640b7e4729b49fce\n3",
        OpenError::BrokenState,
    ),
    (
        b"abc",
        b"tilt store 1 39284b8369b67907d64045c02fdaa99d8fea29a7250832d6dd42e4a52086f7c8\n\nstate",
        OpenError::BrokenState,
    ),
    (
        b"abc",
        b"tilt store 1 8c2540ef2d7131ac7c513ba1576722a1de31fc455b66439db0f3ca49b60cde65\n+3\nstate",
        OpenError::BrokenState,
    ),
    (
        b"abc",
        b"tilt store 1 a0bf3075393b78cd20f2e4f8e00c0db09d8317c979c40d21f48885be5ed2b1a4\n03\nstate",
        OpenError::BrokenState,
    ),
    (
        b"abc",
        b"tilt store 1 eff5c0f84d0e351d7a615e1bac0aae146bd399dedea7227091bd9a7aa8d1fc28\n-1\nstate",
        OpenError::BrokenState,
    ),
    (
        b"abc",
        b"tilt store 1 f0a6badf15ff9dcbdb43e6d54c06e6ed0dfacdc5399092e7693c97330d96452b\n 3\nstate",
        OpenError::BrokenState,
    ),
    (
        b"abc",
        b"tilt store 1 d22ccc0755fa60fe342c3adb3317aa3895b4da0c26f5a0ab4f69376b44873e19\n9223372036854775808\nstate",
        OpenError::BrokenState,
    ),
    (
        b"abc",
        b"tilt store 1 5fc6a57154cc16dff6f8e891ecf7c418f236f15bf75d4485e4ca7622263f612d\n9223372036854775807\nstate",
        OpenError::OutputTooShort,
    ),
    (
        b"abc",
        b"tilt store 1 7bce38ce17b980b5f7e423bd835fcf2b3de3f317aa302cf3e482e45740e60b56\n4\nstate",
        OpenError::OutputTooShort,
    ),
];

// The output of a folder.
const OUTPUT: &[u8] = b"abcdefghijklmnopqrstuvw";

// The state of its commit.
const STATE: &[u8] =
    b"tilt store 1 224ece3d0e1f045c17beeaa44178ffe1ac1dec64f4d59a15ae8f470d9216c753\n23\nstate";

// The same with bytes that were spoiled.
const SPOILED: [&[u8]; 12] = [
    b"23\nstate",
    b"tilt store 1 224ece3d0e1f045c17beeaa44178ffe1ac1dec64f4d59a15ae8f470d9216c753\n3\nstate",
    b"tilt store 1 224ece3d0e1f045c17beeaa44178ffe1ac1dec64f4d59a15ae8f470d9216c753\n13\nstate",
    b"tilt store 1 224ece3d0e1f045c17beeaa44178ffe1ac1dec64f4d59a15ae8f470d9216c753\n23\nState",
    b"tilt store 1 224ece3d0e1f045c17beeaa44178ffe1ac1dec64f4d59a15ae8f470d9216c753\n23\nstat",
    b"tilt store 1 224ece3d0e1f045c17beeaa44178ffe1ac1dec64f4d59a15ae8f470d9216c753\n23\nstate\n",
    b"tilt store 1 224ece3d0e1f045c17beeaa44178ffe1ac1dec64f4d59a15ae8f470d9216c753",
    b"tilt store 1 ",
    b"tilt store 1 224ECE3D0E1F045C17BEEAA44178FFE1AC1DEC64F4D59A15AE8F470D9216C753\n23\nstate",
    b"tilt store 2 224ece3d0e1f045c17beeaa44178ffe1ac1dec64f4d59a15ae8f470d9216c753\n23\nstate",
    b" tilt store 1 224ece3d0e1f045c17beeaa44178ffe1ac1dec64f4d59a15ae8f470d9216c753\n23\nstate",
    b"ilt store 1 224ece3d0e1f045c17beeaa44178ffe1ac1dec64f4d59a15ae8f470d9216c753\n23\nstate",
];

// An output, a state, what opening cuts the output to, and the state that it returns.
const FIT: [(&[u8], &[u8], &[u8], &[u8]); 5] = [
    (b"", b"", b"", b"first"),
    (
        b"abc",
        b"tilt store 1 9a271f2a916b0b6ee6cecb2426f0b3206ef074578be55d9bc94f6f3fe3ab86aa\n0\n",
        b"",
        b"",
    ),
    (
        b"abc",
        b"tilt store 1 cf07a4fd4977ff2956b5d6ba8933cf0047841c8a1b783530bd6be69c4dae605f\n2\nstate",
        b"ab",
        b"state",
    ),
    (
        b"abc",
        b"tilt store 1 4fed8afd7b114815d7b6aee957fb3da41f9fa4ce6b97841732c38600df39ad2d\n3\n\n3\n",
        b"abc",
        b"\n3\n",
    ),
    (
        b"abcdefghijkl",
        b"tilt store 1 73bad3ec73eb7c6031e6480b1cb626a28f6382c34778c6c03905f8a1723aca56\n10\nstate",
        b"abcdefghij",
        b"state",
    ),
];

fn is_unfit<R: Abort>(alloc: Global, rt: &R, case: &(&[u8], &[u8], OpenError)) -> Result<(), Fail> {
    let folder = MemFolder::new(alloc, case.0, case.1, 9)?;
    match Ledger::open(alloc, folder, b"first") {
        Ok(_opened) => assert!(rt; false),
        Err((error, folder)) => {
            assert_eq!(rt; error, case.2);
            assert_eq!(rt; folder.output(), case.0);
            assert_eq!(rt; folder.state(), case.1);
        }
    }
    Ok(())
}

fn is_fit<R: Abort>(
    alloc: Global,
    rt: &R,
    case: &(&[u8], &[u8], &[u8], &[u8]),
) -> Result<(), Fail> {
    let folder = MemFolder::new(alloc, case.0, case.1, 9)?;
    match Ledger::open(alloc, folder, b"first") {
        Ok(opened) => {
            assert_eq!(rt; opened.ledger.folder.output(), case.2);
            assert_eq!(rt; opened.state.as_slice(), case.3);
        }
        Err(_error) => assert!(rt; false),
    }
    Ok(())
}

#[test]
fn folders_that_hold_no_commit(rt: HostRuntime) -> Result<(), Fail> {
    for case in &UNFIT {
        is_unfit(rt.alloc(), &rt, case)?;
    }
    Ok(())
}

#[test]
fn folders_that_hold_a_commit(rt: HostRuntime) -> Result<(), Fail> {
    for case in &FIT {
        is_fit(rt.alloc(), &rt, case)?;
    }
    Ok(())
}

#[test]
fn states_that_were_spoiled(rt: HostRuntime) -> Result<(), Fail> {
    is_fit(rt.alloc(), &rt, &(OUTPUT, STATE, OUTPUT, b"state"))?;
    for state in &SPOILED {
        is_unfit(rt.alloc(), &rt, &(OUTPUT, *state, OpenError::BrokenState))?;
    }
    Ok(())
}
