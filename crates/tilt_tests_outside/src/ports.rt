// Ports in memory, and over readers and writers.
use std::io::{self, ErrorKind, Read};
use std::test::Fail;
use tilt_outside::Failed;
use tilt_port::{Asked, MemPort, Port, StdPort};

// Reads so many pieces of up to three bytes, through the trait alone, and writes each with a mark behind it, which it flushes.
fn echo_pieces<P: Port>(port: &mut P, reads: usize) -> Result<(), Failed> {
    for _ in 0..reads {
        let mut room = [0u8; 3];
        let count = port.read(&mut room)?;
        port.write(&room[..count])?;
        port.write(b"|")?;
        port.flush()?;
    }
    Ok(())
}

#[test]
fn no_read_goes_from_one_piece_into_the_next(rt: HostRuntime) -> Result<(), Fail> {
    let mut port = MemPort::new(rt.alloc(), 20, 6)?;
    port.lend(b"abcde")?;
    port.lend(b"")?;
    port.lend(b"f")?;
    assert_eq!(rt; echo_pieces(&mut port, 5), Ok(()));
    assert_eq!(rt; port.written(), b"abc|de|f|||".as_slice());
    assert_eq!(rt; port.held_back(), 0);
    port.lend(b"g")?;
    assert_eq!(rt; echo_pieces(&mut port, 1), Ok(()));
    assert_eq!(rt; echo_pieces(&mut port, 1), Err(Failed));
    assert_eq!(rt; port.written(), b"abc|de|f|||g|".as_slice());
    Ok(())
}

#[test]
fn moments_show_what_is_held_back(rt: HostRuntime) -> Result<(), Fail> {
    let mut port = MemPort::new(rt.alloc(), 9, 9)?;
    port.lend(b"abcd")?;
    port.fail_at(4)?;
    assert_eq!(rt; echo_pieces(&mut port, 2), Err(Failed));
    let mut room = [0u8; 2];
    assert_eq!(rt; port.read(&mut room), Ok(1));
    assert_eq!(rt; port.write(b"123456"), Err(Failed));
    let moments = [
        Asked {
            read: 0,
            written: 0,
            held_back: 0,
        },
        Asked {
            read: 3,
            written: 4,
            held_back: 4,
        },
    ];
    assert_eq!(rt; port.asked(), moments.as_slice());
    assert_eq!(rt; port.written(), b"abc|123".as_slice());
    assert_eq!(rt; port.count_written(), 7);
    Ok(())
}

// Reads one byte at a time, each after an interruption, and fails behind the last.
#[derive(Drop)]
struct SlowReader {
    left: u8,
    is_ready: bool,
}

impl Read for SlowReader {
    fn read(&mut self, room: &mut [u8]) -> io::Result<usize> {
        self.is_ready = !self.is_ready;
        if self.is_ready || room.is_empty() {
            return Err(io::Error::from(ErrorKind::Interrupted));
        }
        if self.left == 0 {
            return Err(io::Error::from(ErrorKind::Other));
        }
        self.left -= 1;
        room[0] = b'x';
        Ok(1)
    }
}

#[test]
fn a_read_returns_what_there_is_after_an_interruption(rt: HostRuntime) -> Result<(), Fail> {
    let mut written = Vec::new(rt.alloc());
    let reader = SlowReader {
        left: 2,
        is_ready: false,
    };
    let mut port = StdPort::new(rt.alloc(), reader, &mut written)?;
    assert_eq!(rt; echo_pieces(&mut port, 3), Err(Failed));
    assert_eq!(rt; port.count_written(), 4);
    drop(port);
    assert_eq!(rt; written.as_slice(), b"x|x|".as_slice());
    Ok(())
}
