// A port that keeps what is written to it.
ghost use Rattle.std.specs.Prelude.{◌≡◌, [], ⊤};
ghost use Rattle.tilt_port.specs.BufferPort.{transcript_of};

use crate::port::Port;
use std::alloc::Global;
use std::marker::Model;
use tilt_outside::Failed;

/// A list of bytes that grows by what is written. Nothing can be read: reads fail. A write fails only if memory runs out.
#[derive(Drop)]
pub struct BufferPort {
    bytes: Vec<u8>,
    read_faults: u64,
    write_faults: u64,
}

impl Model for BufferPort {
    ghost use Rattle.tilt_port.specs.BufferPort.{BufferState};

    ghost Value = { BufferState };

    ghost view = { λ p. record {
      written = p.bytes.items;
      read_faults = p.read_faults;
      write_faults = p.write_faults;
    } };
}

impl BufferPort {
    /// A port to which nothing was written.
    pub fn new(alloc: Global) -> BufferPort
        ensures { result.written ≡ [] }
    {
        BufferPort::over(Vec::new(alloc))
    }

    /// A port to which these bytes were written.
    pub fn over(bytes: Vec<u8>) -> BufferPort
        ensures { result.written ≡ bytes.items }
    {
        BufferPort {
            bytes,
            read_faults: 0,
            write_faults: 0,
        }
    }

    /// All bytes that were written to it.
    pub fn into_bytes(self) -> Vec<u8>
        ensures { result.items ≡ self.written }
    {
        self.bytes
    }
}

impl Port for BufferPort {
    ghost tells = { ⊤ };

    ghost transcript = { transcript_of };

    fn read(&mut self, _room: &mut [u8]) -> Result<usize, Failed> {
        self.read_faults = self.read_faults.saturating_add(1);
        Err(Failed)
    }

    fn write(&mut self, piece: &[u8]) -> Result<(), Failed> {
        if self.bytes.extend_from_slice(piece).is_ok() {
            return Ok(());
        }
        self.write_faults = self.write_faults.saturating_add(1);
        Err(Failed)
    }

    fn flush(&mut self) -> Result<(), Failed> {
        Ok(())
    }

    fn count_written(&self) -> u64 {
        self.bytes.len() as u64
    }
}
