// A folder in memory that a crash can tear.
ghost use Rattle.std.specs.Prelude.{◌≡◌, ◌≤◌, ⊤, length, take, IfOk, OnOk};
ghost use Rattle.tilt_store.specs.Crash.{Only};
ghost use Rattle.tilt_store.specs.Errors.{HasCause};
ghost use Rattle.tilt_store.specs.MemFolder.{mem_left_since, mem_may_leave, mem_seen};
ghost use Rattle.tilt_store.specs.MemLaws.{mem_counts_now, mem_only_now};

use crate::change::{Change, note_append, note_cut, note_replace, note_sync};
use crate::contents::Contents;
use crate::folder::Folder;
use crate::folder_error::FolderError;
use crate::tear::{Tear, replay};
use std::alloc::{AllocError as OutOfMemory, Global};

/// A folder in memory. It keeps what it held at first and what each call changed, so that it says what a crash can leave. It stops
/// after a number of calls, as if the program had been killed during the next one.
#[derive(Drop)]
pub struct MemFolder {
    alloc: Global,
    first: Contents,
    changes: Vec<Change>,
    current: Contents,
    calls_left: u64,
    faults: u64,
}

impl MemFolder {
    /// A folder with these bytes, all of them on the disk. After this many calls each further one fails.
    pub fn new(
        alloc: Global,
        output: &[u8],
        state: &[u8],
        calls: u64,
    ) -> Result<MemFolder, OutOfMemory>
        ensures seen { IfOk result (λ folder. mem_seen folder ≡ record { output = output.now; state = state.now }) }
        ensures only { IfOk result (λ folder. Only (mem_seen folder) (mem_may_leave folder)) }
    {
        Ok(MemFolder {
            alloc,
            first: Contents {
                output: output.to_vec(alloc)?,
                state: state.to_vec(alloc)?,
            },
            changes: Vec::new(alloc),
            current: Contents {
                output: output.to_vec(alloc)?,
                state: state.to_vec(alloc)?,
            },
            calls_left: calls,
            faults: 0,
        })
    }

    /// What a crash leaves of the folder, seen after a restart. `tear` says what it leaves of changes of the output that no sync
    /// followed, and `is_replaced` whether it leaves such replacements of the state. After this many calls each further one fails.
    pub fn crash(
        &self,
        alloc: Global,
        tear: Tear,
        is_replaced: bool,
        calls: u64,
    ) -> Result<MemFolder, OutOfMemory>
        ensures left { IfOk result (λ next. mem_may_leave self.now (mem_seen next)) }
        ensures only { IfOk result (λ next. Only (mem_seen next) (mem_may_leave next)) }
    {
        let left = replay(alloc, &self.first, &self.changes, tear, is_replaced)?;
        MemFolder::new(alloc, &left.output, &left.state, calls)
    }

    /// The output's bytes.
    pub fn output(&self) -> &[u8]
        ensures { result.now ≡ (mem_seen self.now).output }
    {
        &self.current.output
    }

    /// The state file's bytes.
    pub fn state(&self) -> &[u8]
        ensures { result.now ≡ (mem_seen self.now).state }
    {
        &self.current.state
    }
}

// One call less, or a fault if there is none left.
fn spend(calls_left: &mut u64, faults: &mut u64) -> Result<(), FolderError>
    ensures { HasCause faults.old faults.new result }
{
    if *calls_left == 0 {
        *faults = faults.saturating_add(1);
        return Err(FolderError::Failed);
    }
    *calls_left -= 1;
    Ok(())
}

// The output is cut.
fn cut_output(output: &mut Vec<u8>, len: u64)
    requires { len ≤ length output.old.items }
    ensures { output.new.items ≡ take len output.old.items }
{
    output.truncate(len as usize);
}

// The bytes are replaced by others.
fn replace_bytes(alloc: Global, old: &mut Vec<u8>, new: &[u8]) -> Result<(), OutOfMemory>
    ensures { OnOk result (old.new.items ≡ new.now) }
{
    *old = new.to_vec(alloc)?;
    Ok(())
}

impl Folder for MemFolder {
    ghost tells = { ⊤ };

    ghost seen = { mem_seen };

    ghost may_leave = { mem_may_leave };

    ghost moment = { λ folder. length folder.changes.items };

    ghost left_since = { mem_left_since };

    ghost faults = { λ folder. folder.faults };

    fn read_state(&mut self, alloc: Global) -> Result<Vec<u8>, FolderError> {
        spend(&mut self.calls_left, &mut self.faults)?;
        Ok(self.current.state.to_vec(alloc)?)
    }

    fn output_length(&mut self) -> Result<u64, FolderError> {
        spend(&mut self.calls_left, &mut self.faults)?;
        Ok(self.current.output.len() as u64)
    }

    fn append(&mut self, bytes: &[u8]) -> Result<(), FolderError> {
        note_append(
            self.alloc,
            &mut self.changes,
            self.current.output.len(),
            bytes,
        )?;
        self.current.output.extend_from_slice(bytes)?;
        spend(&mut self.calls_left, &mut self.faults)
    }

    fn cut(&mut self, len: u64) -> Result<(), FolderError> {
        note_cut(&mut self.changes, len)?;
        cut_output(&mut self.current.output, len);
        spend(&mut self.calls_left, &mut self.faults)
    }

    fn sync(&mut self) -> Result<(), FolderError> {
        spend(&mut self.calls_left, &mut self.faults)?;
        Ok(note_sync(self.alloc, &mut self.changes, &self.current)?)
    }

    fn replace_state(&mut self, bytes: &[u8]) -> Result<(), FolderError> {
        note_replace(self.alloc, &mut self.changes, bytes)?;
        replace_bytes(self.alloc, &mut self.current.state, bytes)?;
        spend(&mut self.calls_left, &mut self.faults)
    }

    ghost counts_now = { mem_counts_now };

    ghost only_now = { mem_only_now };
}
