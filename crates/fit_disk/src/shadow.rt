// An honest witness. It holds in memory what both files must hold, and checks each answer against that.

ghost use Rattle.std.specs.Prelude.{◌≡◌, ◌≤◌, false, true, length, IfOk, OnOk, OnErr, IsErr};
ghost use Rattle.fit_disk.specs.Counts.{must_fail};
ghost use Rattle.fit_disk.specs.Events.{fresh};
ghost use Rattle.fit_disk.specs.Memory.{memory_story, memory_counts, memory_schedule};
ghost use Rattle.fit_disk.specs.Stored.{at_rest};
ghost use Rattle.fit_disk.specs.Story.{seen_of};
ghost use Rattle.fit_disk.specs.Witness.{IsPart};

use crate::content::is_part;
use crate::{DeviceError, Disk, Memory, Which, Witness};
use std::alloc::{AllocError, Global};

/// What the two files must hold, in memory. It refuses an answer that does not agree, and one for which it gets no memory.
#[derive(Drop)]
pub struct Shadow {
    memory: Memory,
}

impl Shadow {
    ghost use Rattle.fit_disk.specs.Shadow.{shadow_story};

    /// Two files that hold these bytes, all of them kept. It fails only if memory is refused.
    pub fn holding(alloc: Global, in_data: &[u8], in_journal: &[u8]) -> Result<Shadow, AllocError>
        ensures { IfOk result (λ shadow. (shadow_story shadow).now
            ≡ record { data_file = at_rest in_data.now; journal_file = at_rest in_journal.now }) }
    {
        let mut memory = Memory::new(alloc);
        match hold(&mut memory, in_data, in_journal) {
            Ok(()) => Ok(Shadow { memory }),
            Err(_) => Err(AllocError),
        }
    }

    // Lets the next call in memory fail if the system's call has.
    fn fail_with(&mut self, answer: Result<(), DeviceError>)
        ensures story { shadow_story self.new ≡ shadow_story self.old }
        ensures failed { IsErr answer
            → must_fail (memory_counts self.new.memory) (memory_schedule self.new.memory) ≡ true }
    {
        if answer.is_err() {
            self.memory.fail_at(1);
        }
    }
}

impl Witness for Shadow {
    ghost use Rattle.fit_disk.specs.Shadow.{shadow_story};

    ghost honest = { true };

    ghost story = { shadow_story };

    ghost sound = { λ shadow _.
        record {
          data_left = shadow.memory.store.in_data.sound;
          journal_left = shadow.memory.store.in_journal.sound;
        } };

    fn sized(&self, which: Which, size: u64) -> Result<(), DeviceError>
        ensures passed { OnOk result (size ≡ length (seen_of which (shadow_story self.now))) }
        ensures refused { OnErr result (size ≡ length (seen_of which (shadow_story self.now)) → ⊥) }
    {
        passed(self.memory.content(which).len() as u64 == size)
    }

    fn gave(&self, which: Which, at: u64, room: usize, bytes: &[u8]) -> Result<(), DeviceError>
        ensures passed { OnOk result
            (IsPart (seen_of which (shadow_story self.now)) at room bytes.now) }
        ensures refused { OnErr result
            (IsPart (seen_of which (shadow_story self.now)) at room bytes.now → ⊥) }
    {
        passed(is_part(self.memory.content(which), at, room, bytes))
    }

    fn wrote(
        &mut self,
        which: Which,
        at: u64,
        bytes: &[u8],
        answer: Result<(), DeviceError>,
    ) -> Result<(), DeviceError> {
        self.fail_with(answer);
        self.memory.write(which, at, bytes)
    }

    fn shortened(
        &mut self,
        which: Which,
        len: u64,
        answer: Result<(), DeviceError>,
    ) -> Result<(), DeviceError> {
        self.fail_with(answer);
        self.memory.cut(which, len)
    }

    fn synced(&mut self, which: Which, answer: Result<(), DeviceError>) -> Result<(), DeviceError> {
        self.fail_with(answer);
        self.memory.sync(which)
    }
}

// Writes these bytes to an empty memory disk, and keeps them.
fn hold(memory: &mut Memory, in_data: &[u8], in_journal: &[u8]) -> Result<(), DeviceError>
    requires { memory_story memory.old ≡ fresh }
    ensures { OnOk result ((memory_story memory.new).now
        ≡ record { data_file = at_rest in_data.now; journal_file = at_rest in_journal.now }) }
{
    memory.write(Which::Data, 0, in_data)?;
    memory.write(Which::Journal, 0, in_journal)?;
    memory.sync(Which::Data)?;
    memory.sync(Which::Journal)?;
    Ok(())
}

fn passed(agrees: bool) -> Result<(), DeviceError>
    ensures ok { OnOk result (agrees ≡ true) }
    ensures err { OnErr result (agrees ≡ false) }
{
    if agrees { Ok(()) } else { Err(DeviceError) }
}
