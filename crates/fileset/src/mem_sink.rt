ghost use Rattle.std.specs.Prelude.{◌≡◌, ◌⊎◌, ◌↔◌, ◌+◌, ◌<◌, ◌≤◌, [], ◌++◌, length, Some, IfOk, OnOk, OnErr, IsErr, is_err};
ghost use Rattle.fileset.specs.CallPlan.{FailsNext, after_call};

use crate::call_plan::CallPlan;
use crate::fault::Failed;
use crate::room::Room;
use crate::sink::Sink;
use prunum::Memory;
use std::alloc::Global;
use std::marker::Model;

/// A sink over a room in memory: a call with a listed number fails, and one whose bytes don't fit.
#[derive(Drop)]
pub struct MemSink {
    room: Room,
    plan: CallPlan,
}

impl Model for MemSink {
    ghost use Rattle.fileset.specs.MemSink.{PlannedSink};

    ghost Value = { PlannedSink };

    ghost view = { λ s. record { room = s.room; plan = s.plan } };
}

impl MemSink {
    /// Has taken nothing, and has room for as many bytes as `room` says. Calls are counted from 1, and those whose
    /// numbers are in `fails` fail.
    pub fn new(alloc: Global, room: usize, fails: Vec<u32>) -> Result<MemSink, Memory>
        ensures room { IfOk result (λ sink. sink.room ≡ record { taken = []; size = room }) }
        ensures plan { IfOk result (λ sink. sink.plan ≡ record { fails = fails.items; calls = 0; faults = 0 }) }
    {
        Ok(MemSink {
            room: Room::new(alloc, room)?,
            plan: CallPlan::new(fails),
        })
    }

    /// The bytes that stand in the room.
    pub fn taken(&self) -> &[u8]
        ensures { result.now ≡ self.now.room.taken }
    {
        self.room.taken()
    }
}

impl Sink for MemSink {
    ghost told = { λ s. Some s.room.taken };

    ghost faults = { λ s. s.plan.faults };

    fn put(&mut self, bytes: &[u8]) -> Result<(), Failed>
        ensures put { OnOk result (self.new.room.taken ≡ self.old.room.taken ++ bytes.now) }
        ensures kept { OnErr result (self.new.room ≡ self.old.room) }
        ensures size { self.new.room.size ≡ self.old.room.size }
        ensures fails { IsErr result ↔ (FailsNext self.old.plan ⊎ (self.old.room.size < length self.old.room.taken + length bytes.now)) }
        ensures plan { self.new.plan ≡ after_call (is_err result) self.old.plan }
        ensures grows { self.old.plan.faults ≤ self.new.plan.faults }
    {
        let fails = self.plan.fails_next() || !self.room.fits(bytes);
        self.plan.count(fails);
        if fails {
            return Err(Failed);
        }
        self.room.fill(bytes);
        Ok(())
    }
}

#[cfg(test)]
mod tests {
    use super::*;
    use std::test::Fail;

    #[test]
    fn takes_what_fits(rt: HostRuntime) -> Result<(), Fail> {
        let mut sink = MemSink::new(rt.alloc(), 5, vec![in rt.alloc(); 2]?)?;
        let puts = [
            ("abc", Ok(()), "abc"),
            ("d", Err(Failed), "abc"),
            ("def", Err(Failed), "abc"),
            ("de", Ok(()), "abcde"),
            ("f", Err(Failed), "abcde"),
            ("", Ok(()), "abcde"),
        ];
        for (bytes, want, taken) in puts {
            assert_eq!(rt; sink.put(bytes.as_bytes()), want, "at {bytes}");
            assert_eq!(rt; sink.taken(), taken.as_bytes(), "at {bytes}");
        }
        Ok(())
    }
}
