ghost use Rattle.std.specs.Prelude.{◌≡◌, ◌↔◌, ◌+◌, ◌≤◌, [], ◌++◌, length, take, IfOk, IsOk, IsTrue, true};
ghost use Rattle.fileset.specs.SureSink.{told_of};

use crate::fault::Failed;
use crate::room::Room;
use crate::sink::Sink;
use prunum::Memory;
use std::alloc::Global;
use std::marker::Model;

/// A sink over a room in memory that never fails. It drops what doesn't fit, and from then on tells its bytes no more.
#[derive(Drop)]
pub struct SureSink {
    room: Room,
    whole: bool,
}

impl Model for SureSink {
    ghost use Rattle.fileset.specs.SureSink.{LossySink};

    ghost Value = { LossySink };

    ghost view = { λ s. record { room = s.room; whole = s.whole } };
}

impl SureSink {
    /// Has taken nothing, and has room for as many bytes as `room` says.
    pub fn new(alloc: Global, room: usize) -> Result<SureSink, Memory>
        ensures { IfOk result (λ sink. sink ≡ record { room = record { taken = []; size = room }; whole = true }) }
    {
        Ok(SureSink {
            room: Room::new(alloc, room)?,
            whole: true,
        })
    }

    /// The bytes that stand in the room.
    pub fn taken(&self) -> &[u8]
        ensures { result.now ≡ self.now.room.taken }
    {
        self.room.taken()
    }
}

impl Sink for SureSink {
    ghost told = { told_of };

    ghost faults = { λ _. 0 };

    fn put(&mut self, bytes: &[u8]) -> Result<(), Failed>
        ensures room { self.new.room ≡ record self.old.room { taken = take self.old.room.size (self.old.room.taken ++ bytes.now) } }
        ensures whole { IsTrue self.new.whole ↔ (IsTrue self.old.whole
            × (length self.old.room.taken + length bytes.now ≤ self.old.room.size)) }
        ensures sure { IsOk result }
    {
        self.whole = self.whole && self.room.fits(bytes);
        self.room.fill(bytes);
        Ok(())
    }
}

#[cfg(test)]
mod tests {
    use super::*;
    use std::test::Fail;

    #[test]
    fn drops_what_does_not_fit(rt: HostRuntime) -> Result<(), Fail> {
        let mut sink = SureSink::new(rt.alloc(), 5)?;
        for (bytes, taken) in [
            ("abc", "abc"),
            ("", "abc"),
            ("def", "abcde"),
            ("g", "abcde"),
        ] {
            sink.put(bytes.as_bytes())?;
            assert_eq!(rt; sink.taken(), taken.as_bytes(), "at {bytes}");
        }
        Ok(())
    }
}
