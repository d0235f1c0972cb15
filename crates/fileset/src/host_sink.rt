ghost use Rattle.std.specs.Prelude.{◌≡◌, ℕ, ◌≤◌, None, is_err, if◌then◌else◌};
ghost use Rattle.fileset.specs.Faults.{raised};

use crate::fault::Failed;
use crate::sink::Sink;
use crate::transfer::write_whole;
use std::io;
use std::marker::Model;

/// Standard output. It tells no content. Each error of the system is a failure.
#[derive(Drop)]
pub struct HostSink<R: Print> {
    rt: R,
    faults: u64,
}

impl<R: Print> Model for HostSink<R> {
    ghost use Rattle.std.specs.Prelude.{ℕ};

    ghost Value = { ℕ };

    ghost view = { λ h. h.faults };
}

impl<R: Print> HostSink<R> {
    /// The standard output of this runtime, at which no call has failed.
    pub fn new(rt: R) -> HostSink<R>
        ensures { result ≡ 0 }
    {
        HostSink { rt, faults: 0 }
    }
}

impl<R: Print> Sink for HostSink<R> {
    ghost told = { λ _. None };

    ghost faults = { λ h. h };

    fn put(&mut self, bytes: &[u8]) -> Result<(), Failed>
        ensures faults { self.new ≡ (if is_err result then raised self.old else self.old) }
        ensures grows { self.old ≤ self.new }
    {
        let answer = write_whole(&mut io::writer(&self.rt), bytes);
        if answer.is_err() {
            self.faults = self.faults.saturating_add(1);
        }
        answer
    }
}

#[cfg(test)]
mod tests {
    use super::*;
    use std::test::Fail;

    #[test]
    fn writes_to_standard_output(rt: HostRuntime) -> Result<(), Fail> {
        let mut sink = HostSink::new(&rt);
        sink.put(b"")?;
        sink.put(b"one line\n")?;
        assert_eq!(rt; sink.faults, 0);
        Ok(())
    }
}
