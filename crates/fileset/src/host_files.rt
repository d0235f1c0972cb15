ghost use Rattle.std.specs.Prelude.{◌≡◌, ◌≢◌, ℕ, ◌+◌, ◌≤◌, length, None, IfOk, if◌then◌else◌};
ghost use Rattle.fileset.specs.Faults.{raised, is_failed};

use crate::fault::{Failed, FileFault};
use crate::files::Files;
use crate::transfer::{read_front, write_whole};
use std::alloc::Global;
use std::fs;
use std::marker::Model;
use std::rt::Files as FileSystem;

/// The files of the file system, under their paths. It tells no content. Each error of the system is a failure.
#[derive(Drop)]
pub struct HostFiles<R: FileSystem> {
    rt: R,
    faults: u64,
}

impl<R: FileSystem> Model for HostFiles<R> {
    ghost use Rattle.std.specs.Prelude.{ℕ};

    ghost Value = { ℕ };

    ghost view = { λ h. h.faults };
}

impl<R: FileSystem> HostFiles<R> {
    /// Files of this runtime, of which no call has failed.
    pub fn new(rt: R) -> HostFiles<R>
        ensures { result ≡ 0 }
    {
        HostFiles { rt, faults: 0 }
    }
}

impl<R: FileSystem> Files for HostFiles<R> {
    ghost told = { λ _. None };

    ghost faults = { λ h. h };

    fn read(&mut self, alloc: Global, name: &str, max: usize) -> Result<Vec<u8>, FileFault>
        ensures within { IfOk result (λ bytes. length bytes.items ≤ max + 1) }
        ensures faults { self.new ≡ (if is_failed result then raised self.old else self.old) }
        ensures grows { self.old ≤ self.new }
    {
        let answer = read_file(&self.rt, alloc, name, max.saturating_add(1));
        if matches!(answer, Err(FileFault::Failed)) {
            self.faults = self.faults.saturating_add(1);
        }
        answer
    }

    fn write(&mut self, name: &str, bytes: &[u8]) -> Result<(), FileFault>
        ensures faults { self.new ≡ (if is_failed result then raised self.old else self.old) }
        ensures grows { self.old ≤ self.new }
        ensures no_memory { result ≢ Err FileFault.Memory }
    {
        if write_file(&self.rt, name, bytes).is_ok() {
            return Ok(());
        }
        self.faults = self.faults.saturating_add(1);
        Err(FileFault::Failed)
    }
}

fn read_file<R: FileSystem>(
    rt: &R,
    alloc: Global,
    name: &str,
    limit: usize,
) -> Result<Vec<u8>, FileFault>
    ensures { IfOk result (λ bytes. length bytes.items ≤ limit) }
{
    let mut file = fs::open(rt, name).map_err(|_| FileFault::Failed)?;
    read_front(alloc, &mut file, limit)
}

fn write_file<R: FileSystem>(rt: &R, name: &str, bytes: &[u8]) -> Result<(), Failed> {
    let mut file = fs::create(rt, name).map_err(|_| Failed)?;
    write_whole(&mut file, bytes)
}

#[cfg(test)]
mod tests {
    use super::*;
    use std::test::Fail;

    const NAME: &str = "host_files_test.txt";

    #[test]
    fn keeps_a_file(rt: HostRuntime) -> Result<(), Fail> {
        let mut files = HostFiles::new(&rt);
        files.write(NAME, b"older and longer")?;
        files.write(NAME, b"hello")?;
        for (max, want) in [
            (9, "hello"),
            (5, "hello"),
            (4, "hello"),
            (3, "hell"),
            (0, "h"),
        ] {
            let bytes = files.read(rt.alloc(), NAME, max)?;
            assert_eq!(rt; bytes.as_slice(), want.as_bytes(), "at most {max}");
        }
        assert_eq!(rt; files.faults, 0);
        fs::remove_file(&rt, NAME)?;
        let missing = files.read(rt.alloc(), NAME, 9);
        assert!(rt; missing.is_err_and(|fault| fault == FileFault::Failed));
        assert_eq!(rt; files.faults, 1);
        assert_eq!(rt;
            files.write("no_such_folder/a", b""),
            Err(FileFault::Failed)
        );
        assert_eq!(rt; files.faults, 2);
        Ok(())
    }
}
