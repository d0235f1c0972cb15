//! What no clause says: that reads and writes succeed with ample memory, and the printed faults.

use crate::{Input, Name, Output, put_lines, read_all, write_all};
use fileset::{MemFiles, MemSink};
use std::alloc::Global;
use std::test::Fail;

/// The files `a`, of 3 bytes at most, and `b`, of 2 at most, of which the read of this number fails.
#[derive(Clone, Copy)]
struct Row {
    failing_call: u32,
    a: &'static str,
    b: &'static str,
    told: &'static str,
}

fn both_inputs(alloc: Global) -> Result<Vec<Input>, Fail> {
    let mut inputs = Vec::new(alloc);
    inputs.push(Input {
        name: Name::new(String::from_str(alloc, "a")?),
        most: 3,
    })?;
    inputs.push(Input {
        name: Name::new(String::from_str(alloc, "b")?),
        most: 2,
    })?;
    Ok(inputs)
}

/// What is read, each with a stroke behind it, or the fault.
fn read_both(alloc: Global, row: &Row) -> Result<String, Fail> {
    let mut files = MemFiles::new(alloc, vec![in alloc; row.failing_call]?);
    files.add("a", row.a.as_bytes())?;
    files.add("b", row.b.as_bytes())?;
    let inputs = both_inputs(alloc)?;
    match read_all(alloc, &mut files, &inputs) {
        Ok(texts) => {
            let mut told = String::new(alloc);
            for text in &texts {
                told.push_str(String::from_utf8_lossy(alloc, text)?.as_str())?;
                told.push('|')?;
            }
            Ok(told)
        }
        Err(fault) => Ok(fault.to_string(alloc)?),
    }
}

#[test]
fn files_in_their_order(rt: HostRuntime) -> Result<(), Fail> {
    let row = |failing_call, a, b, told| Row {
        failing_call,
        a,
        b,
        told,
    };
    for row in [
        row(0, "abc", "de", "abc|de|"),
        row(0, "", "", "||"),
        row(0, "abcd", "def", "long a 3"),
        row(0, "abc", "def", "long b 2"),
        row(1, "abcd", "def", "read a"),
        // The length of the first is judged before the second is read.
        row(2, "abcd", "de", "long a 3"),
        row(2, "abc", "def", "read b"),
    ] {
        let told = read_both(rt.alloc(), &row)?;
        assert_eq!(rt; told.as_str(), row.told);
    }
    Ok(())
}

fn both_outputs(alloc: Global) -> Result<Vec<Output>, Fail> {
    let mut outputs = Vec::new(alloc);
    outputs.push(Output {
        name: Name::new(String::from_str(alloc, "x")?),
        bytes: Vec::from_slice(alloc, b"1")?,
    })?;
    outputs.push(Output {
        name: Name::new(String::from_str(alloc, "y")?),
        bytes: Vec::from_slice(alloc, b"23")?,
    })?;
    Ok(outputs)
}

/// What the writes of `x` and `y` answer, of which that of this number fails, and the number of bytes of both behind it.
fn write_both(alloc: Global, failing_call: u32) -> Result<String, Fail> {
    let mut files = MemFiles::new(alloc, vec![in alloc; failing_call]?);
    let outputs = both_outputs(alloc)?;
    let told = match write_all(&mut files, outputs) {
        Ok(()) => String::from_str(alloc, "done")?,
        Err(fault) => fault.to_string(alloc)?,
    };
    let x = files.get("x").map_or(0, |bytes| bytes.len());
    let y = files.get("y").map_or(0, |bytes| bytes.len());
    Ok(format!(in alloc; "{told} {x} {y}")?)
}

#[test]
fn files_written(rt: HostRuntime) -> Result<(), Fail> {
    for (failing_call, told) in [(0, "done 1 2"), (1, "write x 0 0"), (2, "write y 1 0")] {
        let answer = write_both(rt.alloc(), failing_call)?;
        assert_eq!(rt; answer.as_str(), told);
    }
    Ok(())
}

fn put(alloc: Global, failing_put: u32) -> Result<String, Fail> {
    let mut sink = MemSink::new(alloc, 8, vec![in alloc; failing_put]?)?;
    let name = Name::new(String::from_str(alloc, "-")?);
    let told = match put_lines(&mut sink, name, b"ok\n") {
        Ok(()) => String::from_str(alloc, "done")?,
        Err(fault) => fault.to_string(alloc)?,
    };
    Ok(format!(in alloc; "{told} {}", sink.taken().len())?)
}

#[test]
fn lines(rt: HostRuntime) -> Result<(), Fail> {
    let taken = put(rt.alloc(), 0)?;
    assert_eq!(rt; taken.as_str(), "done 3");
    let failed = put(rt.alloc(), 1)?;
    assert_eq!(rt; failed.as_str(), "write - 0");
    Ok(())
}
