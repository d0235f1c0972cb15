//! What no clause says: that runs succeed with ample memory, and the printed texts.

use crate::top::prucc;
use fileset::{MemFiles, MemSink, SureFiles, SureSink};
use std::alloc::{AllocError, Global};
use std::process::Abort;
use std::test::Fail;

const FIVE: &str = "void main(void){ __R30 = 5; __halt(); }";

const SPREAD: &str =
    "/* the first pin\n   and the third */\nvoid main(void)\n{\n\t__R30 = 5; // 0x5\n\t__halt();\n}\n";

const MACROS: &str =
    "#include <stdint.h>\n#define PINS 5\n#define NAME main\n#ifdef OTHER\nint x;\n#else\n\
    void NAME(void){ __R30 = PINS; __halt(); }\n#endif\n";

const BOTH_EVENTS: &str = "core 0\nW R30 4 00000005\nH\ncore 1\nW R30 4 00000005\nH\n";

const BOTH_HALTED: &str =
    "core 0 events 2 instructions 2 spills 0 halted clean\ncore 1 events 2 instructions 2 spills 0 halted clean\n";

/// A call over files A and B, which hold these sources, and an empty H.
#[derive(Clone, Copy)]
struct Case {
    words: &'static [&'static str],
    source: &'static str,
    other: &'static str,
    failing_call: u32,
    failing_put: u32,
    number: u8,
    status: &'static str,
    events: Option<&'static str>,
    lines: &'static str,
}

impl Case {
    // A run of 100 cycles that ends so.
    fn run(source: &'static str, number: u8, status: &'static str) -> Case {
        Case {
            words: &["run", "A", "B", "H", "100", "OUT"],
            source,
            other: FIVE,
            failing_call: 0,
            failing_put: 0,
            number,
            status,
            events: None,
            lines: "",
        }
    }

    // Words that ask for no run.
    fn words(words: &'static [&'static str]) -> Case {
        Case {
            words,
            ..Case::run(FIVE, 2, "words")
        }
    }
}

fn words_of(alloc: Global, texts: &[&str]) -> Result<Vec<String>, AllocError> {
    let mut words = Vec::new(alloc);
    for text in texts {
        words.push(String::from_str(alloc, text)?)?;
    }
    Ok(words)
}

fn play(rt: &impl Abort, alloc: Global, case: &Case) -> Result<(), Fail> {
    let mut files = MemFiles::new(alloc, vec![in alloc; case.failing_call]?);
    files.add("A", case.source.as_bytes())?;
    files.add("B", case.other.as_bytes())?;
    files.add("H", b"")?;
    let mut sink = MemSink::new(alloc, 256, vec![in alloc; case.failing_put]?)?;
    let words = words_of(alloc, case.words)?;
    let status = prucc(alloc, &words, &mut files, &mut sink);
    assert_eq!(rt; status.number(), case.number, "{}", case.status);
    assert_eq!(rt; status.to_string(alloc)?.as_str(), case.status);
    let events = case.events.map(|text| text.as_bytes());
    assert_eq!(rt; files.get("OUT.events"), events, "{}", case.status);
    assert_eq!(rt; sink.taken(), case.lines.as_bytes(), "{}", case.status);
    Ok(())
}

#[test]
fn runs_and_refusals(rt: HostRuntime) -> Result<(), Fail> {
    let done = Case::run(FIVE, 0, "done");
    for case in [
        Case {
            events: Some(BOTH_EVENTS),
            lines: BOTH_HALTED,
            ..Case::run(FIVE, 0, "done")
        },
        Case {
            words: &["run", "A", "B", "H", "0", "OUT"],
            events: Some("core 0\ncore 1\n"),
            lines: "core 0 events 0 instructions 0 spills 0 running clean\ncore 1 events 0 instructions 0 spills 0 running clean\n",
            ..done
        },
        Case {
            words: &["run", "A", "--", "B", "H", "0", "OUT"],
            events: Some("core 0\ncore 1\n"),
            lines: "core 0 events 0 instructions 0 spills 0 running clean\ncore 1 events 0 instructions 0 spills 0 running clean\n",
            ..Case::run(FIVE, 0, "done")
        },
        Case {
            failing_call: 1,
            ..Case::run(FIVE, 6, "read A")
        },
        Case {
            words: &["sim", "A", "B", "H", "100", "OUT"],
            ..Case::run(FIVE, 9, "elf A 0 Header")
        },
        Case {
            words: &["sim", "A", "B", "H", "100", "OUT", "--table", "2"],
            failing_call: 2,
            ..Case::run(FIVE, 6, "read B")
        },
        Case::words(&["sim", "A", "B", "H", "100", "OUT", "--table", "3"]),
        Case {
            failing_call: 4,
            ..Case::run(FIVE, 7, "write OUT.events")
        },
        Case {
            failing_put: 1,
            events: Some(BOTH_EVENTS),
            ..Case::run(FIVE, 7, "write -")
        },
        Case {
            events: Some(BOTH_EVENTS),
            lines: BOTH_HALTED,
            ..Case::run(SPREAD, 0, "done")
        },
        Case {
            events: Some(BOTH_EVENTS),
            lines: BOTH_HALTED,
            ..Case::run("void main(void){ (__R30) = (5u); __halt(); }", 0, "done")
        },
        // rules of the tokens and of the grammar
        Case::run("void main(void){ /* }", 1, "source 0 1:18 L2"),
        Case::run("void main(void){ 08", 1, "source 0 1:18 L4"),
        Case::run("void main(void){ } }", 1, "source 0 1:20 G1"),
        Case::run("void main(void){ goto x; }", 1, "source 0 1:18 G2"),
        Case::run("int", 1, "source 0 1:4 G1"),
        // directives and macros
        Case {
            events: Some(BOTH_EVENTS),
            lines: BOTH_HALTED,
            ..Case::run(MACROS, 0, "done")
        },
        Case::run("#define X 1", 16, "notbuilt A 1:12"),
        Case::run("int\n #", 1, "source 0 2:2 P1"),
        Case::run("# 08", 1, "source 0 1:3 L4"),
        Case::run("#define A 1\n#define A 2\n", 1, "source 0 2:1 P3"),
        Case::run(
            "#define X goto\nvoid main(void){ X x; }",
            1,
            "source 0 2:18 G2",
        ),
        // trees of other forms
        Case::run("", 16, "notbuilt A 1:1"),
        Case::run("// nothing\n", 16, "notbuilt A 2:1"),
        Case::run("int x;", 16, "notbuilt A 1:1"),
        Case::run("int main(void){ __halt(); }", 16, "notbuilt A 1:1"),
        Case::run("void main(){ __halt(); }", 16, "notbuilt A 1:1"),
        Case::run(
            "void main(void){ 1; __halt(); } int x;",
            16,
            "notbuilt A 1:33",
        ),
        Case::run(
            "void main(void){ __R30 = 65536; __halt(); }",
            16,
            "notbuilt A 1:18",
        ),
        Case::run(
            "void main(void){ __halt(); __R30 = 5; }",
            16,
            "notbuilt A 1:18",
        ),
        Case::run("void main(void){ __R31 = 5; }", 16, "notbuilt A 1:18"),
        Case::run("void main(void){ int x; }", 16, "notbuilt A 1:18"),
        Case::run("void main(void){ __R30 = 5; }", 16, "notbuilt A 1:30"),
        Case::run("void main(void){ }", 16, "notbuilt A 1:19"),
        // core 1 is judged behind a source of core 0 that is built
        Case {
            other: "int",
            ..Case::run(FIVE, 1, "source 1 1:4 G1")
        },
        Case {
            other: "int",
            ..Case::run("int x;", 16, "notbuilt A 1:1")
        },
        Case {
            other: "int x;",
            ..Case::run(FIVE, 16, "notbuilt B 1:1")
        },
        Case::words(&["run", "A", "B"]),
        Case::words(&["run", "A", "B", "H", "2000001", "OUT"]),
        Case::words(&["run", "A", "B", "H", "01", "OUT"]),
        Case::words(&["run", "-x", "B", "H", "1", "OUT"]),
        Case::words(&["run", "A", "B", "H", "1", "OUT", "--help"]),
        Case::words(&["help"]),
        Case::words(&[]),
    ] {
        play(&rt, rt.alloc(), &case)?;
    }
    Ok(())
}

#[test]
fn the_longest_source_runs_to_its_end(rt: HostRuntime) -> Result<(), Fail> {
    let alloc = rt.alloc();
    let mut source = String::from_str(alloc, "void main(void){")?;
    for _ in 0..2047 {
        source.push_str(" __R30 = 65535;")?;
    }
    source.push_str(" __halt(); }")?;
    let mut files = SureFiles::new(alloc);
    files.add("A", source.as_bytes())?;
    files.add("B", FIVE.as_bytes())?;
    let mut sink = SureSink::new(alloc, 256)?;
    let words = words_of(alloc, &["run", "A", "B", "H", "2000000", "OUT"])?;
    let status = prucc(alloc, &words, &mut files, &mut sink);
    assert_eq!(rt; status.number(), 0);
    let lines =
        "core 0 events 2048 instructions 2048 spills 0 halted clean\ncore 1 events 2 instructions 2 spills 0 halted clean\n";
    assert_eq!(rt; sink.taken(), lines.as_bytes());
    let events = files.get("OUT.events").map_or(0, |text| text.len());
    // Each write's line has 17 bytes.
    assert_eq!(rt; events, 7 + 2047 * 17 + 2 + 7 + 17 + 2);
    Ok(())
}

// The status where A, B and H have so many spaces behind what they hold.
fn status_with_spaces(
    alloc: Global,
    zero: usize,
    one: usize,
    script: usize,
) -> Result<Option<String>, AllocError> {
    let mut files = SureFiles::new(alloc);
    for (name, text, spaces) in [("A", FIVE, zero), ("B", FIVE, one), ("H", "", script)] {
        let mut bytes = String::from_str(alloc, text)?;
        for _ in 0..spaces {
            bytes.push(' ')?;
        }
        if files.add(name, bytes.as_bytes()).is_err() {
            return Ok(None);
        }
    }
    let Ok(mut sink) = SureSink::new(alloc, 256) else {
        return Ok(None);
    };
    let words = words_of(alloc, &["run", "A", "B", "H", "1", "OUT"])?;
    let status = prucc(alloc, &words, &mut files, &mut sink);
    Ok(Some(status.to_string(alloc)?))
}

#[test]
fn lengths_are_judged_at_each_read(rt: HostRuntime) -> Result<(), Fail> {
    let alloc = rt.alloc();
    let most = 65_536 - FIVE.len();
    for (zero, one, script, want) in [
        (most, most, 0, "done"),
        (most + 1, most + 1, 1_048_577, "long A 65536"),
        (most, most + 1, 1_048_577, "long B 65536"),
        (most, most, 1_048_577, "long H 1048576"),
        (most, most, 1_048_576, "notbuilt H 1:1"),
    ] {
        let status = status_with_spaces(alloc, zero, one, script)?;
        assert_eq!(rt; status.as_ref().map(String::as_str), Some(want));
    }
    Ok(())
}
