ghost use Rattle.cmdwords.specs.Form.{HasNames, form_of};

use super::*;
use std::alloc::{AllocError, Global};
use std::test::Fail;

/// Words, and what they ask for: what stands at the places, and the options' values.
#[derive(Drop)]
struct Row {
    words: &'static [&'static str],
    asked: Option<(&'static [Value<'static>], &'static [Option<&'static str>])>,
}

fn owned(alloc: Global, words: &[&str]) -> Result<Vec<String>, AllocError> {
    let mut owned = Vec::new(alloc);
    for word in words {
        owned.push((*word).to_string(alloc)?)?;
    }
    Ok(owned)
}

fn asks(alloc: Global, form: Form<'static>, row: &Row) -> Result<bool, AllocError>
    requires { HasNames (form_of form) }
{
    let words = owned(alloc, row.words)?;
    let given = read(alloc, form, words.as_slice())?;
    Ok(match (given, row.asked) {
        (Some(given), Some((values, options))) => {
            given.values.as_slice() == values && given.options.as_slice() == options
        }
        (None, None) => true,
        _ => false,
    })
}

#[test]
fn a_run(rt: HostRuntime) -> Result<(), Fail> {
    use Value::{File, Number};
    let rows = [
        Row {
            words: &["run", "a", "b", "h", "12", "out"],
            asked: Some((
                &[File("a"), File("b"), File("h"), Number(12), File("out")],
                &[],
            )),
        },
        Row {
            words: &["run", "", "-", "h", "0", "o=p"],
            asked: Some((
                &[File(""), File("-"), File("h"), Number(0), File("o=p")],
                &[],
            )),
        },
        Row {
            words: &["run", "a", "--", "-b", "--", "2000000", "--help"],
            asked: Some((
                &[
                    File("a"),
                    File("-b"),
                    File("--"),
                    Number(2_000_000),
                    File("--help"),
                ],
                &[],
            )),
        },
        Row {
            words: &["run", "a", "b", "h", "2000001", "out"],
            asked: None,
        },
        Row {
            words: &["run", "a", "b", "h", "+12", "out"],
            asked: None,
        },
        Row {
            words: &["run", "a", "b", "h", "012", "out"],
            asked: None,
        },
        Row {
            words: &["run", "a", "b", "h", "", "out"],
            asked: None,
        },
        Row {
            words: &["run", "--", "a", "b", "h", "-1", "out"],
            asked: None,
        },
        Row {
            words: &["run", "a", "b", "h", "12"],
            asked: None,
        },
        Row {
            words: &["run", "a", "b", "h", "12", "out", "more"],
            asked: None,
        },
        Row {
            words: &["run", "-x", "b", "h", "12", "out"],
            asked: None,
        },
        Row {
            words: &["run", "a", "b", "h", "12", "out", "--help"],
            asked: None,
        },
        Row {
            words: &["run", "a", "b", "h", "12", "out", "-h"],
            asked: None,
        },
        Row {
            words: &["run", "a", "b", "h", "12", "out", "--=x"],
            asked: None,
        },
        Row {
            words: &["a", "run", "b", "h", "12", "out"],
            asked: None,
        },
        Row {
            words: &["help"],
            asked: None,
        },
        Row {
            words: &[],
            asked: None,
        },
    ];
    for row in &rows {
        assert!(rt; asks(rt.alloc(), Mode::Run.form(), row)?);
    }
    Ok(())
}

#[test]
fn a_simulation(rt: HostRuntime) -> Result<(), Fail> {
    use Value::{File, Number};
    let places: &[Value] = &[File("a"), File("b"), File("h"), Number(12), File("out")];
    let rows = [
        Row {
            words: &["sim", "a", "b", "h", "12", "out"],
            asked: Some((places, &[None])),
        },
        Row {
            words: &["sim", "--table", "2", "a", "b", "h", "12", "out"],
            asked: Some((places, &[Some("2")])),
        },
        Row {
            words: &["sim", "a", "b", "h", "--table=1", "12", "--", "out"],
            asked: Some((places, &[Some("1")])),
        },
        Row {
            words: &[
                "sim", "a", "b", "h", "12", "out", "--table", "1", "--table", "1",
            ],
            asked: None,
        },
        Row {
            words: &["sim", "a", "b", "h", "2000001", "out"],
            asked: None,
        },
        Row {
            words: &["sim", "a", "b", "h", "12", "out", "--table"],
            asked: None,
        },
    ];
    for row in &rows {
        assert!(rt; asks(rt.alloc(), Mode::Sim.form(), row)?);
    }
    Ok(())
}

#[test]
fn options_at_each_place(rt: HostRuntime) -> Result<(), Fail> {
    use Value::{File, Number};
    static PLACES: [Place; 2] = [Place::File, Place::Number { least: 1, most: 36 }];
    static OPTIONS: [&str; 2] = ["regions", "table"];
    let form = Form {
        mode: "gen",
        places: PLACES.as_slice(),
        options: OPTIONS.as_slice(),
    };
    let rows = [
        Row {
            words: &["gen", "--regions", "r", "a", "1"],
            asked: Some((&[File("a"), Number(1)], &[Some("r"), None])),
        },
        Row {
            words: &["gen", "a", "--regions=r", "36"],
            asked: Some((&[File("a"), Number(36)], &[Some("r"), None])),
        },
        Row {
            words: &["gen", "a", "7", "--table", "-", "--regions", "r"],
            asked: Some((&[File("a"), Number(7)], &[Some("r"), Some("-")])),
        },
        Row {
            words: &["gen", "--table=-t=u", "--", "--regions", "7"],
            asked: Some((&[File("--regions"), Number(7)], &[None, Some("-t=u")])),
        },
        Row {
            words: &["gen", "a", "7", "--regions", "r", "--regions", "s"],
            asked: None,
        },
        Row {
            words: &["gen", "a", "7", "--regions=r", "--regions", "r"],
            asked: None,
        },
        Row {
            words: &["gen", "a", "7", "--regions"],
            asked: None,
        },
        Row {
            words: &["gen", "a", "7", "--regions="],
            asked: None,
        },
        Row {
            words: &["gen", "a", "7", "--regions", ""],
            asked: None,
        },
        Row {
            words: &["gen", "--regions", "--", "a", "7"],
            asked: None,
        },
        Row {
            words: &["gen", "--regions", "-r", "a", "7"],
            asked: None,
        },
        Row {
            words: &["gen", "a", "7", "--region", "r"],
            asked: None,
        },
        Row {
            words: &["gen", "a", "7", "-regions", "r"],
            asked: None,
        },
        Row {
            words: &["gen", "a", "37"],
            asked: None,
        },
        Row {
            words: &["gen", "a", "0"],
            asked: None,
        },
        Row {
            words: &["--regions", "r", "gen", "a", "7"],
            asked: None,
        },
    ];
    for row in &rows {
        assert!(rt; asks(rt.alloc(), form, row)?);
    }
    Ok(())
}
