ghost use Rattle.std.specs.Prelude.{◌≡◌};
ghost use Rattle.cmdwords.specs.Form.{form_of};
ghost use Rattle.cmdwords.specs.Modes.{form_in};

use crate::form::Form;
use crate::place::Place;

/// The places of a run of both cores: the two files of what runs, the script, the number of cycles, and the name with which
/// the files that it writes begin.
static BOTH_CORES: [Place; 5] = [
    Place::File,
    Place::File,
    Place::File,
    Place::Number {
        least: 0,
        most: 2_000_000,
    },
    Place::File,
];

static NO_OPTIONS: [&str; 0] = [];

/// The number of a cycle table.
static TABLE: [&str; 1] = ["table"];

/// The modes of the program.
#[derive(Clone, Copy, Debug, PartialEq, Eq)]
pub enum Mode {
    /// Run two sources under a script: `run A B H N OUT`.
    Run,
    /// Run two executables under a script: `sim E0 E1 H N OUT`, with the option `table`.
    Sim,
}

impl Mode {
    /// The form of the mode's words.
    pub fn form(self) -> Form<'static>
        ensures { form_of result ≡ form_in self }
    {
        match self {
            Mode::Run => Form {
                mode: "run",
                places: BOTH_CORES.as_slice(),
                options: NO_OPTIONS.as_slice(),
            },
            Mode::Sim => Form {
                mode: "sim",
                places: BOTH_CORES.as_slice(),
                options: TABLE.as_slice(),
            },
        }
    }
}
