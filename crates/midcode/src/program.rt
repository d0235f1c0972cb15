ghost use Rattle.std.specs.Prelude.{◌≡◌, IsTrue};
ghost use Rattle.midcode.specs.Program.{is_whole};

use crate::function::MidFn;
use crate::object::Object;
use std::marker::Model;

/// A program: functions, objects and regions, each by its number, and which function is `main`. It is always valid: what its operations
/// name is there, calls fit what they call, each region has its two marks, and regions and loops with turns are entered and left as they
/// should.
#[derive(Drop)]
pub struct MidProgram {
    functions: Vec<MidFn>,
    objects: Vec<Object>,
    regions: u32,
    main: u32,
}

impl Model for MidProgram {
    ghost use Rattle.std.specs.Prelude.{IsTrue};
    ghost use Rattle.midcode.specs.Program.{Program, is_whole};

    ghost Value = { Program };

    ghost view = { λ p. record { functions = p.functions.items; objects = p.objects.items; regions = p.regions; main = p.main } };

    ghost invariant = { λ p. IsTrue (is_whole (record {
      functions = p.functions.items;
      objects = p.objects.items;
      regions = p.regions;
      main = p.main;
    })) };
}

impl MidProgram {
    /// The program of these functions and objects, with so many regions.
    pub fn new(functions: Vec<MidFn>, objects: Vec<Object>, regions: u32, main: u32) -> MidProgram
        requires { IsTrue (is_whole (record { functions = functions.items; objects = objects.items; regions = regions; main = main })) }
        ensures { result ≡ record { functions = functions.items; objects = objects.items; regions = regions; main = main } }
    {
        MidProgram {
            functions,
            objects,
            regions,
            main,
        }
    }

    pub fn functions(&self) -> &[MidFn]
        ensures value { result.now ≡ self.now.functions }

        // It is valid.
        ensures whole { IsTrue (is_whole self.now) }
    {
        self.functions.as_slice()
    }

    pub fn objects(&self) -> &[Object]
        ensures { result.now ≡ self.now.objects }
    {
        self.objects.as_slice()
    }

    /// The number of regions.
    pub fn regions(&self) -> u32
        ensures { result ≡ self.now.regions }
    {
        self.regions
    }

    /// The number of the function that runs first.
    pub fn main(&self) -> u32
        ensures { result ≡ self.now.main }
    {
        self.main
    }

    /// Gives back what the program was made of.
    pub fn into_parts(self) -> ProgramParts
        ensures functions { result.functions.items ≡ self.functions }
        ensures objects { result.objects.items ≡ self.objects }
        ensures regions { result.regions ≡ self.regions }
        ensures main { result.main ≡ self.main }

        // They make a program again.
        ensures whole { IsTrue (is_whole self) }
    {
        let MidProgram {
            functions,
            objects,
            regions,
            main,
        } = self;
        ProgramParts {
            functions,
            objects,
            regions,
            main,
        }
    }
}

/// What a program is made of.
#[derive(Drop)]
pub struct ProgramParts {
    pub functions: Vec<MidFn>,
    pub objects: Vec<Object>,
    /// The number of regions.
    pub regions: u32,
    /// The number of the function that runs first.
    pub main: u32,
}
