ghost use Rattle.std.specs.Prelude.{◌≤◌};

/// A virtual register of the function at hand, by its number. The first are the parameters.
#[derive(Clone, Copy, Debug, PartialEq, Eq)]
pub struct VReg(pub u32);

/// A place in the function at hand that jumps go to, by its number.
#[derive(Clone, Copy, Debug, PartialEq, Eq)]
pub struct Label(pub u32);

/// At most eight registers in a row: the first `count` of these.
#[derive(Clone, Copy)]
pub struct Registers {
    pub registers: [VReg; 8],
    pub count: u8,
    pub ghost few: { count ≤ 8 },
}
