use isa::Field;
use midcode::VReg;

/// Where a virtual register lives: in a field of R5 to R25, or in a slot, by its number.
#[derive(Clone, Copy)]
pub enum Home {
    Field(Field),
    Slot(u32),
}

/// The places of operations at which a virtual register may be needed, both among them.
#[derive(Clone, Copy)]
pub struct Interval {
    pub vreg: VReg,
    pub from: u32,
    pub to: u32,
}
