//! What a core is given at the start and keeps.

use corestep::Table;
use hostscript::Numbers;
use isa::Image;

/// A core's number, the cycle table, its image and its arbitration numbers.
#[derive(Debug, Drop)]
pub struct Setup {
    pub core: u8,
    pub table: Table,
    pub image: Image,
    pub arb: Numbers,
}
