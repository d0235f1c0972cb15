ghost use Rattle.std.specs.Prelude.{◌≤◌, ◌<◌, length};

use crate::constant::FirstValue;
use crate::layout::Layout;
use crate::number::FunctionId;
use crate::scalar::Scalar;
use crate::statement::Items;
use crate::table::Table;
use csyn::{Mark, Text};

/// The most parameters of a function.
pub const MAX_PARAMETERS: u32 = 8;

/// The most regions of a program.
pub const MAX_REGIONS: u32 = 64;

/// Where a file object lies.
#[derive(Debug, Drop)]
pub enum Storage {
    /// In the core's private part. Its leaves hold these at first, in their order.
    Plain(Table<FirstValue>),
    /// At this address, in one of the windows.
    Volatile(u32),
}

/// An object that is declared outside functions.
#[derive(Debug, Drop)]
pub struct FileObject {
    pub name: Text,
    pub layout: Layout,
    pub storage: Storage,
}

/// A function that has a definition.
#[derive(Debug, Drop)]
pub struct Function {
    pub mark: Mark,
    pub name: Text,
    /// None where it is void.
    pub result: Option<Scalar>,
    /// The parameters, each of a scalar type, and then the locals, each by its layout.
    pub locals: Table<Layout>,
    /// How many of them are parameters.
    pub parameters: u32,
    pub body: Items,
    pub ghost few_parameters: { parameters ≤ 8 },
    pub ghost among_locals: { parameters ≤ length locals },
}

/// What a source says.
#[derive(Debug, Drop)]
pub struct Program {
    pub objects: Table<FileObject>,
    pub functions: Table<Function>,
    /// The names of the regions.
    pub regions: Table<Text>,
    pub main: FunctionId,
    pub ghost few_regions: { length regions ≤ 64 },
    pub ghost main_is_defined: { main.0 < length functions },
}
