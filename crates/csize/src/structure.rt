use cprogram::{Element, Offset};
use cscope::NameId;
use ctypes::CType;

/// A member of a struct, and where it begins in it.
#[derive(Drop)]
pub struct Member {
    pub name: NameId,
    pub ctype: CType,
    pub offset: Offset,
}

/// A struct type. It has no size, and no members yet, where it isn't complete.
#[derive(Drop)]
pub struct Structure {
    pub members: Vec<Member>,
    pub element: Option<Element>,
}
