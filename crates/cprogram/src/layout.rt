ghost use Rattle.std.specs.Prelude.{◌≡◌, ◌<◌, ◌≤◌, Some, [], ◌∷◌, IfOk};
ghost use Rattle.cprogram.specs.Layout.{alignment};

use crate::scalar::Scalar;
use crate::table::Table;
use prunum::bytes;
use std::alloc::{AllocError, Global};
use std::marker::Model;

/// The most bytes that an object has.
pub const MAX_OBJECT_BYTES: u32 = 7664;

/// A scalar part of an object, and where it begins in it.
#[derive(Clone, Copy, Debug, PartialEq, Eq)]
pub struct Leaf {
    pub scalar: Scalar,
    /// In bytes.
    pub offset: u32,
}

/// How an object is made of leaves: a number of elements in a row, each with the same leaves. Whatever is no array is one element.
#[derive(Debug, Drop)]
pub struct Layout {
    leaves: Table<Leaf>,
    bytes: u32,
    count: u32,
}

impl Model for Layout {
    ghost use Rattle.std.specs.Coded.{codes};
    ghost use Rattle.cprogram.specs.Layout.{Shape, IsLayout};

    ghost Value = { Shape };

    ghost view = { λ a. record { leaves = a.leaves; bytes = a.bytes; count = a.count } };

    ghost invariant = { λ a. IsLayout (record { leaves = a.leaves; bytes = a.bytes; count = a.count }) };
}

impl Layout {
    ghost use Rattle.cprogram.specs.Layout.{Shape, IsLayout, shape_of_scalar, leaf_count, size, alignment, leaf_at};
    ghost use Rattle.cprogram.specs.Scalar.{scalar_bytes};

    /// So many elements of so many bytes, each with these leaves.
    pub fn new(leaves: Table<Leaf>, bytes: u32, count: u32) -> Layout
        requires { IsLayout (record { leaves = leaves; bytes = bytes; count = count }) }
        ensures { result ≡ record { leaves = leaves; bytes = bytes; count = count } }
    {
        Layout {
            leaves,
            bytes,
            count,
        }
    }

    /// The one leaf of a scalar.
    pub fn of_scalar(alloc: Global, scalar: Scalar) -> Result<Layout, AllocError>
        ensures { IfOk result (λ l. l ≡ shape_of_scalar scalar) }
    {
        let leaves = Vec::from_slice(alloc, &[Leaf { scalar, offset: 0 }])?;
        Ok(Layout::new(Table::new(leaves), bytes(scalar.width()), 1))
    }

    /// The leaves of one element.
    pub fn element_leaves(&self) -> &[Leaf]
        ensures { result.now ≡ self.now.leaves }
    {
        self.leaves.as_slice()
    }

    /// The size of one element in bytes.
    pub fn element_bytes(&self) -> u32
        ensures { result ≡ self.now.bytes }
    {
        self.bytes
    }

    /// How many elements stand in a row.
    pub fn count(&self) -> u32
        ensures value { result ≡ self.now.count }
        ensures layout { IsLayout self.now }
    {
        self.count
    }

    /// The size of the whole object in bytes.
    pub fn size(&self) -> u32
        ensures value { result ≡ size self.now }
        ensures small { result ≤ MAX_OBJECT_BYTES }
    {
        self.bytes * self.count
    }

    /// How many leaves the whole object has.
    pub fn leaf_count(&self) -> u32
        ensures value { result ≡ leaf_count self.now }
        ensures no_empty_leaf { result ≤ size self.now }
    {
        self.leaves.len() as u32 * self.count
    }

    /// The number of bytes of which its address is a multiple.
    pub fn alignment(&self) -> u32
        ensures { result ≡ alignment self.now.leaves }
    {
        greatest_width(self.leaves.as_slice())
    }

    /// The leaf with this number, of the whole object.
    pub fn leaf(&self, number: u32) -> Leaf
        requires { number < leaf_count self.now }
        ensures { leaf_at self.now number ≡ Some result }
    {
        let each = self.leaves.len() as u32;
        let leaf = self.leaves.as_slice()[(number % each) as usize];
        Leaf {
            scalar: leaf.scalar,
            offset: self.bytes * (number / each) + leaf.offset,
        }
    }
}

fn greatest_width(leaves: &[Leaf]) -> u32
    ensures { result ≡ alignment leaves.now }
{
    let mut greatest = 1;
    for leaf in leaves {
        greatest = greatest.max(bytes(leaf.scalar.width()));
    }
    greatest
}
