use std::marker::Model;

/// The name of a symbol: bytes, none of them zero.
#[derive(Debug, Drop)]
pub struct SymbolName {
    bytes: Vec<u8>,
}

impl Model for SymbolName {
    ghost use Rattle.std.specs.Prelude.{List, ℕ, IsTrue};
    ghost use Rattle.pruelf.specs.Names.{can_name};

    ghost Value = { List ℕ };

    ghost view = { λ a. a.bytes.items };

    ghost invariant = { λ a. IsTrue (can_name a.bytes.items) };
}

impl SymbolName {
    ghost use Rattle.std.specs.Prelude.{◌≡◌, IsTrue};
    ghost use Rattle.pruelf.specs.Names.{can_name};

    /// The bytes as a name; takes no memory.
    pub fn from_vec(bytes: Vec<u8>) -> SymbolName
        requires { IsTrue (can_name bytes.items) }
        ensures { result ≡ bytes.items }
    {
        SymbolName { bytes }
    }

    /// Its bytes.
    pub fn as_slice(&self) -> &[u8]
        ensures bytes { result.now ≡ self.now }
        ensures can_name { IsTrue (can_name self.now) }
    {
        self.bytes.as_slice()
    }
}

/// Where a symbol is defined.
#[derive(Clone, Copy, Debug, PartialEq, Eq)]
pub enum SymbolPart {
    /// Nowhere in this object: it is only used.
    Used,
    Code,
    Data,
    /// The zero part behind the data.
    Zero,
}

/// A symbol of an object or an executable.
#[derive(Debug, Drop)]
pub struct Sym {
    pub name: SymbolName,
    pub part: SymbolPart,
    /// In an object the offset in its part in bytes, in an executable the address.
    pub value: u32,
    /// In bytes.
    pub size: u32,
    /// Whether it is a function; else it is an object.
    pub function: bool,
}
