ghost use Rattle.std.specs.Prelude.{◌≡◌, ◌==◌, not, IsTrue};
ghost use Rattle.std.specs.List.{list_all};
ghost use Rattle.restable.specs.Names.{can_name};

use std::marker::Model;

/// The name of a trace: at most 32 bytes, and none of them zero.
#[derive(Debug, Drop)]
pub struct Name {
    bytes: Vec<u8>,
}

impl Model for Name {
    ghost use Rattle.std.specs.Prelude.{List, ℕ, IsTrue};
    ghost use Rattle.restable.specs.Names.{can_name};

    ghost Value = { List ℕ };

    ghost view = { λ a. a.bytes.items };

    ghost invariant = { λ a. IsTrue (can_name a.bytes.items) };
}

impl Name {
    /// The bytes as a name; takes no memory.
    pub fn from_vec(bytes: Vec<u8>) -> Name
        requires { IsTrue (can_name bytes.items) }
        ensures { result ≡ bytes.items }
    {
        Name { bytes }
    }

    /// The bytes back; takes no memory.
    pub fn into_vec(self) -> Vec<u8>
        ensures bytes { result.items ≡ self }
        ensures can_name { IsTrue (can_name self) }
    {
        self.bytes
    }

    /// The bytes, without the zeros that fill a table's field.
    pub fn as_slice(&self) -> &[u8]
        ensures bytes { result.now ≡ self.now }
        ensures can_name { IsTrue (can_name self.now) }
    {
        self.bytes.as_slice()
    }
}

/// Whether the bytes can name a trace.
pub fn is_name(bytes: &[u8]) -> bool
    ensures { result ≡ can_name bytes.now }
{
    bytes.len() <= 32 && has_no_zero(bytes)
}

fn has_no_zero(bytes: &[u8]) -> bool
    ensures { result ≡ list_all (λ b. not (b == 0)) bytes.now }
{
    for b in bytes {
        if *b == 0 {
            return false;
        }
    }
    true
}
