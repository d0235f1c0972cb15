ghost use Rattle.std.specs.Prelude.{◌≡◌, ◌++◌, length, OnOk};
ghost use Rattle.elfrec.specs.Record.{Format};

use prunum::Memory;

/// A record of a fixed number of bytes.
pub trait Record: Copy {
    /// How many bytes it has, what they are, and which record bytes of that number are.
    ghost format: { Format Self };

    /// Which values its fields can have.
    ghost Fits: { Self → Type 0 };

    /// The number of its bytes.
    fn size() -> u32
        ensures { result ≡ format.size };

    /// The record that these bytes are.
    fn from_bytes(bytes: &[u8]) -> Self
        requires { length bytes.now ≡ format.size }
        ensures { result ≡ format.from_bytes bytes.now };

    /// Whether the sizes that it gives of other records are those of this format, and the lengths multiples of them.
    fn has_right_sizes(self) -> bool
        ensures { result ≡ format.has_right_sizes self };

    /// Puts its bytes behind `out`. Where memory is wanting, only some of them may stand there.
    fn append_to(self, out: &mut Vec<u8>) -> Result<(), Memory>
        ensures bytes { OnOk result (out.new.items ≡ out.old.items ++ format.bytes self) }
        ensures fits { OnOk result (Fits self) };
}
