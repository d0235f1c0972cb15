ghost use Rattle.std.specs.Prelude.{◌≡◌, ◌+◌, ◌^◌, ◌<◌};
ghost use Rattle.ctypes.specs.Round.{rounded};

/// The next multiple of an alignment.
pub fn rounded(bytes: u32, alignment: u32) -> u32
    requires some_alignment { 0 < alignment }
    requires small { bytes + alignment < 2 ^ 32 }
    ensures { result ≡ rounded bytes alignment }
{
    (bytes + (alignment - 1)) / alignment * alignment
}
