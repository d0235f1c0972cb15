ghost use Rattle.std.specs.Prelude.{◌≡◌};
ghost use Rattle.ctypes.specs.Constant.{constant_sign};

use csyn::Sign;

/// The sign of an integer constant of four bytes, by its value and whether it has the suffix `u` (C99 6.4.4.1, narrowed).
pub fn constant_sign(value: u32, is_unsigned: bool) -> Sign
    ensures { result ≡ constant_sign value is_unsigned }
{
    if is_unsigned || value >= 1 << 31 {
        Sign::Unsigned
    } else {
        Sign::Signed
    }
}
