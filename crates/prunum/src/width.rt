ghost use Rattle.std.specs.Prelude.{◌≡◌, IfSome, Some};
ghost use Rattle.prunum.specs.Width.{byte_count};
ghost use Rattle.prunum.specs.declared.width.Width.{Width};

/// How many bytes a number has: those of C's `char`, `short` and `int` on the PRU.
#[derive(Clone, Copy, Debug, PartialEq, Eq, Hash)]
pub enum Width {
    B1,
    B2,
    B4,
}

/// The number of bytes: 1, 2 or 4.
pub fn bytes(w: Width) -> u32
    ensures { result ≡ byte_count w }
{
    match w {
        Width::B1 => 1,
        Width::B2 => 2,
        Width::B4 => 4,
    }
}

/// The width of this number of bytes, and None where no width has it.
pub fn width_of(count: u32) -> Option<Width>
    ensures found { IfSome result (λ w. byte_count w ≡ count) }
    ensures only { (w : Width) → byte_count w ≡ count → result ≡ Some w }
{
    match count {
        1 => Some(Width::B1),
        2 => Some(Width::B2),
        4 => Some(Width::B4),
        _ => None,
    }
}

#[cfg(test)]
mod tests {
    use super::*;

    #[test]
    fn counts(rt: HostRuntime) {
        for (count, width) in [
            (0, None),
            (1, Some(Width::B1)),
            (2, Some(Width::B2)),
            (3, None),
            (4, Some(Width::B4)),
            (8, None),
        ] {
            assert_eq!(rt; width_of(count), width, "{count}");
        }
    }
}
