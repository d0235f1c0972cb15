ghost use Rattle.std.specs.Prelude.{◌≡◌, ℕ, ◌≤◌, List, length, take, IfOk, IfSome, OnOk, OnErr};
ghost use Rattle.std.specs.Io.KnownBytes.{Appends};
ghost use Rattle.fileset.specs.Told.{IsFrontOf};

use crate::fault::{Failed, FileFault};
use std::alloc::Global;
use std::io::{Read, Write};

/// How many bytes one read asks for.
const CHUNK: usize = 4096;

/// The first bytes that the reader has left, as many as `limit` says at most. A read that gives nothing is their end.
pub fn read_front<R: Read>(
    alloc: Global,
    reader: &mut R,
    limit: usize,
) -> Result<Vec<u8>, FileFault>
    ensures within { IfOk result (λ bytes. length bytes.items ≤ limit) }
    ensures front { IfOk result (λ bytes. IfSome (R.remaining reader.old) (λ known. bytes.items ≡ take limit known)) }
{
    let mut bytes = Vec::new(alloc);
    while bytes.len() < limit {
        let mut chunk = [0; CHUNK];
        let wanted = CHUNK.min(limit - bytes.len());
        let count = reader
            .read(&mut chunk[..wanted])
            .map_err(|_| FileFault::Failed)?;
        if count == 0 {
            break;
        }
        bytes.extend_from_slice(&chunk[..count])?;
    }
    Ok(bytes)
}

/// Writes the bytes. After a failure a front of them is written. A write that takes none of them is a failure.
pub fn write_whole<W: Write>(writer: &mut W, bytes: &[u8]) -> Result<(), Failed>
    ensures whole { OnOk result (Appends (W.contents writer.old) (W.contents writer.new) bytes.now) }
    ensures front { OnErr result ((front : List ℕ) × IsFrontOf front bytes.now
        × Appends (W.contents writer.old) (W.contents writer.new) front) }
{
    let mut rest = bytes;
    while !rest.is_empty() {
        match writer.write(rest) {
            Ok(0) | Err(_) => return Err(Failed),
            Ok(count) => rest = &rest[count..],
        }
    }
    Ok(())
}

#[cfg(test)]
mod tests {
    use super::*;
    use std::io;
    use std::io::ErrorKind;
    use std::test::Fail;

    /// Moves as many bytes a call as stand first in `moves`, and fails where none stands there.
    #[derive(Drop)]
    struct Slow<'a> {
        moves: &'a [usize],
    }

    impl Slow<'_> {
        fn next(&mut self, most: usize) -> io::Result<usize>
            ensures { IfOk result (λ count. count ≤ most) }
        {
            match self.moves.split_first() {
                Some((count, others)) => {
                    self.moves = others;
                    Ok(most.min(*count))
                }
                None => Err(io::Error::from(ErrorKind::Other)),
            }
        }
    }

    impl Read for Slow<'_> {
        fn read(&mut self, buf: &mut [u8]) -> io::Result<usize> {
            self.next(buf.len())
        }
    }

    impl Write for Slow<'_> {
        fn write(&mut self, buf: &[u8]) -> io::Result<usize> {
            self.next(buf.len())
        }

        fn flush(&mut self) -> io::Result<()> {
            Ok(())
        }
    }

    #[test]
    fn goes_on_until_the_end_or_a_failure(rt: HostRuntime) {
        let cases: [(&[usize], Option<usize>, bool); 5] = [
            (&[9], Some(7), true),
            (&[3, 3, 1], Some(7), true),
            (&[3, 0], Some(3), false),
            (&[3, 3], None, false),
            (&[], None, false),
        ];
        for (moves, read, wrote) in cases {
            let got = read_front(rt.alloc(), &mut Slow { moves }, 7);
            assert_eq!(rt; got.ok().map(|bytes| bytes.len()), read, "{moves:?}");
            let written = write_whole(&mut Slow { moves }, b"7 bytes");
            assert_eq!(rt; written.is_ok(), wrote, "{moves:?}");
        }
    }
}
