// Bytes that are written, as many as are taken before a write fails. No write_all: of that it is not known how many were.
ghost use Rattle.std.specs.Io.{WritesAtMost};
ghost use Rattle.std.specs.Io.KnownBytes.{WriteAppends};
ghost use Rattle.treecheck.specs.Writing.{AppendsOrBegins};

use std::io::{self, ErrorKind, Write};

// Writes some of the bytes: how many, none where the write was interrupted.
#[tactic(auto, using(crate::proofs::Streams::kept))]
fn write_some<W: Write>(bytes: &[u8], out: &mut W) -> io::Result<usize>
    ensures bound { WritesAtMost result bytes.now }
    ensures taken { WriteAppends (W.contents out.old) (W.contents out.new) result bytes.now }
{
    match out.write(bytes) {
        Ok(0) => Err(io::Error::from(ErrorKind::WriteZero)),
        Ok(count) => Ok(count),
        Err(error) => {
            if error.kind() == ErrorKind::Interrupted {
                Ok(0)
            } else {
                Err(error)
            }
        }
    }
}

// Writes all bytes, or as many as are taken before a write fails.
#[tactic(auto, using(crate::proofs::Streams::sending))]
pub fn write_bytes<W: Write>(bytes: &[u8], out: &mut W) -> io::Result<()>
    ensures { AppendsOrBegins (W.contents out.old) (W.contents out.new) bytes.now result }
{
    let mut rest = bytes;
    // as good as forever: a write may be interrupted again and again
    for _ in 0..u64::MAX {
        if rest.is_empty() {
            return Ok(());
        }
        let count = write_some(rest, out)?;
        rest = &rest[count..];
    }
    Err(io::Error::from(ErrorKind::Interrupted))
}
