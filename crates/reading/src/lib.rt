// Reads input into a buffer.
// `while`, since the place moves by what is read; `read_exact` tells no length where the input ends early.
#![tactic(auto)]

ghost use Rattle.std.specs.Prelude.{◌≡◌, ◌<◌, ◌≤◌, length, take, IfOk, OnErr};
ghost use Rattle.std.specs.Io.KnownBytes.{Consumes, IsAtEnd};

use std::io;
use std::io::Read;

// Reads until the buffer is full or the input ends; how many bytes stand at the buffer's start. An error is the reader's own, and the only one there is:
// what came before it stands in the buffer, which keeps its length.
pub fn read_full<R: Read>(reader: &mut R, buffer: &mut [u8]) -> io::Result<usize>
    ensures within { IfOk result (λ n. n ≤ length buffer.new) }
    ensures bytes { IfOk result (λ n. Consumes (R.remaining reader.old) (R.remaining reader.new) (take n buffer.new)) }
    ensures end { IfOk result (λ n. n < length buffer.new → IsAtEnd (R.remaining reader.new)) }
    ensures err { OnErr result (length buffer.new ≡ length buffer.old) }
{
    let mut done = 0;
    while done < buffer.len() {
        let n = reader.read(&mut buffer[done..])?;
        if n == 0 {
            return Ok(done);
        }
        done += n;
    }
    Ok(done)
}

#[cfg(test)]
mod tests {
    use super::read_full;
    use std::io::Read;
    use std::test::Fail;

    // The first read gives what the first of two readers has.
    #[test]
    fn reads_on_after_a_short_read(rt: HostRuntime) -> Result<(), Fail> {
        let mut reader = (&b"sites"[..]).chain(&b" 3 commit"[..]);
        let mut buffer = [0u8; 20];
        assert_eq!(rt; read_full(&mut reader, &mut buffer)?, 14);
        assert_eq!(rt; &buffer[..14], &b"sites 3 commit"[..]);
        Ok(())
    }

    #[test]
    fn reads_no_more_than_fits(rt: HostRuntime) -> Result<(), Fail> {
        let mut reader = &b"sites 3"[..];
        let mut buffer = [0u8; 4];
        assert_eq!(rt; read_full(&mut reader, &mut buffer)?, 4);
        assert_eq!(rt; &buffer[..], &b"site"[..]);
        assert_eq!(rt; reader, &b"s 3"[..]);
        Ok(())
    }
}
