// Reading bytes so that the input's end and a failed read are told apart. A read that a signal breaks off has failed.
#![tactic(auto)]

ghost use Rattle.std.specs.Prelude.{length};
ghost use Rattle.input.specs.Input.{within, Takes};

use std::io;
use std::io::Read;

// Fills the buffer, as far as the input goes.
pub fn fill<R: Read>(reader: &mut R, buf: &mut [u8]) -> io::Result<usize>
    ensures room { within result (length buf.new) }
    ensures bytes { Takes result (R.remaining reader.old) (R.remaining reader.new) buf.new }
{
    let mut done = 0;
    while done < buf.len() {
        let n = reader.read(&mut buf[done..])?;
        if n == 0 {
            return Ok(done);
        }
        done += n;
    }
    Ok(done)
}

#[cfg(test)]
mod tests {
    use super::*;
    use std::test::Fail;

    // Gives a byte at a time, so many of them, and then fails.
    #[derive(Clone, Copy)]
    struct Breaks(u8);

    impl Read for Breaks {
        fn read(&mut self, buf: &mut [u8]) -> io::Result<usize> {
            if self.0 == 0 {
                return Err(io::Error::other("broken"));
            }
            if buf.len() == 0 {
                return Ok(0);
            }
            self.0 -= 1;
            buf[0] = b'x';
            Ok(1)
        }
    }

    #[test]
    fn as_far_as_the_input_goes(rt: HostRuntime) -> Result<(), Fail> {
        let mut short: &[u8] = b"abc";
        let mut buf = [0u8; 5];
        assert_eq!(rt; fill(&mut short, &mut buf).ok(), Some(3));
        assert_eq!(rt; buf, [b'a', b'b', b'c', 0, 0]);
        let mut long: &[u8] = b"abcdefg";
        assert_eq!(rt; fill(&mut long, &mut buf).ok(), Some(5));
        assert_eq!(rt; buf, [b'a', b'b', b'c', b'd', b'e']);
        assert_eq!(rt; long.len(), 2);
        Ok(())
    }

    #[test]
    fn a_failed_read_is_no_end(rt: HostRuntime) -> Result<(), Fail> {
        let mut buf = [0u8; 5];
        assert_eq!(rt; fill(&mut Breaks(3), &mut buf).ok(), None);
        assert_eq!(rt; fill(&mut Breaks(5), &mut buf).ok(), Some(5));
        Ok(())
    }
}
