// Reads and writes that are made again where a signal came, or where the other end of a pipe is not ready yet.

#![tactic(auto)]

ghost use Rattle.std.specs.Prelude.{OnOk};
ghost use Rattle.std.specs.Io.{ReadsAtMost};
ghost use Rattle.std.specs.Io.KnownBytes.{Appends, ReadConsumes};

use std::io::{Error, ErrorKind};
use std::time::{Clock, Duration};
use std::{io, thread};

// Whether the call that just failed is to be made again: if not, its error. A descriptor that does not block is asked a
// thousand times a second.
fn again(clock: &impl Clock, error: Error) -> io::Result<()> {
    match error.kind() {
        ErrorKind::Interrupted => Ok(()),
        ErrorKind::WouldBlock => {
            thread::sleep(clock, Duration::from_millis(1));
            Ok(())
        }
        _ => Err(error),
    }
}

// The bytes that are there, at the start of buf: waits for the first, not for more. How many, none at the end of the input.
// A proved loop has to end: the calls are counted up to a number that no run reaches.
pub fn read_some<R: io::Read>(
    clock: &impl Clock,
    input: &mut R,
    buf: &mut [u8],
) -> io::Result<usize>
    ensures in_bounds { ReadsAtMost result buf.new }
    ensures bytes { ReadConsumes (R.remaining input.old) (R.remaining input.new) result buf.new }
{
    for _ in 0..u64::MAX {
        match input.read(buf) {
            Ok(count) => return Ok(count),
            Err(error) => again(clock, error)?,
        }
    }
    Err(Error::from(ErrorKind::TimedOut))
}

// All of buf, or no more after the first write that fails.
pub fn write_whole<W: io::Write>(clock: &impl Clock, output: &mut W, buf: &[u8]) -> io::Result<()>
    ensures { OnOk result (Appends (W.contents output.old) (W.contents output.new) buf.now) }
{
    let mut rest = buf;
    for _ in 0..u64::MAX {
        if rest.is_empty() {
            return Ok(());
        }
        match output.write(rest) {
            Ok(0) => return Err(Error::from(ErrorKind::WriteZero)),
            Ok(count) => rest = &rest[count..],
            Err(error) => again(clock, error)?,
        }
    }
    Err(Error::from(ErrorKind::TimedOut))
}

#[cfg(test)]
mod tests {
    use super::*;
    use std::io::Result;

    // A signal at the first call, not ready at the second; then a byte a call, or a failure.
    #[derive(Drop)]
    struct Slow {
        calls: usize,
        fails: bool,
    }

    impl Slow {
        fn next(&mut self) -> Result<()> {
            self.calls = self.calls.saturating_add(1);
            match self.calls {
                1 => Err(Error::from(ErrorKind::Interrupted)),
                2 => Err(Error::from(ErrorKind::WouldBlock)),
                _ => {
                    if self.fails {
                        return Err(Error::from(ErrorKind::Other));
                    }
                    Ok(())
                }
            }
        }
    }

    impl io::Read for Slow {
        fn read(&mut self, buf: &mut [u8]) -> Result<usize> {
            self.next()?;
            if buf.is_empty() {
                return Ok(0);
            }
            buf[0] = b'x';
            Ok(1)
        }
    }

    impl io::Write for Slow {
        fn write(&mut self, buf: &[u8]) -> Result<usize> {
            self.next()?;
            Ok(buf.len().min(1))
        }

        fn flush(&mut self) -> Result<()> {
            Ok(())
        }
    }

    #[test]
    fn reads_again(rt: HostRuntime) {
        let mut input = Slow {
            calls: 0,
            fails: false,
        };
        let mut buf = [0u8; 4];
        let got = read_some(&rt, &mut input, &mut buf);
        assert_eq!(rt; got.unwrap_or(0), 1);
        assert_eq!(rt; buf[0], b'x');
        assert_eq!(rt; input.calls, 3);
    }

    #[test]
    fn a_read_fails(rt: HostRuntime) {
        let mut input = Slow {
            calls: 0,
            fails: true,
        };
        let mut buf = [0u8; 4];
        let got = read_some(&rt, &mut input, &mut buf);
        assert!(rt; got.is_err());
        assert_eq!(rt; input.calls, 3);
    }

    #[test]
    fn writes_the_whole(rt: HostRuntime) {
        let mut output = Slow {
            calls: 0,
            fails: false,
        };
        assert!(rt; write_whole(&rt, &mut output, b"four").is_ok());
        assert_eq!(rt; output.calls, 6);
    }

    #[test]
    fn a_write_fails(rt: HostRuntime) {
        let mut output = Slow {
            calls: 0,
            fails: true,
        };
        assert!(rt; write_whole(&rt, &mut output, b"four").is_err());
        assert_eq!(rt; output.calls, 3);
    }
}
