// Output for programs that go on where some of it cannot be written.

#![tactic(auto)]

ghost use Rattle.std.specs.Prelude.{IsOk};

use std::fmt::Display;
use std::io;

// A handle whose writes never fail: one that does is left out, and those after it are tried.
#[derive(Clone, Copy)]
pub struct Lossy<'a, P>(pub &'a P);

impl<P: Print> Print for Lossy<'_, P> {
    fn print<D: Display + Drop>(&self, value: D) -> io::Result<()>
        ensures { IsOk result }
    {
        let _ = self.0.print(value);
        Ok(())
    }

    fn println<D: Display + Drop>(&self, value: D) -> io::Result<()>
        ensures { IsOk result }
    {
        let _ = self.0.println(value);
        Ok(())
    }

    fn write_all(&self, bytes: &[u8]) -> io::Result<()>
        ensures { IsOk result }
    {
        let _ = self.0.write_all(bytes);
        Ok(())
    }
}
