// The lines of an input.
ghost use Rattle.std.specs.Prelude.{OnOk};
ghost use Rattle.console.specs.Lines.{AnswersLines};

use std::alloc::{AllocError, Global};
use std::io;
use std::io::{BufRead, BufReader, Read};

/// Calls a function with each line of an input and its number, from 1 on, until a call fails. What follows the last byte 10 is a line if it
/// has a byte.
pub fn for_each_line<
    R: Read + Drop,
    E: From<io::Error> + From<AllocError>,
    F: FnMut(u64, Vec<u8>) -> Result<(), E>,
>(alloc: Global, input: R, mut answer: F) -> Result<(), E>
    requires { F.IsAlwaysCallable answer }
    ensures { OnOk result (AnswersLines (λ p number line q. F.step p number line (Ok tt) q) (λ line. line.items) answer 1 (R.remaining input)) }
{
    for (number, line) in (1..).zip(BufReader::new(alloc, input)?.split(alloc, b'\n')) {
        answer(number, line?)?;
    }
    Ok(())
}

#[cfg(test)]
mod tests {
    use super::for_each_line;
    use std::io;
    use std::test::Fail;

    #[test]
    fn each_line_comes_once_with_its_number(rt: HostRuntime) -> Result<(), Fail> {
        let mut seen = Vec::new(rt.alloc());
        let input: &[u8] = b"one\n\nthree\r\nlast";
        for_each_line(rt.alloc(), input, |number, line| -> io::Result<()> {
            Ok(seen.push((number, line.len()))?)
        })?;
        assert!(rt; seen.as_slice() == [(1, 3), (2, 0), (3, 6), (4, 4)].as_slice());
        Ok(())
    }
}
