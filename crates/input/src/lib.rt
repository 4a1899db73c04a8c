// What the programs have in common: they read an input's first bytes, and write what those give. No contract can say which bytes the
// system gives or takes; these speak of those that a reader or a writer states.
#![tactic(auto)]

ghost use Rattle.std.specs.Prelude.{◌≤◌, ◌≡◌, List, ℕ, OnOk, length, take};
ghost use Rattle.std.specs.Io.KnownBytes.{Appends, Consumes};
ghost use Rattle.text.specs.Columns.{line_of, most_per_line};
ghost use Rattle.text.specs.Text.{text_of};

use std::io;
use std::io::{Read, Write};
use text::{MOST_LINE_BYTES, MOST_READ_BYTES, MOST_TEXT_BYTES, Program};

// Reads until the buffer is full, the input ends or a read fails; how many bytes it put at the buffer's front. On an empty buffer it
// makes no call. A loop by hand: std's `read_exact` leaves open how much it read where a read fails.
pub fn read_full<R: Read>(reader: &mut R, buffer: &mut [u8]) -> usize
    ensures counted { result ≤ length buffer.new }
    ensures bytes { Consumes (R.remaining reader.old) (R.remaining reader.new) (take result buffer.new) }
{
    let mut done = 0usize;
    while done < buffer.len() {
        match reader.read(&mut buffer[done..]) {
            Ok(0) => return done,
            Ok(count) => done += count,
            Err(_) => return done,
        }
    }
    done
}

// Writes a program's text of an input, of which it reads no more than decides the text.
pub fn answer<R: Read, W: Write>(program: Program, input: &mut R, output: &mut W) -> io::Result<()>
    ensures { OnOk result
        ((bytes : List ℕ)
        × Consumes (R.remaining input.old) (R.remaining input.new) bytes
        × Appends (W.contents output.old) (W.contents output.new) (text_of program bytes)) }
{
    let mut card = [0u8; MOST_READ_BYTES];
    let read = read_full(input, &mut card);
    let mut text = [0u8; MOST_TEXT_BYTES];
    let bytes = text::text_of_input(program, &card, read, &mut text);
    output.write_all(&text[..bytes])
}

// Writes a line of these numbers, cut to the most that a line has.
pub fn write_numbers<W: Write>(output: &mut W, numbers: &[u64]) -> io::Result<()>
    ensures { OnOk result (Appends (W.contents output.old) (W.contents output.new)
        (line_of (take most_per_line numbers.now))) }
{
    let mut line = [0u8; MOST_LINE_BYTES];
    let bytes = text::line_of(numbers, &mut line);
    output.write_all(&line[..bytes])
}

#[cfg(test)]
mod tests {
    use super::*;
    use std::io;
    use std::test::Fail;

    // Gives a byte at a time, and fails once it has none left.
    #[derive(Drop)]
    struct Failing(u8);

    impl Read for Failing {
        fn read(&mut self, buf: &mut [u8]) -> io::Result<usize> {
            if self.0 == 0 {
                return Err(io::Error::other("no more"));
            }
            self.0 -= 1;
            if buf.len() == 0 {
                return Ok(0);
            }
            buf[0] = b'a' + self.0 % 26;
            Ok(1)
        }
    }

    #[test]
    fn reads_up_to_a_failure(rt: HostRuntime) -> Result<(), Fail> {
        let mut buffer = [b'.'; 5];
        assert_eq!(rt; read_full(&mut Failing(3), &mut buffer), 3);
        assert_eq!(rt; buffer.as_slice(), b"cba..".as_slice());
        Ok(())
    }

    #[test]
    fn reads_up_to_the_end(rt: HostRuntime) -> Result<(), Fail> {
        let mut buffer = [b'.'; 5];
        let mut bytes = b"abc".as_slice();
        assert_eq!(rt; read_full(&mut bytes, &mut buffer), 3);
        assert_eq!(rt; buffer.as_slice(), b"abc..".as_slice());
        Ok(())
    }

    #[test]
    fn answers_an_empty_card(rt: HostRuntime) -> Result<(), Fail> {
        let mut text = [b'.'; 30];
        let mut rest = text.as_mut_slice();
        assert!(rt; answer(Program::Report, &mut b"".as_slice(), &mut rest).is_ok());
        assert_eq!(rt;
            text.as_slice(),
            b"             8             1\n.".as_slice()
        );
        Ok(())
    }

    #[test]
    fn reads_until_full(rt: HostRuntime) -> Result<(), Fail> {
        let mut buffer = [b'.'; 2];
        let mut bytes = b"abc".as_slice();
        assert_eq!(rt; read_full(&mut bytes, &mut buffer), 2);
        assert_eq!(rt; buffer.as_slice(), b"ab".as_slice());
        assert_eq!(rt; read_full(&mut bytes, &mut buffer), 1);
        Ok(())
    }
}
