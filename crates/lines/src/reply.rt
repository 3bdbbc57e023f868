// What a line is answered, and the line of an answer.
ghost use Rattle.std.specs.Prelude.{◌≡◌, ◌+◌, ◌*◌, ◌≤◌, length, IfOk};
ghost use Rattle.arrayvec.specs.ArrayString.{array_string_len};
ghost use Rattle.lines.specs.Texts.{with_fields, reply_text, write_answer, write_of};

use acc::chip::Received;
use arrayvec::ArrayString;
use faults::{Cause, Fault};
use itoa::Buffer;

/// The answer to a line. A refusal has the number of its line.
#[derive(Clone, Copy, Debug, PartialEq, Eq)]
pub enum Reply {
    Done,
    Number(u32),
    Character(Received),
    Refused(u32, Fault),
}

// Numbers behind a text, each after one space; none has more than ten digits.
fn push_fields(text: &mut ArrayString<64>, numbers: &[u32])
    requires { array_string_len text.old + 11 * length numbers.now ≤ 64 }
    ensures words { text.new.bytes ≡ with_fields text.old.bytes numbers.now }
    ensures short { array_string_len text.new ≤ array_string_len text.old + 11 * length numbers.now }
{
    for number in numbers {
        text.push_str(" ");
        text.push_str(Buffer::new().format(*number));
    }
}

impl Reply {
    // The line, with its closing byte. Not by `write!`: its contract never says that it succeeds, not even where the text has room, and a reply
    // cannot fail.
    fn text(self) -> ArrayString<64>
        ensures { result.bytes ≡ reply_text self }
    {
        let mut text = ArrayString::new();
        match self {
            Reply::Done => text.push_str("ok"),
            Reply::Number(n) => text.push_str(Buffer::new().format(n)),
            Reply::Character(
                Received {
                    character,
                    rfer,
                    rover,
                    rper,
                },
            ) => {
                text.push_str(Buffer::new().format(character));
                push_fields(&mut text, &[rfer.into(), rover.into(), rper.into()]);
            }
            Reply::Refused(line, fault) => {
                text.push_str("?");
                let (end, cause) = (fault.place.end_number(), u32::from(fault.cause));
                push_fields(&mut text, &[line, fault.place.index, end, cause]);
            }
        }
        text.push_str("\n");
        text
    }

    /// Writes the reply's line with its closing byte 10 to the front of a buffer, and answers its length. What stands behind it stays.
    /// Refused by cause 5 where the buffer has less than 64 bytes.
    pub fn write(self, out: &mut [u8]) -> Result<usize, Fault>
        ensures answer { result ≡ write_answer self out.old }
        ensures bytes { out.new ≡ write_of self out.old }
        ensures short { IfOk result (λ n. n ≤ 64) }
    {
        if out.len() < 64 {
            return Err(Fault::from(Cause::OutOfRange));
        }
        let text = self.text();
        out[..text.len()].copy_from_slice(text.as_str().as_bytes());
        Ok(text.len())
    }
}
