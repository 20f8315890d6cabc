// A window on an input, which moves along it: always a whole record's text, as long as there is one.
ghost use Rattle.std.specs.Prelude.{◌≡◌, ◌+◌, ◌≤◌, true, false, length, take, drop, IfOk, OnErr};
ghost use Rattle.std.specs.Io.KnownBytes.{IsAtEnd};
ghost use Rattle.recorded_list.specs.Moving.{still, ReadsBehind, Within, Refilled};

use std::io;
use std::io::Read;

// A number of 64 bits has at most so many digits, and a part of a record at most so many bytes, with three bytes of text for each.
const DIGITS: usize = 20;

pub const LONGEST_PART: usize = 131072;

// The longest text of a record: eight numbers and two parts, with the byte after each of these ten.
const LONGEST_RECORD: usize = 8 * (DIGITS + 1) + 2 * (3 * LONGEST_PART + 1);

// What is still to be read stands from at to end; if the input ended, that is all.
#[derive(Drop)]
pub struct Window {
    pub at: usize,
    pub end: usize,
    pub ended: bool,
}

// Reads on if less than the longest record is left: what the input gave stands behind what was still to be read. After a read that failed the text has its length; what was still to be read is not promised.
pub fn refill<R: Read>(source: &mut R, text: &mut [u8], w: Window) -> io::Result<Window>
    requires { Within w (length text.old) }
    ensures ok { IfOk result (λ r. Refilled text.old w text.new r) }
    ensures read { IfOk result (λ r. ReadsBehind (R.remaining source.old) (R.remaining source.new) (still w text.old) (still r text.new)) }
    ensures last { IfOk result (λ r. r.ended ≡ true → w.ended ≡ false → IsAtEnd (R.remaining source.new)) }
    ensures err { OnErr result (length text.new ≡ length text.old) }
{
    if w.ended {
        return Ok(w);
    }
    let left = w.end - w.at;
    if LONGEST_RECORD <= left {
        return Ok(w);
    }
    text.copy_within(w.at..w.end, 0);
    let end = left + streams::read_full(source, &mut text[left..])?;
    Ok(Window {
        at: 0,
        end,
        ended: end < text.len(),
    })
}
