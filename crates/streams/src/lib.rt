// What the programs read and write: standard input into a lent buffer, numbers, and the arguments of the program. None of it allocates.
#![tactic(auto)]

ghost use Rattle.std.specs.Prelude.{◌≡◌, ℕ, ◌<◌, ◌≤◌, length, take, IfOk, OnOk, OnErr};
ghost use Rattle.std.specs.Counts.{IsPrefixLen};
ghost use Rattle.std.specs.Io.{ReadsAtMost};
ghost use Rattle.std.specs.Io.KnownBytes.{Consumes, Appends, IsAtEnd};
ghost use Rattle.std.specs.Fmt.{decimal};

use std::env::{Env, FillError};
use std::io;
use std::io::{Read, Write};

// One byte more than a sheet may have, so that a longer input is known as such, however long it is.
pub const SHEET_ROOM: usize = 65536;

// The longest argument that is looked at.
pub const LONGEST_WORD: usize = 4096;

// Reads until the text is full or the input ends, and answers how many bytes it put at the start of the text. A read that fails ends it, with that error.
pub fn read_full<R: Read>(input: &mut R, text: &mut [u8]) -> io::Result<usize>
    ensures bound { ReadsAtMost result text.new }
    ensures bytes { IfOk result (λ n. Consumes (R.remaining input.old) (R.remaining input.new) (take n text.new)) }
    ensures end { IfOk result (λ n. n < length text.new → IsAtEnd (R.remaining input.new)) }
    ensures kept { length text.new ≡ length text.old }
    ensures err { OnErr result ((n : ℕ) × (n ≤ length text.new) × Consumes (R.remaining input.old) (R.remaining input.new) (take n text.new)) }
{
    let mut done = 0;
    while done < text.len() {
        let n = input.read(&mut text[done..])?;
        if n == 0 {
            break;
        }
        done += n;
    }
    Ok(done)
}

// Writes the number's decimal digits, with no line end.
pub fn print_decimal<W: Write>(out: &mut W, n: u64) -> io::Result<()>
    ensures { OnOk result (Appends (W.contents out.old) (W.contents out.new) (decimal n)) }
{
    write!(out, "{n}")
}

// Puts the argument at a place at the start of the word, and answers its length: 0 where it is missing or longer than the word. The program's own name
// is at place 0.
pub fn argument<E: Env>(env: &E, place: usize, word: &mut [u8]) -> usize
    ensures { IsPrefixLen result word.new }
{
    match env.arg(place, word) {
        Ok(n) => n,
        Err(_) => 0,
    }
}

// Whether there is an argument at a place.
pub fn has_argument<E: Env>(env: &E, place: usize) -> bool {
    match env.arg(place, &mut []) {
        Err(FillError::NotPresent) => false,
        _ => true,
    }
}
