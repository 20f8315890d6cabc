// What the programs print of an answer that is a sheet: the sheet, or `refused N`, and then why on standard error.
#![tactic(auto)]

mod sentence;

ghost use Rattle.std.specs.Prelude.{◌≡◌, take, IfOk, OnOk};
ghost use Rattle.std.specs.Io.KnownBytes.{Appends};
ghost use Rattle.outcome.specs.Answers.{number_told};
ghost use Rattle.print_answer.specs.Printed.{refused_line, printed_numbers, printed};

use outcome::Refused;
use std::io;
use std::io::Write;

fn print_sheet<W: Write>(to: &mut W, out: &[u8], length: usize) -> io::Result<()>
    ensures { OnOk result (Appends (W.contents to.old) (W.contents to.new) (take length out.now)) }
{
    let n = buffer::within(length, out.len());
    to.write_all(&out[..n])
}

// A refusal's number and the line's end; and its sentence to err.
pub fn print_refused<W: Write, E: Write>(to: &mut W, err: &mut E, number: u8) -> io::Result<u8>
    ensures number { IfOk result (λ n. n ≡ number) }
    ensures printed { OnOk result (Appends (W.contents to.old) (W.contents to.new) (refused_line number)) }
{
    to.write_all(b"refused ")?;
    streams::print_decimal(to, number as u64)?;
    to.write_all(b"\n")?;
    sentence::say(err, number)?;
    Ok(number)
}

// Prints an answer that is told by its number, 0 for a sheet that stands in out, and by the sheet's length; the number.
pub fn print_numbered<W: Write, E: Write>(
    to: &mut W,
    err: &mut E,
    out: &[u8],
    number: u8,
    length: usize,
) -> io::Result<u8>
    ensures number { IfOk result (λ n. n ≡ number) }
    ensures printed { OnOk result (Appends (W.contents to.old) (W.contents to.new) (printed_numbers out.now number length)) }
{
    if number != 0 {
        return print_refused(to, err, number);
    }
    print_sheet(to, out, length)?;
    Ok(number)
}

// Prints the answer whose sheet stands in out; its number.
pub fn print_answer<W: Write, E: Write>(
    to: &mut W,
    err: &mut E,
    out: &[u8],
    answer: Result<usize, Refused>,
) -> io::Result<u8>
    ensures number { IfOk result (λ n. n ≡ number_told answer) }
    ensures printed { OnOk result (Appends (W.contents to.old) (W.contents to.new) (printed out.now answer)) }
{
    match answer {
        Err(refused) => print_numbered(to, err, out, refused.number(), 0),
        Ok(length) => print_numbered(to, err, out, 0, length),
    }
}
