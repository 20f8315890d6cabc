// The recorded list of answers read through the window: its first line, then a record at a time, and whether it is read to its end.
#![tactic(auto)]

pub mod call;
pub mod number_line;
pub mod records;
pub mod text;
pub mod window;

ghost use Rattle.std.specs.Prelude.{◌≡◌, length, IfOk, OnErr};
ghost use Rattle.recorded_list.specs.Answers.{next_option};
ghost use Rattle.recorded_list.specs.Moving.{Within};
ghost use Rattle.recorded_list.specs.Reading.{fitting, ReadsStart, ReadsNext, ReadsEnd};

use crate::records::{FirstLine, Header};
use crate::window::Window;
use std::io;
use std::io::Read;

// Whether there are records, and the buffers hold the longest input and the longest output.
fn fits(line: FirstLine, input: usize, output: usize) -> bool
    ensures { result ≡ fitting input output line }
{
    if line.records == 0 {
        return false;
    }
    if input < line.input as usize {
        return false;
    }
    line.output as usize <= output
}

// Reads the first line, for buffers of so many bytes, and tells it with what is still to be read after it. Only a read fails, and the text then has its length.
pub fn first_line<R: Read>(
    source: &mut R,
    text: &mut [u8],
    input: usize,
    output: usize,
) -> io::Result<Option<(FirstLine, Window)>>
    ensures ok { IfOk result (λ r. ReadsStart input output text.old text.new r) }
    ensures err { OnErr result (length text.new ≡ length text.old) }
{
    let w = crate::window::refill(
        source,
        text,
        Window {
            at: 0,
            end: 0,
            ended: false,
        },
    )?;
    let end = w.end;
    let Some((line, next)) = crate::records::read_first_line(&text[..end], w.at) else {
        return Ok(None);
    };
    if !fits(line, input, output) {
        return Ok(None);
    }
    Ok(Some((
        line,
        Window {
            at: next,
            end,
            ended: w.ended,
        },
    )))
}

// Reads the next record, its parts into the first bytes of input and output, and tells the numbers of its first line with what is still to be read. Only a read fails; the text then has its length, and the two are unchanged.
pub fn next_record<R: Read>(
    source: &mut R,
    text: &mut [u8],
    before: Window,
    input: &mut [u8],
    output: &mut [u8],
) -> io::Result<Option<(Header, Window)>>
    requires { Within before (length text.old) }
    ensures ok { IfOk result (λ r. ReadsNext (length input.new) (length output.new) text.old before text.new (next_option input.new output.new r)) }
    ensures err { OnErr result ((length text.new ≡ length text.old) × (input.new ≡ input.old) × (output.new ≡ output.old)) }
{
    let w = crate::window::refill(source, text, before)?;
    let end = w.end;
    let Some((h, next)) = crate::records::read_record(&text[..end], w.at, input, output) else {
        return Ok(None);
    };
    Ok(Some((
        h,
        Window {
            at: next,
            end,
            ended: w.ended,
        },
    )))
}

// Whether nothing is left of the list. Only a read fails, and the text then has its length.
pub fn is_read<R: Read>(source: &mut R, text: &mut [u8], before: Window) -> io::Result<bool>
    requires { Within before (length text.old) }
    ensures ok { IfOk result (λ r. ReadsEnd text.old before text.new r) }
    ensures err { OnErr result (length text.new ≡ length text.old) }
{
    let w = crate::window::refill(source, text, before)?;
    Ok(w.at == w.end)
}
