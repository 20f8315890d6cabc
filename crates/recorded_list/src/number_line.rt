// A line of numbers in the recorded list of answers (differential/ANSWERS.md), read at a place of the text.
ghost use Rattle.std.specs.Prelude.{◌<◌, length};
ghost use Rattle.recorded_list.specs.ListText.{numbers_text};
ghost use Rattle.recorded_list.specs.Reads.{Reads, IsNumbers};
ghost use Rattle.recorded_list.specs.Answers.{text_option};

// Reads a line of as many numbers as out holds, and tells where the text goes on.
pub fn read_numbers(s: &[u8], at: usize, out: &mut [u64]) -> Option<usize>
    requires { 0 < length out.old }
    ensures { Reads (IsNumbers (length out.new)) numbers_text s.now at (text_option out.new result) }
{
    let last = out.len() - 1;
    let mut i = at;
    let spaced = &mut out[..last];
    for n in spaced.iter_mut() {
        let (value, end) = columns::number::number_column(s, i, b' ')?;
        *n = value;
        i = end + 1;
    }
    let (value, end) = columns::number::number_column(s, i, b'\n')?;
    out[last] = value;
    Some(end + 1)
}
