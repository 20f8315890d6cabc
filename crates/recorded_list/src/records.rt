// The recorded list of answers (differential/ANSWERS.md): its first line and its records, read at a place of the list's text.
ghost use Rattle.std.specs.Prelude.{length};
ghost use Rattle.recorded_list.specs.ListText.{first_line_text, header_text, record_text};
ghost use Rattle.recorded_list.specs.Reads.{Reads, IsFirstLine, IsHeader, IsRecord};
ghost use Rattle.recorded_list.specs.Answers.{record_option};

// How many records there are, and how many bytes the longest input and the longest output have.
#[derive(Clone, Copy)]
pub struct FirstLine {
    pub records: u64,
    pub input: u64,
    pub output: u64,
}

// The numbers of a record's first line.
#[derive(Clone, Copy)]
pub struct Header {
    pub call: u64,
    pub argument: u64,
    pub room: u64,
    pub number: u64,
    pub first: u64,
    pub second: u64,
    pub input: u64,
    pub output: u64,
}

// The list's first line, from place at on, and where the text goes on.
pub fn read_first_line(s: &[u8], at: usize) -> Option<(FirstLine, usize)>
    ensures { Reads IsFirstLine first_line_text s.now at result }
{
    let mut n = [0u64; 3];
    let next = crate::number_line::read_numbers(s, at, &mut n)?;
    Some((
        FirstLine {
            records: n[0],
            input: n[1],
            output: n[2],
        },
        next,
    ))
}

// The first line of the record from place at on, and where the text goes on.
fn read_header(s: &[u8], at: usize) -> Option<(Header, usize)>
    ensures { Reads IsHeader header_text s.now at result }
{
    let mut n = [0u64; 8];
    let next = crate::number_line::read_numbers(s, at, &mut n)?;
    Some((
        Header {
            call: n[0],
            argument: n[1],
            room: n[2],
            number: n[3],
            first: n[4],
            second: n[5],
            input: n[6],
            output: n[7],
        },
        next,
    ))
}

// Reads the record from place at on, its parts into the first bytes of input and output: the numbers of its first line, and where the text goes on.
pub fn read_record(
    s: &[u8],
    at: usize,
    input: &mut [u8],
    output: &mut [u8],
) -> Option<(Header, usize)>
    ensures { Reads (IsRecord (length input.new) (length output.new)) record_text s.now at (record_option input.new output.new result) }
{
    let (h, body) = read_header(s, at)?;
    let middle = crate::text::read_part(s, body, h.input, input)?;
    let end = crate::text::read_part(s, middle, h.output, output)?;
    Some((h, end))
}
