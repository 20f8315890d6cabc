// Bytes as text in the recorded list of answers (differential/ANSWERS.md): one byte, and a part of a record, read at a place of the text.
ghost use Rattle.std.specs.Prelude.{◌≡◌, length, take};
ghost use Rattle.recorded_list.specs.ListText.{is_plain, byte_text, part_text};
ghost use Rattle.recorded_list.specs.Reads.{Reads, IsByte, IsPart};
ghost use Rattle.recorded_list.specs.Answers.{text_option};

// Whether the byte stands for itself.
fn is_plain(b: u8) -> bool
    ensures { result ≡ is_plain b }
{
    if b == b'\n' {
        return true;
    }
    if b < b' ' {
        return false;
    }
    if b'~' < b {
        return false;
    }
    b != b'\\'
}

// The byte whose text stands from place at on, and where the text goes on.
fn read_byte(s: &[u8], at: usize) -> Option<(u8, usize)>
    ensures { Reads IsByte byte_text s.now at result }
{
    if s.len() <= at {
        return None;
    }
    let b = s[at];
    if is_plain(b) {
        return Some((b, at + 1));
    }
    if b != b'\\' {
        return None;
    }
    if s.len() - at < 3 {
        return None;
    }
    let digits = &s[at + 1..at + 3];
    if !hexadecimal::is_hex(digits) {
        return None;
    }
    let c = hexadecimal::byte_at(digits, 0);
    if is_plain(c) {
        return None;
    }
    Some((c, at + 3))
}

// Reads a part of so many bytes and its byte 10 into the first bytes of out, and tells where the text goes on.
pub fn read_part(s: &[u8], at: usize, count: u64, out: &mut [u8]) -> Option<usize>
    ensures { Reads (IsPart count (length out.new)) part_text s.now at (text_option (take count out.new) result) }
{
    let n = count as usize;
    if out.len() < n {
        return None;
    }
    let mut i = at;
    let part = &mut out[..n];
    for b in part.iter_mut() {
        let (byte, next) = read_byte(s, i)?;
        *b = byte;
        i = next;
    }
    if s.len() <= i {
        return None;
    }
    if s[i] != b'\n' {
        return None;
    }
    Some(i + 1)
}
