// Bytes of one slice copied into another, eight at once, then four, two and one: most are names and lines, which are short, so there is one loop only.
#![tactic(auto)]

ghost use Rattle.std.specs.Prelude.{◌+◌, ◌<◌};
ghost use Rattle.buffer.specs.Over.{PutAt};
ghost use Rattle.columns.specs.Columns.{part};
ghost use Rattle.copy_part.specs.Copies.{CanCopy};

// Writes the bytes of s from place from up to end, from place to on; the place after them. At most one byte, three, seven.
fn copy_one(out: &mut [u8], to: usize, s: &[u8], from: usize, end: usize) -> usize
    requires { CanCopy out.old to s.now from end × (end < from + 2) }
    ensures { PutAt to (part s.now from end) result out.old out.new }
{
    if from < end {
        out[to] = s[from];
        return to + 1;
    }
    to
}

fn copy_three(out: &mut [u8], to: usize, s: &[u8], from: usize, end: usize) -> usize
    requires { CanCopy out.old to s.now from end × (end < from + 4) }
    ensures { PutAt to (part s.now from end) result out.old out.new }
{
    if 2 <= end - from {
        words::put_word2(out, to, words::word2_at(s, from));
        return copy_one(out, to + 2, s, from + 2, end);
    }
    copy_one(out, to, s, from, end)
}

fn copy_seven(out: &mut [u8], to: usize, s: &[u8], from: usize, end: usize) -> usize
    requires { CanCopy out.old to s.now from end × (end < from + 8) }
    ensures { PutAt to (part s.now from end) result out.old out.new }
{
    if 4 <= end - from {
        words::put_word4(out, to, words::word4_at(s, from));
        return copy_three(out, to + 4, s, from + 4, end);
    }
    copy_three(out, to, s, from, end)
}

// The same of any number of bytes; eight at once first.
pub fn copy_part(out: &mut [u8], to: usize, s: &[u8], from: usize, end: usize) -> usize
    requires { CanCopy out.old to s.now from end }
    ensures { PutAt to (part s.now from end) result out.old out.new }
{
    let mut i = from;
    let mut j = to;
    while 8 <= end - i {
        words::put_word8(out, j, words::word8_at(s, i));
        i += 8;
        j += 8;
    }
    copy_seven(out, j, s, i, end)
}
