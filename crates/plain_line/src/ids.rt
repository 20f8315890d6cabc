// The ids of a union that lists none.
ghost use Rattle.std.specs.Prelude.{◌+◌, ◌*◌};
ghost use Rattle.buffer.specs.Over.{IsUsize, PutAt};
ghost use Rattle.plain_line.specs.PlainLines.{counted_ids};

// Writes 0, 1, .. one for each of `count` fields, from place at on, as much as fits; the place after them.
pub fn put_ids(out: &mut [u8], at: usize, count: u64) -> usize
    requires { IsUsize (at + 21 * count + 21) }
    ensures { PutAt at (counted_ids count) result out.old out.new }
{
    if count == 0 {
        return buffer::put_byte(out, at, b'-');
    }
    let mut end = buffer::put_byte(out, at, b'0');
    for i in 1..count {
        let start = buffer::put_byte(out, end, b',');
        end = decimal::put::put_u64(out, start, i);
    }
    end
}
