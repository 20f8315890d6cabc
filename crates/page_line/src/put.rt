// One line of a page, written into a lent buffer, as much as fits.
ghost use Rattle.std.specs.Prelude.{◌≡◌, [], ◌∷◌, ◌++◌, ◌≤◌, ◌<◌, length};
ghost use Rattle.sheets.specs.Kind.{Union};
ghost use Rattle.sheets.specs.Sheet.{ended};
ghost use Rattle.sheets.specs.Page.{line_shown};
ghost use Rattle.buffer.specs.Over.{over, over_at, PutFirst};
ghost use Rattle.words.specs.Words.{low_bytes};
ghost use Rattle.page_line.specs.PageLines.{level_text, front_text, blank_name, name_text};

// A line has so many bytes with its byte 10.
const LINE: usize = 73;

// Where the name's digits begin, how many are shown, and where the mark of a cut name stands.
const NAME: usize = 23;

const NAME_WIDTH: usize = 48;

const CUT: usize = 71;

// Eight spaces as one number; ` ` and byte 10; `+` and byte 10, the lowest byte first.
const SPACES: u64 = 0x2020202020202020;

const WHOLE_END: u64 = 0x0a20;

const CUT_END: u64 = 0x0a2b;

// The level, right-justified in 3, and a space as one number, the lowest byte first.
fn level_word(level: u64) -> u64
    requires { level < 100 }
    ensures { low_bytes 4 result ≡ level_text level }
{
    if level < 10 {
        return 0x20302020 + level * 65536;
    }
    0x20303020 + level / 10 * 256 + level % 10 * 65536
}

// Writes the level, as `level_word` has it, the kind's name and the mark, with the spaces after them.
fn put_front(level: u64, kind: u64, mark: u8, out: &mut [u8])
    requires { (kind ≤ Union) × (23 ≤ length out.old) }
    ensures { out.new ≡ over (front_text (low_bytes 4 level) kind mark) out.old }
{
    let name = kind_names::name_of(kind);
    words::put_word4(out, 0, level);
    words::put_word8(out, 4, name.low);
    words::put_word8(out, 12, name.high);
    out[20] = b' ';
    out[21] = mark;
    out[22] = b' ';
}

// Writes spaces in the place of a name and of its mark, and byte 10.
fn put_blank(out: &mut [u8])
    requires { 73 ≤ length out.old }
    ensures { out.new ≡ over_at 23 blank_name out.old }
{
    words::put_word8(out, NAME, SPACES);
    words::put_word8(out, NAME + 8, SPACES);
    words::put_word8(out, NAME + 16, SPACES);
    words::put_word8(out, NAME + 24, SPACES);
    words::put_word8(out, NAME + 32, SPACES);
    words::put_word8(out, NAME + 40, SPACES);
    words::put_word2(out, CUT, WHOLE_END);
}

// Writes the name's digits, left-justified in 48, then `+` if they were cut or a space, and byte 10.
fn put_name(digits: &[u8], out: &mut [u8])
    requires { 73 ≤ length out.old }
    ensures { out.new ≡ over_at 23 (name_text digits.now) out.old }
{
    let n = digits.len();
    if NAME_WIDTH < n {
        copy_part::copy_part(out, NAME, digits, 0, NAME_WIDTH);
        words::put_word2(out, CUT, CUT_END);
        return;
    }
    put_blank(out);
    copy_part::copy_part(out, NAME, digits, 0, n);
}

// Writes a line of the page and its byte 10, where there is room. The level is a number of `level_word`, so that it is worked out once for a row of leaves.
fn put_whole(level: u64, kind: u64, mark: u8, digits: &[u8], out: &mut [u8])
    requires { (kind ≤ Union) × (73 ≤ length out.old) }
    ensures { out.new ≡ over (front_text (low_bytes 4 level) kind mark ++ name_text digits.now) out.old }
{
    put_front(level, kind, mark, out);
    put_name(digits, out);
}

// Writes a line of the page and its byte 10, as much as fits; its length. Where there is less room than for a line, it is written into an array first.
pub fn put_line(level: u64, kind: u64, mark: u8, digits: &[u8], out: &mut [u8]) -> usize
    requires { (level < 100) × (kind ≤ Union) }
    ensures { PutFirst (ended (line_shown level kind mark digits.now ∷ [])) result out.old out.new }
{
    let column = level_word(level);
    if out.len() < LINE {
        let mut line = [0u8; LINE];
        put_whole(column, kind, mark, digits, &mut line);
        buffer::put(out, &line);
        return LINE;
    }
    put_whole(column, kind, mark, digits, out);
    LINE
}
