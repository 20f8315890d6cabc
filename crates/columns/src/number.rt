// The numbers in the columns of a line: read and tested, or read where they are known to stand.
ghost use Rattle.std.specs.Prelude.{◌≡◌, true, drop};
ghost use Rattle.sheets.specs.Bytes.{space};
ghost use Rattle.sheets.specs.Number.{is_digit};
ghost use Rattle.columns.specs.Columns.{is_stop, one_of};
ghost use Rattle.columns.specs.NumberColumns.{number_in, signed_in, HasNumber, NumberStands};
ghost use Rattle.sheets.specs.Answer.{found};
ghost use Rattle.sheets.specs.Refusal.{bad_lines};

// Whether the column from place at on is one digit, and the byte stop ends it: so most numbers of a sheet are.
fn one_digit(s: &[u8], at: usize, stop: u8) -> bool
    ensures { result ≡ one_of is_digit stop (drop at s.now) }
{
    if !crate::one_byte(s, at, stop) {
        return false;
    }
    if s[at] < b'0' {
        return false;
    }
    s[at] <= b'9'
}

// The same as `signed_column`, for a number of any length.
fn any_signed(s: &[u8], at: usize) -> Option<(i64, usize)>
    ensures { found bad_lines result ≡ signed_in space s.now at }
{
    let e = crate::column(s, at, crate::number_end(s, at), b' ')?;
    let z = decimal::read_i64(&s[at..e])?;
    Some((z, e))
}

pub fn signed_column(s: &[u8], at: usize) -> Option<(i64, usize)>
    ensures { found bad_lines result ≡ signed_in space s.now at }
{
    if one_digit(s, at, b' ') {
        return Some((buffer::wide(s[at] - b'0') as i64, at + 1));
    }
    any_signed(s, at)
}

// The same as `number_column`, for a number of any length.
fn any_number(s: &[u8], at: usize, stop: u8) -> Option<(u64, usize)>
    ensures { found bad_lines result ≡ number_in stop s.now at }
{
    let e = crate::column(s, at, crate::number_end(s, at), stop)?;
    let n = decimal::read_u64(&s[at..e])?;
    Some((n, e))
}

pub fn number_column(s: &[u8], at: usize, stop: u8) -> Option<(u64, usize)>
    requires { is_stop stop ≡ true }
    ensures { found bad_lines result ≡ number_in stop s.now at }
{
    if one_digit(s, at, stop) {
        return Some((buffer::wide(s[at] - b'0'), at + 1));
    }
    any_number(s, at, stop)
}

// A number and the end of its column.
#[derive(Drop)]
pub struct NumberTo {
    pub value: u64,
    pub end: usize,
}

// The number that is known to stand from place at on: its digits are read up to the byte that ends them, and not tested.
pub fn number_at(s: &[u8], at: usize) -> NumberTo
    requires { HasNumber s.now at }
    ensures { NumberStands s.now at result }
{
    let mut v: u64 = 0;
    let mut i = at;
    while b'0' <= s[i] {
        v = v * 10 + buffer::wide(s[i] - b'0');
        i += 1;
    }
    NumberTo { value: v, end: i }
}
