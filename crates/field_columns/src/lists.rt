// The lists in the columns of a field line: a union's ids, and pairs of keys and values. `~` is none, `-` the empty list; else the elements are joined
// by commas. They are tested where they stand.
ghost use Rattle.std.specs.Prelude.{◌≡◌, ◌+◌, ◌≤◌, length, drop};
ghost use Rattle.sheets.specs.Bytes.{comma, split};
ghost use Rattle.sheets.specs.Parts.{bytes_before};
ghost use Rattle.field_columns.specs.Lists.{is_mark, are_ids, is_ids, is_digits, key_end, pair_at, are_pairs, is_pairs};

use columns::ascii_pairs;

// The first place from `from` on whose byte is sep, or the end.
fn part_end(s: &[u8], from: usize, sep: u8) -> usize
    ensures { result ≡ from + bytes_before sep (drop from s.now) }
{
    for i in from..s.len() {
        if s[i] == sep {
            return i;
        }
    }
    from.max(s.len())
}

// Whether the column is `~` or `-`.
fn is_mark(c: &[u8]) -> bool
    ensures { result ≡ is_mark c.now }
{
    if c.len() != 1 {
        return false;
    }
    if c[0] == b'~' {
        return true;
    }
    c[0] == b'-'
}

// Whether each part between commas is a signed number of 32 bits.
fn are_ids(c: &[u8]) -> bool
    ensures { result ≡ are_ids (split comma c.now) }
{
    let mut end = part_end(c, 0, b',');
    let Some(_) = decimal::read_i32(&c[0..end]) else {
        return false;
    };
    // by place: each part tells where the next begins
    while end < c.len() {
        let next = end + 1;
        end = part_end(c, next, b',');
        let Some(_) = decimal::read_i32(&c[next..end]) else {
            return false;
        };
    }
    true
}

// Whether the column is a union's ids.
pub fn is_ids(c: &[u8]) -> bool
    ensures { result ≡ is_ids c.now }
{
    if is_mark(c) {
        return true;
    }
    are_ids(c)
}

// Whether t is pairs of digits whose bytes are UTF-8.
fn is_digits(t: &[u8]) -> bool
    ensures { result ≡ is_digits t.now }
{
    if !hexadecimal::is_hex(t) {
        return false;
    }
    utf8::is_utf8_hex(t)
}

// The end of the key of a pair, if p is a key, `=` and a value.
fn key_end(p: &[u8]) -> Option<usize>
    ensures { result ≡ key_end p.now }
{
    let k = part_end(p, 0, b'=');
    if p.len() <= k {
        return None;
    }
    if !is_digits(&p[0..k]) {
        return None;
    }
    let v = k + 1;
    if !is_digits(&p[v..]) {
        return None;
    }
    Some(k)
}

// The same as `pair_at`, for texts of any bytes.
fn any_pair(c: &[u8], at: usize) -> Option<(usize, usize)>
    requires { at ≤ length c.now }
    ensures { result ≡ pair_at c.now at }
{
    let end = part_end(c, at, b',');
    let k = key_end(&c[at..end])?;
    Some((at + k, end))
}

// Where the key of the pair from place at on ends, and where the pair does. In most, key and value are ASCII: then each byte is looked at once.
fn pair_at(c: &[u8], at: usize) -> Option<(usize, usize)>
    requires { at ≤ length c.now }
    ensures { result ≡ pair_at c.now at }
{
    let k = ascii_pairs::pairs_from(c, at);
    if c.len() <= k {
        return any_pair(c, at);
    }
    if c[k] != b'=' {
        return any_pair(c, at);
    }
    let e = ascii_pairs::pairs_from(c, k + 1);
    if e < c.len() {
        if c[e] != b',' {
            return any_pair(c, at);
        }
    }
    Some((k, e))
}

// Whether the parts between commas are pairs, each key after the one before it. Lowercase digits stand in the order of what they say, so that
// the keys are compared as they stand.
fn are_pairs(c: &[u8]) -> bool
    ensures { result ≡ are_pairs (split comma c.now) }
{
    let Some((first, first_end)) = pair_at(c, 0) else {
        return false;
    };
    let mut start = 0;
    let mut stop = first;
    let mut end = first_end;
    // by place: each pair tells where the next begins
    while end < c.len() {
        let next = end + 1;
        let Some((here, there)) = pair_at(c, next) else {
            return false;
        };
        if !byte_order::is_before(&c[start..stop], &c[next..here]) {
            return false;
        }
        start = next;
        stop = here;
        end = there;
    }
    true
}

// Whether the column is pairs.
pub fn is_pairs(c: &[u8]) -> bool
    ensures { result ≡ is_pairs c.now }
{
    if is_mark(c) {
        return true;
    }
    are_pairs(c)
}
