// The column `pairs` of a field line, read in place: `key=value` in hexadecimal, joined by commas.
#![tactic(auto)]

ghost use Rattle.std.specs.Prelude.{◌≡◌, false, ◌+◌, ◌≤◌, ◌<◌, length, drop};
ghost use Rattle.hexadecimal.specs.Hex.{is_digit};
ghost use Rattle.field_pairs.specs.Pairs.{reach, PassesDigits, Pairs, PairsFrom, pairs_of, PairAt, later_text, first_place, PairsColumn};
ghost use Rattle.field_pairs.specs.Reserved.{is_reserved, is_past, any_reserved, mentions_in, has_reserved};

// Where the pair that begins at some place has its sign, where it ends, and where the next one begins.
#[derive(Drop)]
pub struct PairPlace {
    pub equals: usize,
    pub end: usize,
    pub next: usize,
}

// How many digits the vector instructions test at once.
const BLOCK: usize = 32;

// Most keys and values are shorter, and end before a block would pay.
const NEAR: usize = 16;

// The first place from `from` on whose byte is b, or the end, one byte after the other.
fn scan(s: &[u8], from: usize, b: u8) -> usize
    requires { from ≤ length s.now }
    ensures { result ≡ from + reach b (drop from s.now) }
{
    for i in from..s.len() {
        if s[i] == b {
            return i;
        }
    }
    s.len()
}

// A place after blocks of digits.
fn pass_digits(s: &[u8], from: usize) -> usize
    requires { from ≤ length s.now }
    ensures { PassesDigits s.now from result }
{
    let mut i = from;
    // by index: the answer is the place where a block has another byte
    while BLOCK <= s.len() - i {
        let next = i + BLOCK;
        if !hexadecimal::is_hex(&s[i..next]) {
            return i;
        }
        i = next;
    }
    i
}

// The first place from `from` on whose byte is b, which is no digit, or the end: by single bytes at first, then by blocks.
fn place_of(s: &[u8], from: usize, b: u8) -> usize
    requires { (from ≤ length s.now) × (is_digit b ≡ false) }
    ensures { result ≡ from + reach b (drop from s.now) }
{
    let near = from + buffer::within(NEAR, s.len() - from);
    let here = from + scan(&s[from..near], 0, b);
    if here < near {
        return here;
    }
    scan(s, pass_digits(s, near), b)
}

// The pair that begins at place `at`.
pub fn pair_at(pairs: &[u8], at: usize) -> PairPlace
    requires { PairsFrom pairs.now at }
    ensures { PairAt pairs.now at result }
{
    let equals = place_of(pairs, at, b'=');
    let end = place_of(pairs, equals + 1, b',');
    let next = buffer::within(end + 1, pairs.len());
    PairPlace { equals, end, next }
}

// The place of the first pair: the end where there is none, as in `~` and `-`.
pub fn first_place(pairs: &[u8]) -> usize
    requires { PairsColumn pairs.now }
    ensures { result ≡ first_place pairs.now }
{
    if pairs[0] == b'~' {
        return pairs.len();
    }
    if pairs[0] == b'-' {
        return pairs.len();
    }
    0
}

// Whether the first digit tells that the pair at `place` has a key that stands after `key`. An empty key has no digit: it stands before every other.
pub fn comes_later(pairs: &[u8], place: usize, key: &[u8]) -> bool
    requires { PairsFrom pairs.now place × (0 < length key.now) }
    ensures { result ≡ later_text key.now (pairs_of (drop place pairs.now)) }
{
    let b = pairs[place];
    if b == b'=' {
        return false;
    }
    key[0] < b
}

// Whether a key's digits are those of `ARROW:extension:name` or of `ARROW:extension:metadata`. Most keys have another length.
fn is_reserved(key: &[u8]) -> bool
    ensures { result ≡ is_reserved key.now }
{
    let n = key.len();
    if n == 40 {
        return buffer::same(&key[..40], b"4152524f573a657874656e73696f6e3a6e616d65");
    }
    if n == 48 {
        return buffer::same(
            &key[..48],
            b"4152524f573a657874656e73696f6e3a6d65746164617461",
        );
    }
    false
}

// Whether the pair at `place` has a key that begins with a byte greater than `A`, whose digits are 41. An empty key begins with none.
fn is_past(pairs: &[u8], place: usize) -> bool
    requires { PairsFrom pairs.now place }
    ensures { result ≡ is_past (pairs_of (drop place pairs.now)) }
{
    let b = pairs[place];
    if b == b'4' {
        return b'1' < pairs[place + 1];
    }
    if b == b'=' {
        return false;
    }
    b'4' < b
}

// The least that a pair with a reserved key takes: 40 digits and the sign.
const LEAST: usize = 41;

// Whether the digits of `W:` stand anywhere they stand in a reserved key, as its fifth and sixth byte; in other pairs they seldom do. Nothing leaves the loop early, and the tests are joined without a branch: it compiles to vector instructions.
fn mentions(pairs: &[u8]) -> bool
    ensures { result ≡ mentions_in pairs.now }
{
    if pairs.len() < LEAST {
        return false;
    }
    let mut found = false;
    // by index: four places are read at each
    for i in 0..pairs.len() - (LEAST - 1) {
        let high = (pairs[i + 8] == b'5') & (pairs[i + 9] == b'7');
        let low = (pairs[i + 10] == b'3') & (pairs[i + 11] == b'a');
        found = found | (high & low);
    }
    found
}

// Whether a pair from place `from` on has a reserved key. Both begin with `A`, and the keys stand in order: from a key past that on none is reserved.
fn any_reserved(pairs: &[u8], from: usize) -> bool
    requires { Pairs pairs.now from }
    ensures { result ≡ any_reserved (pairs_of (drop from pairs.now)) }
{
    let mut place = from;
    // by place: each pair tells where the next begins
    while place < pairs.len() {
        if is_past(pairs, place) {
            return false;
        }
        let p = pair_at(pairs, place);
        let equals = p.equals;
        if is_reserved(&pairs[place..equals]) {
            return true;
        }
        place = p.next;
    }
    false
}

// Whether a pair has a reserved key. Most columns tell by their first key or by `mentions` that none has: walking the pairs costs far more.
pub fn has_reserved(pairs: &[u8]) -> bool
    requires { PairsColumn pairs.now × (length pairs.now < 65536) }
    ensures { result ≡ has_reserved pairs.now }
{
    let first = first_place(pairs);
    if pairs.len() <= first {
        return false;
    }
    if is_past(pairs, first) {
        return false;
    }
    if !mentions(pairs) {
        return false;
    }
    any_reserved(pairs, first)
}
