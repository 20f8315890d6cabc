// The columns of a line: where one ends, and the part of the sheet that it is.
#![tactic(auto)]

pub mod ascii_pairs;
pub mod number;
pub mod text;

ghost use Rattle.std.specs.Prelude.{◌≡◌, ◌≤◌, length, drop};
ghost use Rattle.sheets.specs.Rule.{passes};
ghost use Rattle.sheets.specs.Bytes.{all};
ghost use Rattle.columns.specs.Columns.{is_stop, stop_from, column_end, one_of, past_space, part_of, Passes};

// How many bytes the vector instructions test at once.
const BLOCK: usize = 32;

// Most texts are shorter, and end before a block would pay.
const NEAR: usize = 16;

// The bytes of a sheet from `start` up to `end`.
#[derive(Clone, Copy)]
pub struct Part {
    pub start: usize,
    pub end: usize,
}

pub fn between(start: usize, end: usize) -> Part
    ensures { result ≡ part_of start end }
{
    Part { start, end }
}

// Most bytes are past the space, so that one test is enough for them.
fn is_stop(b: u8) -> bool
    ensures { result ≡ is_stop b }
{
    if b' ' < b {
        return false;
    }
    if b == b' ' {
        return true;
    }
    b == b'\n'
}

// The first place from at on whose byte ends a column, or the end, one byte after the other: for numbers, which are short.
pub fn number_end(s: &[u8], at: usize) -> usize
    ensures { result ≡ stop_from s.now at }
{
    let mut i = at;
    while i < s.len() {
        if is_stop(s[i]) {
            return i;
        }
        i += 1;
    }
    i
}

// Whether the column from place at on is one byte, and the byte stop ends it: so most columns of a sheet are.
pub fn one_byte(s: &[u8], at: usize, stop: u8) -> bool
    ensures { result ≡ one_of past_space stop (drop at s.now) }
{
    if s.len() <= at {
        return false;
    }
    if s.len() - at < 2 {
        return false;
    }
    if s[at + 1] != stop {
        return false;
    }
    b' ' < s[at]
}

// Whether all bytes are past the space: then no column ends in them. Nothing leaves the loop early, so that it compiles to vector instructions.
fn are_past_space(b: &[u8]) -> bool
    ensures { result ≡ passes (all past_space b.now) }
{
    let mut ok = true;
    let mut i = 0;
    while i < b.len() {
        ok = ok & (b' ' < b[i]);
        i += 1;
    }
    ok
}

// A place after blocks in which no column ends.
fn pass_blocks(s: &[u8], at: usize) -> usize
    requires { at ≤ length s.now }
    ensures { Passes s.now at result }
{
    let mut i = at;
    while BLOCK <= s.len() - i {
        let next = i + BLOCK;
        if !are_past_space(&s[i..next]) {
            return i;
        }
        i = next;
    }
    i
}

// The same as `number_end`, for texts: by single bytes at first, since most are short, then by blocks.
pub fn any_end(s: &[u8], at: usize) -> usize
    ensures { result ≡ stop_from s.now at }
{
    if s.len() <= at {
        return at;
    }
    let near = at + buffer::within(NEAR, s.len() - at);
    let here = at + number_end(&s[at..near], 0);
    if here < near {
        return here;
    }
    number_end(s, pass_blocks(s, near))
}

// The same, for texts and lists of which most are `~`.
pub fn text_end(s: &[u8], at: usize) -> usize
    ensures { result ≡ stop_from s.now at }
{
    if one_byte(s, at, b' ') {
        return at + 1;
    }
    any_end(s, at)
}

// The end e of the column from place at on, if it is the byte stop.
pub fn column(s: &[u8], at: usize, e: usize, stop: u8) -> Option<usize>
    requires { e ≡ stop_from s.now at }
    ensures { result ≡ column_end stop s.now at }
{
    if s.len() <= e {
        return None;
    }
    if s[e] != stop {
        return None;
    }
    Some(e)
}
