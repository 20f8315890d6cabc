// The order of a metadata block's keys: an entry tells where a key stands in the block's text, and entries are compared by their keys.
#![tactic(auto)]

pub mod insert;
pub mod merge;
pub mod shared;
pub mod sort;

ghost use Rattle.std.specs.Prelude.{◌≡◌, true, ◌+◌};
ghost use Rattle.byte_order.specs.Compare.{ordering, ordering_answer, Word};
ghost use Rattle.key_order.specs.Entry.{entry_of, IsEntry, start_of, size_of, key_at, rest_at, HasFour};

use std::cmp::Ordering;

// The entry of a key that starts at `start` and has `size` bytes.
pub fn entry_of(start: usize, size: usize) -> u32
    requires { IsEntry start size }
    ensures { result ≡ entry_of start size }
{
    (start * 65536 + size) as u32
}

fn start_of(e: u32) -> usize
    ensures { result ≡ start_of e }
{
    (e / 65536) as usize
}

fn size_of(e: u32) -> usize
    ensures { result ≡ size_of e }
{
    (e % 65536) as usize
}

// The place after the key.
pub fn end_of(e: u32) -> usize
    ensures { result ≡ start_of e + size_of e }
{
    start_of(e) + size_of(e)
}

// An entry may tell of more than the text has: the key then ends with the text.
pub fn key_of(text: &[u8], e: u32) -> &[u8]
    ensures { result.now ≡ key_at text.now e }
{
    let start = start_of(e);
    let end = end_of(e);
    if text.len() <= start {
        return &text[..0];
    }
    if text.len() < end {
        return &text[start..];
    }
    &text[start..end]
}

// The key without its first bytes, which all keys share.
pub fn rest_of(text: &[u8], e: u32, shared: u32) -> &[u8]
    ensures { result.now ≡ rest_at text.now shared e }
{
    let key = key_of(text, e);
    let start = shared as usize;
    if key.len() <= start {
        return &key[..0];
    }
    &key[start..]
}

// Whether the key has four bytes more than it shares, all of them in the text.
fn has_four(text: &[u8], e: u32, shared: u32) -> bool
    ensures { result ≡ true → HasFour text.now shared e }
{
    let end = shared as usize + 4;
    (end <= size_of(e)) & (start_of(e) + end <= text.len())
}

// Those four bytes as one number.
fn four_of(text: &[u8], e: u32, shared: u32) -> u32
    requires { HasFour text.now shared e }
    ensures { Word (rest_at text.now shared e) 0 result }
{
    byte_order::word_at(text, start_of(e) + shared as usize)
}

fn compare_rests(text: &[u8], p: u32, q: u32, shared: u32) -> Ordering
    ensures { ordering_answer result ≡ ordering (rest_at text.now shared p) (rest_at text.now shared q) }
{
    byte_order::compare(rest_of(text, p, shared), rest_of(text, q, shared))
}

// Compares two keys after what all keys share. The next four bytes decide for most.
pub fn compare_keys(text: &[u8], p: u32, q: u32, shared: u32) -> Ordering
    ensures { ordering_answer result ≡ ordering (rest_at text.now shared p) (rest_at text.now shared q) }
{
    if has_four(text, p, shared) & has_four(text, q, shared) {
        let x = four_of(text, p, shared);
        let y = four_of(text, q, shared);
        if x != y {
            return x.cmp(&y);
        }
    }
    compare_rests(text, p, q, shared)
}
