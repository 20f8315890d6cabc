// `metadata_from_bytes` over the hexadecimal text of a schema line's metadata, in place: pairs are entries, numbers that say where they stand. The
// count and the lengths are big-endian (`big`) or not.
#![tactic(auto)]

pub mod pair;
pub mod put;

ghost use Rattle.std.specs.Prelude.{◌≡◌, true, drop, Some};
ghost use Rattle.sheets.specs.Bytes.{same};
ghost use Rattle.sheets.specs.Metadata.{count_of, name_key, metadata_key, metadata_from_bytes};
ghost use Rattle.hexadecimal.specs.Hex.{is_hex, bytes_of};
ghost use Rattle.endian.specs.Word.{HasWord};
ghost use Rattle.metadata.specs.Entry.{length_at};
ghost use Rattle.metadata.specs.Reading.{kept_pairs, kept_answer, metadata_answer, MetadataStands, CanKeep, Keeps, Room, HasCount, CanOrderKeys, OrdersKeys};

use refusal::Refusal;

// The first `count` entries are the pairs; `name` and `more` are the entries of the extension's name and metadata, or 0.
#[derive(Drop)]
pub struct Metadata {
    pub count: usize,
    pub name: u32,
    pub more: u32,
}

// The length is tested first: most keys need no more.
fn is_name(text: &[u8]) -> bool
    requires { is_hex text.now ≡ true }
    ensures { result ≡ same (bytes_of text.now) name_key }
{
    if text.len() != 40 {
        return false;
    }
    hexadecimal::says(text, b"ARROW:extension:name")
}

fn is_more(text: &[u8]) -> bool
    requires { is_hex text.now ≡ true }
    ensures { result ≡ same (bytes_of text.now) metadata_key }
{
    if text.len() != 48 {
        return false;
    }
    hexadecimal::says(text, b"ARROW:extension:metadata")
}

// The reserved keys do not become pairs; of equal ones the last is kept. Keys are the same in either order.
fn keep(m: &[u8], entries: &mut [u32], f: Metadata, e: u32) -> Metadata
    requires { CanKeep m.now entries.old f e }
    ensures { Keeps m.now entries.old f e entries.new result }
{
    let count = f.count;
    let key = key_order::key_of(m, e);
    if is_name(key) {
        return Metadata {
            count,
            name: e,
            more: f.more,
        };
    }
    if is_more(key) {
        return Metadata {
            count,
            name: f.name,
            more: e,
        };
    }
    entries[count] = e;
    Metadata {
        count: count + 1,
        name: f.name,
        more: f.more,
    }
}

// Reads n pairs, each once: tests them and records their entries.
fn walk(m: &[u8], n: u32, big: bool, entries: &mut [u32]) -> Result<Metadata, Refusal>
    requires { HasCount m.now entries.old }
    ensures result_after { kept_answer big (bytes_of m.now) entries.new result ≡ kept_pairs big n (drop 4 (bytes_of m.now)) }
    ensures metadata_stands { MetadataStands big (bytes_of m.now) entries.new result }
{
    let mut f = Metadata {
        count: 0,
        name: 0,
        more: 0,
    };
    let mut k = 4;
    for _ in 0..n {
        let (size, next) = crate::pair::read_pair(m, k, big)?;
        f = keep(m, entries, f, key_order::entry_of(2 * (k + 4), 2 * size));
        k = next;
    }
    Ok(f)
}

// "A count of 0 or less gives no pairs": a negative one is 2147483648 or more.
fn count_of(m: &[u8], big: bool) -> u32
    requires { HasWord m.now 0 }
    ensures { result ≡ count_of (length_at big (bytes_of m.now) 0) }
{
    let n = endian::word_at(m, 0, big);
    if n < 2147483648 {
        return n;
    }
    0
}

// Puts the entries into the order of their keys.
fn in_order(m: &[u8], entries: &mut [u32], spare: &mut [u32], f: Metadata) -> Metadata
    requires { CanOrderKeys m.now entries.old spare.old f }
    ensures { OrdersKeys m.now entries.old spare.old f entries.new result }
{
    let count = key_order::sort::sort_keys(m, entries, spare, f.count);
    Metadata {
        count,
        name: f.name,
        more: f.more,
    }
}

// The pairs and the extension of a metadata block in hexadecimal text.
pub fn metadata_from_bytes(
    m: &[u8],
    big: bool,
    entries: &mut [u32],
    spare: &mut [u32],
) -> Result<Metadata, Refusal>
    requires { Room m.now entries.old spare.old }
    ensures result_after { metadata_answer big (bytes_of m.now) entries.new result ≡ metadata_from_bytes big (Some (bytes_of m.now)) }
    ensures metadata_stands { MetadataStands big (bytes_of m.now) entries.new result }
{
    if m.len() < 8 {
        return Err(Refusal::BadMetadata);
    }
    let f = walk(m, count_of(m, big), big, entries)?;
    Ok(in_order(m, entries, spare, f))
}
