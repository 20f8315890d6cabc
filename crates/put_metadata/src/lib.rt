// The metadata column of a schema line: the block of `metadata_to_bytes` in hexadecimal, from the column `pairs` of a field line and the
// columns of its extension; its count and lengths are big-endian (`big`) or not. The pairs stand in the order of their keys, so that the reserved keys are merged in on one walk.
#![tactic(auto)]

ghost use Rattle.std.specs.Prelude.{◌<◌, length};
ghost use Rattle.buffer.specs.Over.{PutAt};
ghost use Rattle.field_pairs.specs.Pairs.{Pairs, PairAt};
ghost use Rattle.put_metadata.specs.Block.{sized_text, pair_pieces, metadata_column};
ghost use Rattle.put_metadata.specs.Walks.{PutsFound, PutsUntil, PutsReserved, PutsMore, IsAfter, PutsLeft, CanPutText, CanPutPair, CanWalk, CanPutReserved, CanPutMore, CanPutLeft, CanPutMetadata};

use field_pairs::PairPlace;

// How far the pairs are written: a place in the column, the place in the buffer, and the number of pairs.
#[derive(Drop)]
struct Walk {
    place: usize,
    end: usize,
    count: usize,
}

// A text of the block: its length and its bytes.
fn put_text(out: &mut [u8], at: usize, text: &[u8], big: bool) -> usize
    requires { CanPutText text.now at }
    ensures { PutAt at (sized_text big text.now) result out.old out.new }
{
    let size = (text.len() / 2) as u32;
    let after = endian::put_word(out, at, size, big);
    buffer::put_at(out, after, text)
}

fn put_pair(out: &mut [u8], at: usize, key: &[u8], value: &[u8], big: bool) -> usize
    requires { CanPutPair key.now value.now at }
    ensures { PutAt at (pair_pieces big key.now value.now) result out.old out.new }
{
    let after = put_text(out, at, key, big);
    put_text(out, after, value, big)
}

// The pair p of the column, which begins where the walk is.
fn put_found(out: &mut [u8], w: Walk, pairs: &[u8], p: PairPlace, big: bool) -> Walk
    requires { CanWalk pairs.now w 0 × PairAt pairs.now w.place p }
    ensures { PutsFound big pairs.now w p result out.old out.new }
{
    let place = w.place;
    let equals = p.equals;
    let value = equals + 1;
    let stop = p.end;
    let end = put_pair(out, w.end, &pairs[place..equals], &pairs[value..stop], big);
    Walk {
        place: p.next,
        end,
        count: w.count + 1,
    }
}

// The pairs whose keys stand before `key`. Hexadecimal text keeps the order of bytes, so that nothing is decoded.
fn put_until(out: &mut [u8], w: Walk, pairs: &[u8], key: &[u8], big: bool) -> Walk
    requires { CanWalk pairs.now w 0 × (0 < length key.now) }
    ensures { PutsUntil big pairs.now key.now w result out.old out.new }
{
    let mut walk = w;
    while walk.place < pairs.len() {
        let place = walk.place;
        if field_pairs::comes_later(pairs, place, key) {
            return walk;
        }
        let p = field_pairs::pair_at(pairs, place);
        let equals = p.equals;
        if !byte_order::is_before(&pairs[place..equals], key) {
            return walk;
        }
        walk = put_found(out, walk, pairs, p, big);
    }
    walk
}

// The place after the pair at `place` if its key is `key`: another value is written for it.
fn after_same(pairs: &[u8], place: usize, key: &[u8]) -> usize
    requires { Pairs pairs.now place × (0 < length key.now) }
    ensures { IsAfter pairs.now key.now place result }
{
    if pairs.len() <= place {
        return place;
    }
    if field_pairs::comes_later(pairs, place, key) {
        return place;
    }
    let p = field_pairs::pair_at(pairs, place);
    let equals = p.equals;
    if buffer::same(&pairs[place..equals], key) {
        return p.next;
    }
    place
}

// The pairs before a reserved key, and that key with its value; a pair that has this key is left out.
fn put_reserved(out: &mut [u8], w: Walk, pairs: &[u8], key: &[u8], value: &[u8], big: bool) -> Walk
    requires { CanPutReserved pairs.now w key.now value.now }
    ensures { PutsReserved big pairs.now key.now value.now w result out.old out.new }
{
    let a = put_until(out, w, pairs, key, big);
    let end = put_pair(out, a.end, key, value, big);
    let place = after_same(pairs, a.place, key);
    Walk {
        place,
        end,
        count: a.count + 1,
    }
}

// `ARROW:extension:metadata` with the extension's metadata, if it has any, and the pairs before.
fn put_more(out: &mut [u8], w: Walk, pairs: &[u8], more: &[u8], big: bool) -> Walk
    requires { CanPutMore pairs.now w more.now }
    ensures { PutsMore big pairs.now more.now w result out.old out.new }
{
    if buffer::same(more, b"~") {
        return w;
    }
    let value = schema_line::text_of(more);
    // The key is `ARROW:extension:metadata`.
    put_reserved(
        out,
        w,
        pairs,
        b"4152524f573a657874656e73696f6e3a6d65746164617461",
        value,
        big,
    )
}

// The pairs that are left, and the count of all of them at place `at`. `~` stands after every hexadecimal text.
fn put_left(out: &mut [u8], at: usize, w: Walk, pairs: &[u8], big: bool) -> usize
    requires { CanPutLeft pairs.now at w }
    ensures { PutsLeft big pairs.now at w result out.old out.new }
{
    let a = put_until(out, w, pairs, b"~", big);
    let count = a.count as u32;
    let _after = endian::put_word(out, at, count, big);
    a.end
}

// Writes the column from place `at` on, as much as fits; the place after it. An extension's name is never `~`: that stands for no extension.
pub fn put_metadata(
    out: &mut [u8],
    at: usize,
    pairs: &[u8],
    name: &[u8],
    more: &[u8],
    big: bool,
) -> usize
    requires { CanPutMetadata pairs.now name.now more.now at }
    ensures { PutAt at (metadata_column big pairs.now name.now more.now) result out.old out.new }
{
    let place = field_pairs::first_place(pairs);
    let w = Walk {
        place,
        end: at + 8,
        count: 0,
    };
    if buffer::same(name, b"~") {
        if place == pairs.len() {
            return buffer::put_byte(out, at, b'~');
        }
        return put_left(out, at, w, pairs, big);
    }
    let a = put_more(out, w, pairs, more, big);
    let value = schema_line::text_of(name);
    // The key is `ARROW:extension:name`, which stands after `ARROW:extension:metadata`.
    let b = put_reserved(
        out,
        a,
        pairs,
        b"4152524f573a657874656e73696f6e3a6e616d65",
        value,
        big,
    );
    put_left(out, at, b, pairs, big)
}
