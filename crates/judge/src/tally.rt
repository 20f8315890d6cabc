// What the program `replay` counts of the records.
ghost use Rattle.std.specs.Prelude.{◌≡◌, ◌≤◌};
ghost use Rattle.recorded_list.specs.Codes.{calls};
ghost use Rattle.judge.specs.Tally.{counted, tallied, differs};

use crate::Numbers;
use recorded_list::call::CALLS;

// The places of the counts: the replayed records of each call, then those of them that differ.
const REPLAYED: usize = 0;

pub const DIFFER: usize = CALLS;

pub const COUNTS: usize = 2 * CALLS;

// Counts one more for the call, among the counts from place from on. No count comes near 2^64.
fn count(kept: &mut [u64; COUNTS], from: usize, call: u64)
    requires { from ≤ calls }
    ensures { kept.new ≡ counted from call kept.old }
{
    if call < CALLS as u64 {
        let c = from + call as usize;
        kept[c] = std::num::wrapping_add_u64(kept[c], 1);
    }
}

// Counts a record by what was told of it, and answers whether it differs.
pub fn tally(r: Option<Numbers>, call: u64, kept: &mut [u64; COUNTS]) -> bool
    ensures { (result ≡ differs r) × (kept.new ≡ tallied r call kept.old) }
{
    match r {
        None => {
            count(kept, REPLAYED, call);
            false
        }
        Some(_) => {
            count(kept, REPLAYED, call);
            count(kept, DIFFER, call);
            true
        }
    }
}
