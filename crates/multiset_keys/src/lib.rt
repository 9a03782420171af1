// Keys, by which the values of two sets are compared at seven thresholds at once. A key has 8 bits for
// each threshold: how many of the set's values are at or above it. Since sets have at most 64
// vertices, the highest bit of each lane is free.

#![tactic(auto)]

ghost use Rattle.std.specs.Prelude.{◌≡◌, ◌≤◌, length};
ghost use Rattle.std.specs.Int.Count.{ones};
ghost use Rattle.families.specs.Inner.Family.{mask_bits};
ghost use Rattle.multisets.specs.Meaning.{is_high};
ghost use Rattle.multiset_keys.specs.Inner.{packed_counts, high_marks, key_le, CountKey, Columns, MaskKeys};

use sums::MaskSums;
use vertex_set::VertexSet;

// The free bits of the seven lanes.
const GUARDS: u64 = 0x0080_8080_8080_8080;

// 1 where the value is at or above the threshold, else 0.
fn is_high(threshold: u64, value: u64) -> u64
    ensures { result ≡ is_high threshold value }
{
    u64::from(threshold <= value)
}

// The key of one value. The last threshold is taken first, so that it ends in the highest lane.
fn column(value: u64, thresholds: &[u64]) -> u64
    requires { length thresholds.now ≤ 7 }
    ensures { result ≡ packed_counts (high_marks thresholds.now value) }
{
    let mut key: u64 = 0;
    // By index: with `iter().rev()` the invariant has no place to speak of, and that the key fits its word
    // stayed open.
    for k in (0..thresholds.len()).rev() {
        let bit = is_high(thresholds[k], value);
        key = key * 256 + bit;
    }
    key
}

// The keys of all vertices' values. `mask_keys` is public and takes fewer thresholds than seven too, so
// that these come as a slice: an array of seven would ask more of its callers.
fn columns_of(values: [u64; 64], thresholds: &[u64]) -> [u64; 64]
    requires { length thresholds.now ≤ 7 }
    ensures { Columns values thresholds.now result }
{
    values.map(|value| column(value, thresholds))
}

// The key of each set of chosen vertices, as the sum of its vertices' columns.
pub fn mask_keys(chosen: VertexSet, values: [u64; 64], thresholds: &[u64]) -> MaskSums
    requires chosen_bound { ones chosen.0 ≤ mask_bits }
    requires thresholds_len_bound { length thresholds.now ≤ 7 }
    ensures { MaskKeys chosen.0 values thresholds.now result.low result.high }
{
    let columns = columns_of(values, thresholds);
    least_sums::sum_tables(chosen, columns)
}

// Is each lane of the key a at most that of the key b? The free bits of b are set before a is taken
// off, so that no lane borrows from the next, and a lane of a that is higher takes its free bit away.
pub fn key_at_most(a: u64, b: u64) -> bool
    requires count_key { CountKey a }
    requires count_key_2 { CountKey b }
    ensures { result ≡ key_le a b }
{
    ((b + GUARDS) - a) & GUARDS == GUARDS
}
