// The sets of a family's members, listed in order. The number of a mask's set is the sum of its
// vertices' powers of 2, and is found by two tables of sums.

#![tactic(auto)]

ghost use Rattle.std.specs.Prelude.{◌≡◌, map, ◌+◌, ◌≤◌, ◌<◌, length, take};
ghost use Rattle.std.specs.Int.Count.{ones};
ghost use Rattle.families.specs.Inner.Family.{size, family_words};
ghost use Rattle.written.specs.Inner.{Wrote};
ghost use Rattle.family_lists.specs.Inner.Lists.{Writable, WroteSets};
ghost use Rattle.family_lists.specs.Inner.Tables.{Layer, LanesOfSize, masks_in, rising, Occupied, JoinedBySize, SomeOfSize, of_size, by_size, sum_by};

use families::WORDS;
use sums::MaskSums;
use vertex_set::VertexSet;

// At place k stand the lanes of a word whose numbers have k bits.
const LAYERS: [u64; 7] = [
    0x0000_0000_0000_0001,
    0x0000_0001_0001_0116,
    0x0001_0116_0116_1668,
    0x0116_1668_1668_6880,
    0x1668_6880_6880_8000,
    0x6880_8000_8000_0000,
    0x8000_0000_0000_0000,
];

// The lanes whose numbers have s - k bits; none where k is above s.
fn layer(k: usize, s: usize) -> u64
    ensures { Layer k s result }
{
    if s < k {
        return 0;
    }
    let d = s - k;
    if d < 7 { LAYERS[d] } else { 0 }
}

// The lanes of word b whose masks have s bits.
pub fn lanes_of_size(b: usize, s: usize) -> u64
    ensures { LanesOfSize b s result }
{
    let k = b.count_ones() as usize;
    layer(k, s)
}

// Writes the sums of the masks of word b in the lanes of y, from `at` on, and gives the next place. Here and
// in `put_sized` the bound of b stays a clause: a type for it would be made and opened on the spot. Sums, list and
// place are no struct: `writing::Pen` is of bytes, and what these three write is made word by word and not copied.
fn put_word(y: u64, b: usize, sums: &MaskSums, out: &mut [u64], at: usize) -> usize
    requires b_lt_family_words { b < family_words }
    requires y_in_bounds { at + ones y ≤ length out.old }
    ensures { Wrote out.old at (map (sum_by sums.now.low sums.now.high) (masks_in b y)) out.new result }
{
    let base = sums.high[b / 2];
    let from = b % 2 * 64;
    let mut next = at;
    for i in successors::vertices_of(y) {
        out[next] = base + sums.low[from + i];
        next += 1;
    }
    next
}

// Of the masks of word b in the lanes of x, writes the sums of those that have s bits, from `at`
// on, and gives the next place.
fn put_sized(x: u64, b: usize, s: usize, sums: &MaskSums, out: &mut [u64], at: usize) -> usize
    requires b_lt_family_words { b < family_words }
    requires x_in_bounds { at + length (of_size s (masks_in b x)) ≤ length out.old }
    ensures { Wrote out.old at (map (sum_by sums.now.low sums.now.high) (of_size s (masks_in b x))) out.new result }
{
    let lanes = lanes_of_size(b, s);
    put_word(x & lanes, b, sums, out, at)
}

// Writes the numbers of the family's words that are not empty to the front of `index`, and gives
// their count. By them the other loops pass over empty words.
fn occupied_words(f: &[u64; WORDS], index: &mut [usize; WORDS]) -> usize
    ensures { (result ≤ family_words) × Occupied f.now (take result index.new) }
{
    let mut n: usize = 0;
    for (b, x) in f.iter().enumerate() {
        index[n] = b;
        if *x != 0 {
            n += 1;
        }
    }
    n
}

// Writes the sums of the family's members that have s bits, from `at` on, and gives the next place.
// All members are in the words with the listed numbers.
fn put_size(
    f: &[u64; WORDS],
    occupied: &[usize],
    s: usize,
    sums: &MaskSums,
    out: &mut [u64],
    at: usize,
) -> usize
    requires words { Occupied f.now occupied.now }
    requires f_in_bounds { at + length (of_size s (rising 0 f.now)) ≤ length out.old }
    ensures { Wrote out.old at (map (sum_by sums.now.low sums.now.high) (of_size s (rising 0 f.now))) out.new result }
{
    let mut next = at;
    for b in occupied {
        next = put_sized(f[*b], *b, s, sums, out, next);
    }
    next
}

// At place k stand the lanes that are in some word of the family whose number has k bits. All
// members are in the words with the listed numbers.
fn joined_words(f: &[u64; WORDS], occupied: &[usize]) -> [u64; 9]
    requires { Occupied f.now occupied.now }
    ensures { JoinedBySize f.now result }
{
    let mut joined = [0u64; 9];
    for b in occupied {
        let k = b.count_ones() as usize;
        joined[k] |= f[*b];
    }
    joined
}

// Has the family a member of s bits? `joined` has at place k the lanes that are in some word of the
// family whose number has k bits.
fn some_of_size(joined: &[u64; 9], s: usize) -> bool
    ensures { SomeOfSize joined.now s result }
{
    for (k, x) in joined.iter().enumerate() {
        let lanes = layer(k, s);
        if *x & lanes != 0 {
            return true;
        }
    }
    false
}

// Writes the sums of all members of the family to the front of `out`, fewer bits first, and gives
// their number. Sizes that no member has are passed over.
fn put_all(f: &[u64; WORDS], sums: &MaskSums, out: &mut [u64]) -> usize
    requires { size f.now ≤ length out.old }
    ensures { Wrote out.old 0 (map (sum_by sums.now.low sums.now.high) (by_size (rising 0 f.now) 0 15)) out.new result }
{
    let mut index = [0usize; WORDS];
    let n = occupied_words(f, &mut index);
    let joined = joined_words(f, &index[..n]);
    let mut next: usize = 0;
    for s in 0..15usize {
        let some = some_of_size(&joined, s);
        if some {
            next = put_size(f, &index[..n], s, sums, out, next);
        }
    }
    next
}

// Writes the sets of the family's members to the front of `out`, fewer vertices first and then the
// smaller set number, and gives the count of sets. The number of a set is the sum of its vertices'
// powers of 2. The family may be a part of a table, so its length stays a clause.
pub fn write_sets(f: &[u64], chosen: VertexSet, out: &mut [u64]) -> usize
    requires { Writable chosen.0 f.now (length out.old) }
    ensures { WroteSets chosen.0 f.now out.old result out.new }
{
    let values = sums::singles();
    let weights = sums::weights_of(chosen, values);
    let sums = MaskSums::of(weights);
    put_all(f.first_chunk().unwrap(), &sums, out)
}
