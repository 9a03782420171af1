// Families of subsets of at most 14 chosen vertices, as truth tables: bit m % 64 of word m / 64
// says whether the mask m is a member. Nothing here depends on a graph.

#![tactic(auto)]

ghost use Rattle.std.specs.Prelude.{◌≡◌, ◌≤◌, ◌<◌, length};
ghost use Rattle.std.specs.Int.Count.{ones};
ghost use Rattle.families.specs.Inner.Family.{family_words, mask_bits, size, WordsFit, MinimalMembers, LeastBelow};
ghost use Rattle.families.specs.Inner.Exact.{WordsFor};
ghost use Rattle.families.specs.Inner.Masks.{MaskOf};
ghost use Rattle.families.specs.Inner.Steps.{StepsInWord, StepsToWord, LeastWord, ClearedFrom};

use vertex_set::VertexSet;

// A family has 256 words of 64 bits, a bit for each of 2^14 masks. The number of masks is no mask.
pub const WORDS: usize = 256;

pub const MASKS: usize = WORDS * 64;

// How many words the masks of sets of chosen vertices fill: no minimal member is in a later one. Here and
// in `mask_of` the count stays a clause: the calls speak of any set of vertices, and so of no narrower type.
pub fn words_for(chosen: VertexSet) -> usize
    requires { ones chosen.0 ≤ mask_bits }
    ensures { WordsFor chosen.0 result }
{
    let n = chosen.0.count_ones() as usize;
    if n <= 6 {
        return 1;
    }
    1 << (n - 6)
}

// The number of a word's members. Most words have none.
fn count_word(x: u64) -> usize
    ensures { result ≡ ones x }
{
    if x == 0 {
        return 0;
    }
    x.count_ones() as usize
}

// The number of the family's members. That its words are words of 64 bits is told as well: of an array
// that a call has written, a caller's proof knows the length alone.
pub fn count_members(f: &[u64; WORDS]) -> usize
    ensures count { result ≡ size f.now }
    ensures words { WordsFit f.now }
{
    let mut n: usize = 0;
    for x in f {
        n += count_word(*x);
    }
    n
}

// The lanes whose numbers are those of x's lanes with one more bit set.
fn steps_in_word(x: u64) -> u64
    ensures { StepsInWord x result }
{
    let a = (x << 1) & 0xAAAA_AAAA_AAAA_AAAA;
    let b = (x << 2) & 0xCCCC_CCCC_CCCC_CCCC;
    let c = (x << 4) & 0xF0F0_F0F0_F0F0_F0F0;
    let d = (x << 8) & 0xFF00_FF00_FF00_FF00;
    let e = (x << 16) & 0xFFFF_0000_FFFF_0000;
    let g = (x << 32) & 0xFFFF_FFFF_0000_0000;
    a | b | c | d | e | g
}

// The lanes that the family has in a word whose number is b less one of its bits. Here and in
// `least_word` the bound of b stays a clause: a type for it would be made and opened on the spot.
fn steps_to_word(f: &[u64; WORDS], b: usize) -> u64
    requires { b < family_words }
    ensures { StepsToWord f.now b 8 result }
{
    let mut lanes: u64 = 0;
    // By number: the place of the bit says which word is looked at.
    for j in 0..8usize {
        let bit = (b >> j) % 2;
        if bit == 1 {
            lanes |= f[b - (1 << j)];
        }
    }
    lanes
}

// The lanes of word b whose masks are members of the family, while no mask with one bit fewer is.
fn least_word(f: &[u64; WORDS], b: usize) -> u64
    requires { b < family_words }
    ensures { LeastWord f.now b result }
{
    let x = f[b];
    let low = steps_in_word(x);
    let high = steps_to_word(f, b);
    x & !(low | high)
}

// The words from n on become 0.
fn clear_from(n: usize, d: &mut [u64; WORDS])
    requires { n ≤ family_words }
    ensures { ClearedFrom n d.new }
{
    d[n..].fill(0);
}

// The family's minimal members, written to out; they are all in the first n words. One step down is
// enough: the family is monotone.
pub fn minimal_members(f: &[u64; WORDS], n: usize, out: &mut [u64; WORDS])
    requires { LeastBelow n f.now }
    ensures { MinimalMembers f.now out.new }
{
    clear_from(n, out);
    // By number, by which both families are taken.
    for b in 0..n {
        out[b] = least_word(f, b);
    }
}

// Keeps the family's minimal members alone. Each word is judged by itself and by words of smaller
// numbers, so the last word goes first and no copy is needed. The length stays a clause: the family may be
// a part of a table, and that is a slice.
pub fn keep_minimal(f: &mut [u64])
    requires { length f.old ≡ family_words }
    ensures { MinimalMembers f.old f.new }
{
    for b in (0..WORDS).rev() {
        f[b] = least_word(f.first_chunk().unwrap(), b);
    }
}

// The mask of a set x of chosen vertices, gathered from the lowest chosen vertex to the highest.
pub fn mask_of(chosen: VertexSet, x: u64) -> usize
    requires { ones chosen.0 ≤ mask_bits }
    ensures { MaskOf chosen.0 x result }
{
    let mut mask: u64 = 0;
    let mut n: u32 = 0;
    for v in successors::vertices_of(chosen.0) {
        let bit = (x >> v) % 2;
        mask += bit << n;
        n += 1;
    }
    mask as usize
}
