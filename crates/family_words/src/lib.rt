// Families of masks as words: bit i of word b stands for the mask b * 64 + i. A table is worked out
// block by block; here are the operations on the part of a family that lies in one block.

#![tactic(auto)]

ghost use Rattle.std.specs.Prelude.{◌≡◌, ◌+◌, ◌*◌, ◌<◌, length};
ghost use Rattle.vertex_set.specs.Set.{Member};
ghost use Rattle.family_words.specs.Inner.Words.{part_words, At, PartWhere, Merged, merged_word, Joined};

// A part of a family has 16 words of 64 bits, a bit for each of 2^10 masks.
pub const PART: usize = 16;

// The bits that both words have or, with `any`, that one of them has.
#[tactic(auto, unfolding(crate::specs::Inner::Words::merged_word))]
fn merged(any: bool, x: u64, y: u64) -> u64
    ensures { result ≡ merged_word any x y }
{
    if any { x | y } else { x & y }
}

// The part keeps only the masks that the other has too or, with `any`, gains those that the other
// has. The lengths stay clauses: either part may lie in a longer list.
pub fn merge_in(any: bool, d: &mut [u64], s: &[u64])
    requires d_len { length d.old ≡ part_words }
    requires s_len { length s.now ≡ part_words }
    ensures { PartWhere (λ b i. Merged any (At d.old b i) (At s.now b i)) d.new }
{
    for (b, y) in s.iter().enumerate() {
        d[b] = merged(any, d[b], *y);
    }
}

// The part gains the masks that the other has. Was one of them new? `d` is a slice, since it is cut out
// of a block and written there: tried with `first_chunk_mut`, of whose end the proof learns the length alone.
pub fn join(d: &mut [u64], s: &[u64; PART]) -> bool
    requires { length d.old ≡ part_words }
    ensures { Joined d.old s.now result d.new }
{
    let mut fresh: u64 = 0;
    for (b, more) in s.iter().enumerate() {
        let old = d[b];
        d[b] = old | *more;
        fresh |= *more & !old;
    }
    fresh != 0
}

// For each of the six bits within a word, the lanes whose number has the bit.
const PATTERNS: [u64; 6] = [
    0xAAAA_AAAA_AAAA_AAAA,
    0xCCCC_CCCC_CCCC_CCCC,
    0xF0F0_F0F0_F0F0_F0F0,
    0xFF00_FF00_FF00_FF00,
    0xFFFF_0000_FFFF_0000,
    0xFFFF_FFFF_0000_0000,
];

// The part of the masks that have the bit k. Its bound stays a clause: a type for it would be made and
// opened on the spot.
pub fn start_words(k: usize) -> [u64; PART]
    requires { k < 64 }
    ensures { PartWhere (λ b i. Member (b * 64 + i) k) result }
{
    let mut part = [0u64; PART];
    if k < 6 {
        part.fill(PATTERNS[k]);
        return part;
    }
    let j = k - 6;
    for (b, word) in part.iter_mut().enumerate() {
        let bit = (b >> j) % 2;
        *word = (bit as u64) * u64::MAX;
    }
    part
}
