// From one member of a family to the next, fewer bits first and then the smaller mask, found on the
// table itself: nothing is listed.

#![tactic(auto)]

ghost use Rattle.std.specs.Prelude.{◌≡◌, ◌<◌, length};
ghost use Rattle.families.specs.Inner.Family.{family_words, masks};
ghost use Rattle.families.specs.Inner.Masks.{SetOfMask};
ghost use Rattle.family_steps.specs.Inner.{LanesFrom, FirstOfSize, NextMember};

use families::WORDS;
use vertex_set::VertexSet;

// The most bits that a mask has, and one more.
const SIZES: usize = 15;

// The lanes of word b whose masks are `from` or above it. The bound of b stays a clause, as that of
// `next_member`'s mask: a type for it would be made and opened on the spot.
fn lanes_from(b: usize, from: usize) -> u64
    requires { b < family_words }
    ensures { LanesFrom b from result }
{
    let start = b * 64;
    if from <= start {
        return 0xFFFF_FFFF_FFFF_FFFF;
    }
    let low = VertexSet::below(from - start);
    !low.0
}

// The lowest member that has s bits and is `from` or above it.
fn first_of_size(f: &[u64; WORDS], s: usize, from: usize) -> Option<usize>
    ensures { FirstOfSize f.now s from result }
{
    // By number, since it begins in the middle of the family, at the word of `from`.
    for b in from / 64..WORDS {
        let sized = family_lists::lanes_of_size(b, s);
        let later = lanes_from(b, from);
        let lanes = f[b] & sized & later;
        if lanes != 0 {
            return Some(b * 64 + successors::lowest(lanes));
        }
    }
    None
}

// The first member after the mask m. Of m's own size only larger masks come after it, of the sizes
// above all do. The length stays a clause, here and in `family_lists::write_sets`: the family may be a part of
// a table.
pub fn next_member(f: &[u64], m: usize) -> Option<usize>
    requires f_len { length f.now ≡ family_words }
    requires m_lt_masks { m < masks }
    ensures { NextMember f.now m result }
{
    let words = f.first_chunk().unwrap();
    let size = m.count_ones() as usize;
    let mut from = m + 1;
    for s in size..SIZES {
        if let Some(next) = first_of_size(words, s, from) {
            return Some(next);
        }
        from = 0;
    }
    None
}

// The set that a mask stands for: its lowest bit is for the lowest chosen vertex, and so on.
pub fn set_of(chosen: VertexSet, mask: usize) -> VertexSet
    ensures { SetOfMask chosen.0 mask result.0 }
{
    let mut bits = mask as u64;
    let mut set: u64 = 0;
    for v in successors::vertices_of(chosen.0) {
        set += (bits % 2) << v;
        bits /= 2;
    }
    VertexSet(set)
}
