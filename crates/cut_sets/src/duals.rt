// The dual of a family: a mask is in it exactly if the mask of all other bits is not in the family.
// All 2^14 masks take part, however few vertices are chosen: bits beyond the chosen vertices pick
// nothing.
ghost use Rattle.cut_sets.specs.Inner.{TurnedRound, Dual};

use families::WORDS;

// The lanes in the opposite order: neighbours change places, then pairs, and so on up to halves.
fn turn_round(x: u64) -> u64
    ensures { TurnedRound x result }
{
    let a = ((x >> 1) & 0x5555_5555_5555_5555) | ((x << 1) & 0xAAAA_AAAA_AAAA_AAAA);
    let b = ((a >> 2) & 0x3333_3333_3333_3333) | ((a << 2) & 0xCCCC_CCCC_CCCC_CCCC);
    let c = ((b >> 4) & 0x0F0F_0F0F_0F0F_0F0F) | ((b << 4) & 0xF0F0_F0F0_F0F0_F0F0);
    let d = ((c >> 8) & 0x00FF_00FF_00FF_00FF) | ((c << 8) & 0xFF00_FF00_FF00_FF00);
    let e = ((d >> 16) & 0x0000_FFFF_0000_FFFF) | ((d << 16) & 0xFFFF_0000_FFFF_0000);
    ((e >> 32) & 0x0000_0000_FFFF_FFFF) | ((e << 32) & 0xFFFF_FFFF_0000_0000)
}

// The dual of the family f, written to out. The mask of all other bits stands as far from the end
// as the mask from the beginning: in the word opposite, in the lane opposite.
pub(crate) fn dual(f: &[u64; WORDS], out: &mut [u64; WORDS])
    ensures { Dual f.now out.new }
{
    for (b, word) in out.iter_mut().enumerate() {
        let turned = turn_round(f[WORDS - 1 - b]);
        *word = !turned;
    }
}
