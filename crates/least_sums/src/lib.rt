// The least sum of values over the sets of a family's members, by two tables of sums.

#![tactic(auto)]

ghost use Rattle.std.specs.Prelude.{◌≡◌, map, ℕ, ◌<◌, get_or};
ghost use Rattle.family_lists.specs.Inner.Lists.{Summable, SumTables, LeastSum, LeastBy};
ghost use Rattle.family_lists.specs.Inner.Tables.{masks_in, sum_by};
ghost use Rattle.families.specs.Inner.Family.{family_words};
ghost use Rattle.least_sums.specs.Inner.Least.{least_of};

use families::WORDS;
use scores::NEVER;
use sums::MaskSums;
use vertex_set::VertexSet;

// The least of `best` and the sums of the masks of word b in the lanes of y. The bound of b stays a clause:
// a type for it would be made and opened on the spot.
fn least_in_word(y: u64, b: usize, sums: &MaskSums, best: u64) -> u64
    requires { b < family_words }
    ensures { result ≡ least_of best (map (sum_by sums.now.low sums.now.high) (masks_in b y)) }
{
    let base = sums.high[b / 2];
    let from = b % 2 * 64;
    let mut least = best;
    for i in successors::vertices_of(y) {
        let sum = base + sums.low[from + i];
        least = least.min(sum);
    }
    least
}

// The least sum over the family's members by two tables of sums; NEVER for an empty family.
pub fn least_by(f: &[u64; WORDS], sums: &MaskSums) -> u64
    ensures { LeastBy f.now sums.now.low sums.now.high result }
{
    let mut least = NEVER;
    for (b, x) in f.iter().enumerate() {
        if *x != 0 {
            least = least_in_word(*x, b, sums, least);
        }
    }
    least
}

// The sums of the chosen vertices' values. They serve every family on these vertices.
pub fn sum_tables(chosen: VertexSet, values: [u64; 64]) -> MaskSums
    requires { Summable chosen.0 (λ (v : ℕ). get_or values v 0) }
    ensures { SumTables chosen.0 (λ (v : ℕ). get_or values v 0) result.low result.high }
{
    let weights = sums::weights_of(chosen, values);
    MaskSums::of(weights)
}

// The least sum of values over the sets of the family's members; NEVER for an empty family.
pub fn least_sum(f: &[u64; WORDS], chosen: VertexSet, values: [u64; 64]) -> u64
    requires { Summable chosen.0 (λ (v : ℕ). get_or values v 0) }
    ensures { LeastSum chosen.0 f.now (λ (v : ℕ). get_or values v 0) result }
{
    let sums = sum_tables(chosen, values);
    least_by(f, &sums)
}
