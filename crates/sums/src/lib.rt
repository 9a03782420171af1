// Sums of the weights of at most 14 chosen vertices. A table has the sums over seven bits of a
// mask, so that two tables of 128 places serve all 2^14 masks.

#![tactic(auto)]

ghost use Rattle.std.specs.Prelude.{◌≡◌, ℕ, ◌≤◌, ◌<◌, get_or};
ghost use Rattle.std.specs.Int.Count.{ones};
ghost use Rattle.families.specs.Inner.Family.{mask_bits, masks};
ghost use Rattle.sums.specs.Inner.Sums.{Singles, WeightsOf, SumsFit, SumTable};
ghost use Rattle.sums.specs.Inner.Tables.{TablesFit, sum_by};

use vertex_set::VertexSet;

// At place v stands the number of the set whose only vertex is v.
pub fn singles() -> [u64; 64]
    ensures { Singles result }
{
    std::array::from_fn(|v| 1 << v)
}

// The values of the chosen vertices, lowest vertex first; the places behind them have 0. That they are at
// most 14 stays a clause, as in `families::words_for`.
pub fn weights_of(chosen: VertexSet, values: [u64; 64]) -> [u64; 14]
    requires { ones chosen.0 ≤ mask_bits }
    ensures { WeightsOf chosen.0 (λ (v : ℕ). get_or values v 0) result }
{
    let mut weights = [0u64; 14];
    let mut n: usize = 0;
    for v in successors::vertices_of(chosen.0) {
        weights[n] = values[v];
        n += 1;
    }
    weights
}

// Fills the table with the sums of the seven weights from `from` on: at place k stands the sum of
// the weights at the bits of k.
fn fill_sums(weights: [u64; 14], from: usize, table: &mut [u64; 128])
    requires from_bound { from ≤ 7 }
    requires sums_fit { SumsFit weights }
    ensures { SumTable weights from table.new }
{
    table[0] = 0;
    // By number: a sum is made of one that stands before it.
    for k in 1..128usize {
        let v = k.trailing_zeros() as usize;
        table[k] = table[k - (1 << v)] + weights[from + v];
    }
}

// The sums of all masks: `low` has those over a mask's low seven bits, `high` those over the others.
#[derive(Drop)]
pub struct MaskSums {
    pub low: [u64; 128],
    pub high: [u64; 128],
    pub ghost fit: { TablesFit low high },
}

impl MaskSums {
    // The sums of these weights.
    pub fn of(weights: [u64; 14]) -> MaskSums
        requires { SumsFit weights }
        ensures low_sums { SumTable weights 0 result.low }
        ensures high_sums { SumTable weights 7 result.high }
    {
        let mut low = [0u64; 128];
        let mut high = [0u64; 128];
        fill_sums(weights, 0, &mut low);
        fill_sums(weights, 7, &mut high);
        MaskSums { low, high }
    }

    // The sum of a mask. Its bound stays a clause: it is an index at once.
    pub fn at(&self, mask: usize) -> u64
        requires { mask < masks }
        ensures { result ≡ sum_by self.now.low self.now.high mask }
    {
        self.high[mask / 128] + self.low[mask % 128]
    }
}
