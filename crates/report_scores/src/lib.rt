// What the report needs of a table of closures: it is filled once and cut down to the minimal sets,
// and then every vertex's score and list are read from it.

#![tactic(auto)]

ghost use Rattle.std.specs.Prelude.{true, false, ◌≡◌, ℕ, ◌+◌, ◌*◌, ◌≤◌, ◌<◌, length, get_or, take, drop};
ghost use Rattle.vertex_set.specs.Order.{sum_over};
ghost use Rattle.formed.specs.WellFormed.{WellFormed};
ghost use Rattle.scores.specs.Inner.Lists.{security_at, recoverability_at};
ghost use Rattle.families.specs.Inner.Family.{family_words};
ghost use Rattle.tables.specs.Inner.Table.{table_words};
ghost use Rattle.report_scores.specs.Inner.Scores.{Scored, Numbers, CanRead, Listing, Summands, KeptAt, KeptAll};

use families::WORDS;
use scores::{RecoverabilityScore, SecurityScore};
use setup::{Graph, Setup};
use sums::MaskSums;
use vertex_set::VertexSet;

// Room for any list: a family has no more members than there are masks.
pub const LIST_ROOM: usize = families::MASKS;

// The words of the vertex v in a table.
fn words_of(w: &[u64], v: usize) -> &[u64; WORDS]
    requires { v * family_words + family_words ≤ length w.now }
    ensures { result.now ≡ take family_words (drop (v * family_words) w.now) }
{
    w[v * WORDS..].first_chunk().unwrap()
}

// The target's base, read from the table: its sets stand at the front of out, and their number is
// the answer.
pub fn list_from(w: &[u64], chosen: VertexSet, target: usize, out: &mut [u64]) -> usize
    requires { CanRead w.now chosen.0 target out.old }
    ensures { Listing w.now chosen.0 target out.old result out.new }
{
    family_lists::write_sets(words_of(w, target), chosen, out)
}

// The sum of the values of the vertices of x.
pub fn set_sum(x: u64, values: &[u64]) -> u64
    requires { Summands values.now }
    ensures { result ≡ sum_over (λ (v : ℕ). get_or values.now v 0) x }
{
    let mut sum: u64 = 0;
    for v in successors::vertices_of(x) {
        sum += values[v];
    }
    sum
}

// Keeps the minimal members of the target's family in the table, and gives the least sum over them. The
// target's bound stays a clause: it is an index at once. Here and below the table's length does too: what
// `report_writer::begin` is lent may be parts of a longer list.
fn keep_base(w: &mut [u64], target: usize, sums: &MaskSums) -> u64
    requires w_len { length w.old ≡ table_words }
    requires target_bound { target < 64 }
    ensures { KeptAt w.old sums.now.low sums.now.high target result w.new }
{
    let from = target * WORDS;
    families::keep_minimal(&mut w[from..from + WORDS]);
    least_sums::least_by(words_of(w, target), sums)
}

// Keeps the minimal members of every vertex's family in the table, and writes the least sums, which
// are the scores, to `out`.
fn keep_bases(w: &mut [u64], sums: &MaskSums, out: &mut [u64; 64])
    requires { length w.old ≡ table_words }
    ensures { KeptAll w.old sums.now.low sums.now.high w.new out.new }
{
    for (v, score) in out.iter_mut().enumerate() {
        *score = keep_base(w, v, sums);
    }
}

// Fills the table of the graph and the initial vertices or, with loss, the losable ones, and makes
// it the table of their bases; out gets the scores of all vertices. The graph is the setup's, or
// that without recovery. Here and below setup, graph and table are no struct, and `WellFormed` stays a clause: a
// setup comes with either of two graphs, and with a table that is lent.
fn scores_in(s: Setup, graph: Graph, loss: bool, w: &mut [u64], out: &mut [u64; 64])
    requires formed { WellFormed s }
    requires w_len { length w.old ≡ table_words }
    ensures { Scored loss s graph w.new (λ (v : ℕ). get_or out.new v 0) }
{
    let chosen = setup::chosen(s, loss);
    let values = bases::values_of(s, loss);
    let sums = least_sums::sum_tables(chosen, values);
    tables::fill(graph, chosen, loss, w);
    keep_bases(w, &sums, out);
}

// The security scores of all vertices in the graph; w becomes the table of their opening sets.
pub fn security_in(s: Setup, graph: Graph, w: &mut [u64]) -> [SecurityScore; 64]
    requires formed { WellFormed s }
    requires w_len { length w.old ≡ table_words }
    ensures { Scored false s graph w.new (λ (v : ℕ). security_at result v) }
{
    let mut numbers = [0u64; 64];
    scores_in(s, graph, false, w, &mut numbers);
    numbers.map(SecurityScore::of)
}

// The recoverability scores of all vertices in the graph; w becomes the table of their lockout
// sets.
pub fn recoverability_in(s: Setup, graph: Graph, w: &mut [u64]) -> [RecoverabilityScore; 64]
    requires formed { WellFormed s }
    requires w_len { length w.old ≡ table_words }
    ensures { Scored true s graph w.new (λ (v : ℕ). recoverability_at result v) }
{
    let mut numbers = [0u64; 64];
    scores_in(s, graph, true, w, &mut numbers);
    numbers.map(RecoverabilityScore::of)
}
