// Bases and scores, read from a table of all subsets.

#![tactic(auto)]

ghost use Rattle.std.specs.Prelude.{◌≤◌, ◌<◌};
ghost use Rattle.std.specs.Int.Count.{ones};
ghost use Rattle.formed.specs.WellFormed.{WellFormed};
ghost use Rattle.derivations.specs.Both.{rule_of};
ghost use Rattle.tables.specs.Inner.Blocks.{block_bits};
ghost use Rattle.tables.specs.Inner.Table.{FamilyOfVertex};
ghost use Rattle.bases.specs.Inner.Readers.{CanList, BaseFamily, BothFamilies, Values, ScoreBoth};

use families::WORDS;
use family_words::PART;
use lanes::BLOCK;
use setup::{Graph, Setup};
use tables::{BLOCK_BITS, TABLE};
use vertex_set::VertexSet;

// The family of the sets of chosen vertices from which the target has a derivation, by a table of
// all vertices. The table is a local of this function alone. Here and in the functions below the target's
// bound stays a clause: it is a number for the calls, and becomes an index here. Graph, chosen vertices, way and
// target are no struct: a target is one place of a table, which `tables` makes of the other three, and a setup has
// two graphs.
fn family_by_table(
    graph: Graph,
    chosen: VertexSet,
    loss: bool,
    target: usize,
    out: &mut [u64; WORDS],
)
    requires { target < 64 }
    ensures { FamilyOfVertex (rule_of loss graph) chosen.0 target out.new }
{
    let mut w = [0u64; TABLE];
    tables::fill(graph, chosen, loss, &mut w);
    let from = target * WORDS;
    out.copy_from_slice(&w[from..from + WORDS]);
}

// The same by one block of a table. At most ten vertices are chosen: no mask's set heeds a bit that
// tells blocks apart, so the target's words of one block are those of every block.
fn family_by_block(
    graph: Graph,
    chosen: VertexSet,
    loss: bool,
    target: usize,
    out: &mut [u64; WORDS],
)
    requires target_bound { target < 64 }
    requires chosen_bound { ones chosen.0 ≤ block_bits }
    ensures { FamilyOfVertex (rule_of loss graph) chosen.0 target out.new }
{
    let mut x = [0u64; BLOCK];
    tables::fill_block(graph, chosen, loss, &mut x);
    let from = target * PART;
    for (b, word) in out.iter_mut().enumerate() {
        *word = x[from + b % PART];
    }
}

// The family of the sets of chosen vertices from which the target has a derivation. The table is
// asked for in two places: the compiler then leaves it out of this function's frame, and with at
// most ten chosen vertices a call needs no stack for it.
pub fn family_of(graph: Graph, chosen: VertexSet, loss: bool, target: usize, out: &mut [u64; WORDS])
    requires { target < 64 }
    ensures { FamilyOfVertex (rule_of loss graph) chosen.0 target out.new }
{
    if u64::count_ones(chosen.0) as usize <= BLOCK_BITS {
        family_by_block(graph, chosen, loss, target, out);
        return;
    }
    if loss {
        family_by_table(graph, chosen, true, target, out);
        return;
    }
    family_by_table(graph, chosen, false, target, out);
}

// The start values of all vertices, or for a loss the loss values; 0 for a blank.
pub fn values_of(s: Setup, loss: bool) -> [u64; 64]
    ensures { Values loss s result }
{
    let mut r = [0u64; 64];
    for (v, vertex) in s.vertices.iter().enumerate() {
        let value = setup::value_of(loss, *vertex);
        r[v] = setup::points_of(value);
    }
    r
}

// The least sum of start values, or for a loss of loss values, over all sets from which the target
// has a derivation: it is found among the minimal sets. The graph is the setup's own, or the one
// without recovery.
pub fn score_of(s: Setup, graph: Graph, loss: bool, target: usize) -> u64
    requires { WellFormed s × (target < 64) }
    ensures { ScoreBoth loss s graph target result }
{
    let chosen = setup::chosen(s, loss);
    let values = values_of(s, loss);
    let mut family = [0u64; WORDS];
    family_of(graph, chosen, loss, target, &mut family);
    let mut minimal = [0u64; WORDS];
    let words = families::words_for(chosen);
    families::minimal_members(&family, words, &mut minimal);
    least_sums::least_sum(&minimal, chosen, values)
}

// The target's family, the family of its minimal members, whose sets are the target's base, and
// their number.
pub fn both_families(
    s: Setup,
    graph: Graph,
    loss: bool,
    target: usize,
    chosen: VertexSet,
    family: &mut [u64; WORDS],
    minimal: &mut [u64; WORDS],
) -> usize
    requires { CanList loss s target chosen.0 }
    ensures { BothFamilies loss s graph target chosen.0 family.new minimal.new result }
{
    family_of(graph, chosen, loss, target, family);
    let words = families::words_for(chosen);
    families::minimal_members(family, words, minimal);
    families::count_members(minimal)
}

// The family of the target's minimal sets, which are the target's base, and their number.
pub fn base_family(
    s: Setup,
    graph: Graph,
    loss: bool,
    target: usize,
    chosen: VertexSet,
    out: &mut [u64; WORDS],
) -> usize
    requires { CanList loss s target chosen.0 }
    ensures { BaseFamily loss s graph target chosen.0 out.new result }
{
    let mut family = [0u64; WORDS];
    both_families(s, graph, loss, target, chosen, &mut family, out)
}
