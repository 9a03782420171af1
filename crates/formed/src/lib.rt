// Question 12: is a setup one that an accepted sheet and a list of calls reach?

#![tactic(auto)]

ghost use Rattle.std.specs.Prelude.{◌≡◌, ◌≤◌, ◌<◌};
ghost use Rattle.std.specs.Int.Count.{ones};
ghost use Rattle.vertex_set.specs.Set.{Decides};
ghost use Rattle.setup.specs.Setup.{unused_vertex, total};
ghost use Rattle.formed.specs.WellFormed.{InRange, ValidVertex, WellFormed};
ghost use Rattle.formed.specs.Inner.Parts.{VertexFits, RowsFit, MayNeed, EdgesFit, GraphsFit, VerticesFit, HoldingFits};

use setup::{Graph, Rows, Setup, Vertex};
use vertex_set::VertexSet;

fn value_in_range(x: Option<u64>) -> bool
    ensures { Decides (InRange x) result }
{
    x.is_none_or(|n| n <= setup::MAX_VALUE)
}

fn valid_vertex(x: Vertex) -> bool
    ensures { Decides (ValidVertex x) result }
{
    value_in_range(x.start) && value_in_range(x.loss) && x.rank <= setup::MAX_RANK
}

fn vertex_fits(count: usize, v: usize, x: Vertex) -> bool
    ensures { Decides (VertexFits count v x) result }
{
    if v < count {
        valid_vertex(x)
    } else {
        x == setup::UNUSED
    }
}

// Is each row within the bound, and each recovery row within its row? What strays is gathered over
// all colours and looked at once: without a branch for each row the compiler takes several rows at
// a time.
fn rows_fit(bound: VertexSet, rows: Rows, recovery: Rows) -> bool
    ensures { Decides (RowsFit bound.0 rows recovery) result }
{
    let mut stray = 0;
    for (row, marked) in rows.needs.iter().zip(&recovery.needs) {
        stray |= (*row & !bound.0) | (*marked & !*row);
    }
    stray == 0
}

// The vertices that the place v may need: none where it is not in use.
#[tactic(auto, using(crate::proofs::Edges::place_answers))]
fn may_need(count: usize, v: usize) -> VertexSet
    ensures { MayNeed count v result.0 }
{
    if v < count {
        VertexSet::below(count)
    } else {
        VertexSet(0)
    }
}

fn edges_fit(count: usize, v: usize, rows: Rows, recovery: Rows) -> bool
    ensures { Decides (EdgesFit count v rows recovery) result }
{
    rows_fit(may_need(count, v), rows, recovery)
}

// How many edges run into a vertex with these rows.
pub fn row_sizes(rows: Rows) -> u32
    ensures { (result ≡ total ones rows.needs) × (result ≤ 512) }
{
    rows.needs.iter().map(|row| row.count_ones()).sum()
}

fn graphs_fit(count: usize, graph: Graph, recovery: Graph) -> bool
    ensures { Decides (GraphsFit count graph recovery) result }
{
    let mut edges = 0;
    for (v, rows) in graph.rows.iter().enumerate() {
        if !edges_fit(count, v, *rows, recovery.rows[v]) {
            return false;
        }
        edges += row_sizes(*rows);
    }
    edges <= setup::MAX_EDGES as u32
}

fn vertices_fit(count: usize, vertices: [Vertex; 64]) -> bool
    ensures { Decides (VerticesFit count vertices) result }
{
    let mut initial = 0;
    let mut losable = 0;
    for (v, vertex) in vertices.iter().enumerate() {
        if !vertex_fits(count, v, *vertex) {
            return false;
        }
        initial += setup::count_given(vertex.start);
        losable += setup::count_given(vertex.loss);
    }
    initial <= setup::MAX_CHOSEN && losable <= setup::MAX_CHOSEN
}

// Are only vertices of the setup held, and is `opened` what they open? A test for a closed set
// would let in a ring that holds itself up. Where nothing is held nothing is open, so most setups
// need no passes.
fn holding_fits(count: usize, graph: Graph, held: VertexSet, opened: VertexSet) -> bool
    ensures { Decides (HoldingFits count graph held.0 opened.0) result }
{
    if held == VertexSet(0) {
        return opened == VertexSet(0);
    }
    held.within(VertexSet::below(count)) && closures::closure(false, graph, held).set == opened
}

// Question 12: is the setup one that an accepted sheet and a list of calls reach? Its parts go on by value: where
// they were lent, the compiler copied the whole setup first.
pub fn well_formed(s: Setup) -> bool
    ensures { Decides (WellFormed s) result }
{
    (1..=setup::MAX_ITEMS).contains(&s.count)
        && graphs_fit(s.count, s.graph, s.recovery)
        && vertices_fit(s.count, s.vertices)
        && holding_fits(s.count, s.graph, s.held, s.opened)
}
