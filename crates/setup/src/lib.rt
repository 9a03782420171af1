// A lab's account setup (document 003: the graph with V_init, Init and E_rec), its initial and
// losable vertices, and its graph without recovery.

#![tactic(auto)]

ghost use Rattle.std.specs.Prelude.{◌≡◌, ◌≤◌};
ghost use Rattle.vertex_set.specs.Set.{Decides};
ghost use Rattle.setup.specs.Setup.{given, points, value_of, row_less, ChosenSet, WithoutRecovery};
ghost use Rattle.setup.specs.Inner.{RowsLess};

use vertex_set::{VERTICES, VertexSet};

// The papers' bounds: the most vertices, the largest start or loss value (document 02, point 5), the
// highest rank, the highest colour, the most edges, the most initial (losable) vertices, and the most
// bytes of a sheet.
pub const MAX_ITEMS: usize = VERTICES;

pub const MAX_VALUE: u64 = 4_000_000_000;

pub const MAX_RANK: u64 = 9;

pub const MAX_COLOUR: usize = 7;

pub const MAX_EDGES: usize = 256;

pub const MAX_CHOSEN: usize = 14;

pub const MAX_BYTES: usize = 16384;

#[derive(Clone, Copy, PartialEq, Eq)]
pub enum Kind {
    Credential,
    Account,
}

// A vertex (document 01: item). It has no name: names stay in the sheet. A start or loss value that
// is `None` is the sheet's `-`: zero is a value and not a blank.
#[derive(Clone, Copy, PartialEq, Eq)]
pub struct Vertex {
    pub kind: Kind,
    pub start: Option<u64>,
    pub loss: Option<u64>,
    pub rank: u64,
}

// A place not in use.
pub const UNUSED: Vertex = Vertex {
    kind: Kind::Credential,
    start: None,
    loss: None,
    rank: 0,
};

// The sets of vertices that one vertex needs, one set for each colour.
#[derive(Clone, Copy)]
pub struct Rows {
    pub needs: [u64; 8],
}

#[derive(Clone, Copy)]
pub struct Graph {
    pub rows: [Rows; 64],
}

// The graph without edges.
pub const EMPTY: Graph = Graph {
    rows: [Rows { needs: [0; 8] }; 64],
};

// `recovery` has the rows of the recovery edges alone; each of them stands in `graph` too. `held` are
// the vertices that are held at the moment, and `opened` those that they open (document 02, point
// 8); both are empty after reading.
#[derive(Clone, Copy)]
pub struct Setup {
    pub count: usize,
    pub vertices: [Vertex; 64],
    pub graph: Graph,
    pub recovery: Graph,
    pub held: VertexSet,
    pub opened: VertexSet,
}

// The value by which a vertex counts: its start value, or for a loss its loss value.
pub fn value_of(loss: bool, x: Vertex) -> Option<u64>
    ensures { result ≡ value_of loss x }
{
    if loss { x.loss } else { x.start }
}

// The number of a value, and 0 for a blank: the definitions' word for it, which docs/INDEX.md names.
pub fn points_of(x: Option<u64>) -> u64
    ensures { result ≡ points x }
{
    x.unwrap_or(0)
}

// 1 for a value, 0 for a blank: the definitions' word for it, which docs/INDEX.md names.
pub fn count_given(x: Option<u64>) -> usize
    ensures { (result ≡ given x) × (result ≤ 1) }
{
    usize::from(x.is_some())
}

// The initial vertices, or for a loss the losable ones.
pub fn chosen(s: Setup, loss: bool) -> VertexSet
    ensures { ChosenSet loss s result.0 }
{
    let mut r = VertexSet(0);
    for (v, vertex) in s.vertices.iter().enumerate() {
        let is_given = count_given(value_of(loss, *vertex)) == 1;
        if is_given {
            r = r.insert(v);
        }
    }
    r
}

// The row of one colour of one vertex without recovery: a colour with a recovery edge is taken out
// whole, since what is left of it would open the vertex by less than before.
#[tactic(auto, unfolding(crate::specs::Setup::row_less))]
fn row_less(row: u64, recovery: u64) -> u64
    ensures { result ≡ row_less row recovery }
{
    if recovery != 0 { 0 } else { row }
}

// The rows of one vertex without recovery. A row that is taken out is no colour any more. A place of
// one list is written by its number, here and below: of what an `iter_mut` under a `zip` writes no
// proof knows anything.
fn rows_less(rows: Rows, recovery: Rows) -> Rows
    ensures { RowsLess rows recovery result }
{
    let mut r = rows;
    for (c, marked) in recovery.needs.iter().enumerate() {
        r.needs[c] = row_less(rows.needs[c], *marked);
    }
    r
}

// The graph without recovery: of each vertex, its rows less the colours that have a recovery edge.
pub fn without_recovery(s: Setup) -> Graph
    ensures { WithoutRecovery s result }
{
    let mut r = s.graph;
    for (v, marked) in s.recovery.rows.iter().enumerate() {
        r.rows[v] = rows_less(s.graph.rows[v], *marked);
    }
    r
}
