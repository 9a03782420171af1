// All edge rows of a sheet.

#![tactic(auto)]

ghost use Rattle.std.specs.Prelude.{◌≡◌, cond, ◌/◌, ◌%◌, ◌^◌, ◌≤◌, ◌<◌, eqb};
ghost use Rattle.setup.specs.Setup.{row_of};
ghost use Rattle.sheet_edges.specs.Inner.Edges.{with_need, ReadsEdges};

use questions::Refusal;
use setup::{Graph, Rows};
use sheet_fields::LF;
use sheet_format::SheetRefusal;
use sheet_rows::ItemKeys;
use sheet_rows::taken::TakenEdge;

#[derive(Clone, Copy)]
pub struct Edges {
    pub graph: Graph,
    pub recovery: Graph,
}

// Does a vertex with these rows need the edge's source in its colour?
fn has_need(row: Rows, edge: TakenEdge) -> bool
    ensures { result ≡ eqb (row_of row edge.colour / 2 ^ edge.from % 2) 1 }
{
    (row.needs[edge.colour] >> edge.from) % 2 == 1
}

fn with_need(row: Rows, edge: TakenEdge) -> Rows
    ensures { result ≡ with_need row edge.colour edge.from }
{
    let mut next = row;
    next.needs[edge.colour] |= 1 << edge.from;
    next
}

// The row of recovery edges: only an edge marked 1 is taken in.
fn with_mark(row: Rows, edge: TakenEdge) -> Rows
    ensures { result ≡ cond edge.rec (with_need row edge.colour edge.from) row }
{
    if edge.rec { with_need(row, edge) } else { row }
}

// Reads the edge rows below the item rows with these keys, from `start`, where the line `first`
// begins, to the end of the sheet. Each turn takes one line, and where the next one begins is known
// only then: so this is no `for`. Both graphs are filled where they go out, since a move copies eight
// kilobytes; and the frame is not one with that of the caller.
#[inline(never)]
pub fn read_edges(
    s: &[u8],
    start: usize,
    first: u64,
    keys: &ItemKeys,
) -> Result<Edges, SheetRefusal>
    requires { first ≤ 100 }
    ensures { ReadsEdges s.now start first keys.now.low keys.now.high keys.now.count result }
{
    let mut edges = Edges {
        graph: setup::EMPTY,
        recovery: setup::EMPTY,
    };
    let mut count: usize = 0;
    let mut at = start;
    while at < s.len() {
        let line = first + count as u64;
        let end = sheet_fields::find(s, at, LF);
        let edge = sheet_rows::take_edge(&s[at..end], keys).map_err(|refusal| SheetRefusal {
            refusal,
            line,
        })?;
        let row = edges.graph.rows[edge.to];
        if has_need(row, edge) {
            let refusal = Refusal::EdgeTwice;
            return Err(SheetRefusal { refusal, line });
        }
        if setup::MAX_EDGES <= count {
            let refusal = Refusal::Bound;
            return Err(SheetRefusal { refusal, line });
        }
        edges.graph.rows[edge.to] = with_need(row, edge);
        let marked = edges.recovery.rows[edge.to];
        edges.recovery.rows[edge.to] = with_mark(marked, edge);
        count += 1;
        at = end + 1;
    }
    Ok(edges)
}
