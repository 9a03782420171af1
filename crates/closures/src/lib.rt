// What a set of vertices opens, and what a loss takes away, by passes. A pass adds together all
// vertices that the set at its beginning allows.

#![tactic(auto, using(crate::proofs::Passes::look_at, crate::proofs::Colours::colour_answers))]

ghost use Rattle.std.specs.Prelude.{◌≡◌, length};
ghost use Rattle.vertex_set.specs.Set.{Member, Decides};
ghost use Rattle.derivations.specs.Both.{rule_of};
ghost use Rattle.derivations.specs.Passes.{Passes};
ghost use Rattle.derivations.specs.Inner.Admits.{AllBroken, Admits};
ghost use Rattle.closures.specs.Inner.{ColourFound, ToLookAt, Admitted};

use setup::{Graph, Rows};
use vertex_set::VertexSet;

// The lowest complete colour, if there is one. An empty row is no colour.
pub fn lowest_colour(rows: Rows, held: VertexSet) -> Option<usize>
    ensures { ColourFound rows (Member held.0) result }
{
    rows.needs
        .iter()
        .position(|row| *row != 0 && VertexSet(*row).within(held))
}

// Has a vertex with these rows a colour, and does each of its colours need a lost vertex?
fn all_broken(rows: Rows, lost: VertexSet) -> bool
    ensures { Decides (AllBroken rows (Member lost.0)) result }
{
    rows.needs.iter().any(|row| *row != 0)
        && rows
            .needs
            .iter()
            .all(|row| *row == 0 || VertexSet(*row).meets(lost))
}

// Is a vertex with these rows opened by what is held or, with `loss`, lost once the vertices of
// `held` are?
fn admits(loss: bool, rows: Rows, held: VertexSet) -> bool
    ensures { Decides (Admits loss rows (Member held.0)) result }
{
    if loss {
        all_broken(rows, held)
    } else {
        lowest_colour(rows, held).is_some()
    }
}

// The vertices outside of `grown` that need one of the vertices which `grown` has and `held` has
// not. No other vertex outside of `grown` can be admitted by `grown` and not by `held`.
pub fn to_look_at(list: &[u64], held: VertexSet, grown: VertexSet) -> u64
    requires { length list.now ≡ 64 }
    ensures { ToLookAt list.now held.0 grown.0 result }
{
    let users = successors::of_set(list.first_chunk().unwrap(), grown.0 & !held.0);
    users & !grown.0
}

// The closure of a set, and its number of passes (document 02, point 4).
#[derive(Drop)]
pub struct Closed {
    pub set: VertexSet,
    pub passes: usize,
}

// The vertices of `left` that are admitted by what is held. It is inlined, since a chain of vertices
// is closed by many passes that look at one vertex each.
#[inline(always)]
pub fn admitted(loss: bool, graph: &Graph, held: VertexSet, left: u64) -> VertexSet
    ensures { Admitted loss graph.now held.0 left result.0 }
{
    let mut r = VertexSet(0);
    for v in successors::vertices_of(left) {
        if admits(loss, graph.rows[v], held) {
            r = r.insert(v);
        }
    }
    r
}

// Makes passes until one adds nothing. `held` is the set at the beginning of a pass, and `left` has
// the vertices that the pass has to look at.
pub fn closure(loss: bool, graph: Graph, s: VertexSet) -> Closed
    ensures { Passes (rule_of loss graph) result.passes s.0 result.set.0 }
{
    let mut list = [0u64; 64];
    successors::fill(graph, &mut list);
    let mut left = to_look_at(&list, VertexSet(0), s);
    let mut held = s;
    let mut passes = 0;
    loop {
        let grown = VertexSet(held.0 | admitted(loss, &graph, held, left).0);
        // The pass that adds nothing is counted as well.
        passes += 1;
        if grown == held {
            return Closed { set: held, passes };
        }
        left = to_look_at(&list, held, grown);
        held = grown;
    }
}
