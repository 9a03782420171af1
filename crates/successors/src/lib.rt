// The edges of a graph read forwards: the successors of a vertex are the vertices that need it by
// some colour. Beside them the operations by which a loop takes a set of vertices apart.

#![tactic(auto, using(crate::proofs::Members::set_answers))]

ghost use Rattle.std.specs.Prelude.{◌≡◌, ◌<◌, length, replicate};
ghost use Rattle.std.specs.Iterator.{at_most};
ghost use Rattle.successors.specs.Inner.{VertexOf, LowestOf, HighestOf, Without, Taken, Needed, Noted, Successors, AllSuccessors};

use setup::{Graph, Rows};
use vertex_set::VERTICES;

pub const COLOURS: usize = 8;

// The lowest vertex of a set that is not empty. Here and in `highest` that stays a clause: callers have just
// tested it, and a type would be made and opened on the spot.
pub fn lowest(s: u64) -> usize
    requires { s ≡ 0 → ⊥ }
    ensures { LowestOf s result }
{
    u64::trailing_zeros(s) as usize
}

// The highest vertex of a set that is not empty.
pub fn highest(s: u64) -> usize
    requires { s ≡ 0 → ⊥ }
    ensures { HighestOf s result }
{
    63 - u64::leading_zeros(s) as usize
}

// The set without v, which is one of its vertices.
pub fn without(s: u64, v: usize) -> u64
    requires { VertexOf s v }
    ensures { Without s v result }
{
    s - (1 << v)
}

// The vertices of a set one by one, the lowest first; `left` has those that are still to come.
#[derive(Drop)]
pub struct Vertices {
    pub left: u64,
}

impl Iterator for Vertices {
    type Item = usize;

    ghost next_gives = { λ s r t. Taken s.left r t.left };

    ghost remaining = { λ s. at_most s.left };

    fn next(&mut self) -> Option<usize> {
        if self.left == 0 {
            return None;
        }
        let v = lowest(self.left);
        self.left = without(self.left, v);
        Some(v)
    }
}

// The vertices of a set, for a loop.
pub fn vertices_of(set: u64) -> Vertices
    ensures { result.left ≡ set }
{
    Vertices { left: set }
}

// All vertices that some colour of these rows needs.
pub fn needed(rows: Rows) -> u64
    ensures { Needed rows result }
{
    rows.needs.iter().fold(0, |all, row| all | *row)
}

// Makes v a successor of each of the vertices that it needs. The bound of v stays a clause: it is how far a bit
// is shifted, and nothing else.
fn note(needed: u64, v: usize, out: &mut [u64])
    requires out_len { length out.old ≡ 64 }
    requires v_bound { v < 64 }
    ensures { Noted needed v out.old out.new }
{
    for f in vertices_of(needed) {
        out[f] |= 1 << v;
    }
}

// Writes the successors of each vertex to a list that has none yet. The list may be a part of a longer one; its
// clause says its length too.
pub fn fill(graph: Graph, out: &mut [u64])
    requires { out.old ≡ replicate 64 0 }
    ensures { Successors graph out.new }
{
    for (v, rows) in graph.rows.iter().enumerate() {
        note(needed(*rows), v, out);
    }
}

// The successors of a set's vertices, all together.
pub fn of_set(list: &[u64; 64], set: u64) -> u64
    ensures { AllSuccessors list.now set result }
{
    let mut r = 0;
    for f in vertices_of(set) {
        r |= list[f];
    }
    r
}
