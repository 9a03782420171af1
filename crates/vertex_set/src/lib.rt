// Sets of vertices as 64-bit numbers: a set is the sum of 2^v over its vertices v.

#![tactic(auto, using(crate::proofs::Sets::method_answers))]

ghost use Rattle.vertex_set.specs.Set.{Member, Within, Decides, Inserted, Meets, Below};

pub const VERTICES: usize = 64;

// Document 01's growing set: a value that takes in a vertex and hands itself back.
#[derive(Clone, Copy, PartialEq, Eq)]
pub struct VertexSet(pub u64);

impl VertexSet {
    // The set with the vertex v; the set itself where v is above 63.
    pub fn insert(self, v: usize) -> VertexSet
        ensures { Inserted self.0 v result.0 }
    {
        if v < VERTICES {
            VertexSet(self.0 | (1 << v))
        } else {
            self
        }
    }

    // Is the vertex v in the set?
    pub fn has(self, v: usize) -> bool
        ensures { Decides (Member self.0 v) result }
    {
        v < VERTICES && (self.0 >> v) % 2 == 1
    }

    // Is every vertex of the set in the other?
    pub fn within(self, other: VertexSet) -> bool
        ensures { Decides (Within self.0 other.0) result }
    {
        self.0 & !other.0 == 0
    }

    // Have the two sets a vertex in common?
    pub fn meets(self, other: VertexSet) -> bool
        ensures { Decides (Meets self.0 other.0) result }
    {
        self.0 & other.0 != 0
    }

    // The set of the vertices 0 to n - 1; of all 64 where n is larger.
    pub fn below(n: usize) -> VertexSet
        ensures { Below n result.0 }
    {
        if n < VERTICES {
            VertexSet((1 << n) - 1)
        } else {
            VertexSet(u64::MAX)
        }
    }
}
