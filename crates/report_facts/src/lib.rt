// What the report's rows say of each vertex. The facts are worked out once for the whole report, by
// `figures`, from scores, from `names` (where the items' names stand) and from `sets` (accounts,
// findings and pairs as sets).

#![tactic(auto)]

pub mod figures;
pub mod names;
pub mod sets;

use scores::{RecoverabilityScore, SecurityScore};
use vertex_set::VertexSet;

// By vertex number: values, scores, whether it is an account, and the places of the names. `below`
// has for each vertex the accounts that are out of rank with it above. `initial` and `losable` are
// the vertices that the tables of closures are made of.
#[derive(Clone, Copy)]
pub struct Facts {
    pub count: usize,
    pub accounts: VertexSet,
    pub initial: VertexSet,
    pub losable: VertexSet,
    pub starts: [u64; 64],
    pub losses: [u64; 64],
    pub scores: [SecurityScore; 64],
    pub risks: [RecoverabilityScore; 64],
    pub back: VertexSet,
    pub idle: VertexSet,
    pub below: [u64; 64],
    pub from: [usize; 64],
    pub to: [usize; 64],
}

// All that a report's rows are written from: the sheet, its facts, and the tables of bases that
// `figures::facts_of` left.
#[derive(Clone, Copy)]
pub struct Source<'a> {
    pub sheet: &'a [u8],
    pub facts: &'a Facts,
    pub opening: &'a [u64],
    pub lockout: &'a [u64],
}
