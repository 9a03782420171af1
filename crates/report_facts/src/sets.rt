// Sets of vertices by their figures: accounts, ranks, and which accounts are out of rank.
ghost use Rattle.std.specs.Prelude.{ℕ, ◌<◌};
ghost use Rattle.report_facts.specs.Inner.Sets.{PlacesBy, AccountSet, WeakerSet, IdleSet, BelowOne, BelowAll};

use scores::{RecoverabilityScore, SecurityScore};
use setup::{Kind, Setup};
use vertex_set::{VERTICES, VertexSet};

// The set of the vertices that pass the test.
fn places_where<F: Fn(usize) -> bool>(test: F) -> VertexSet
    requires { (v : ℕ) → v < 64 → F.pre test v }
    ensures { PlacesBy (F.post test) 64 result.0 }
{
    let mut r = VertexSet(0);
    for v in 0..VERTICES {
        if test(v) {
            r = r.insert(v);
        }
    }
    r
}

// The accounts of the setup.
pub fn accounts_of(s: &Setup) -> VertexSet
    ensures { AccountSet s.now result.0 }
{
    places_where(|v| matches!(s.vertices[v].kind, Kind::Account))
}

// The vertices whose score is below that without recovery: their recovery is a backdoor.
pub fn weaker_places(scores: &[SecurityScore; 64], without: &[SecurityScore; 64]) -> VertexSet
    ensures { WeakerSet scores.now without.now result.0 }
{
    places_where(|v| scores[v].below(without[v]))
}

// The vertices whose risk is at most that without recovery: their recovery is idle.
pub fn idle_places(
    risks: &[RecoverabilityScore; 64],
    without: &[RecoverabilityScore; 64],
) -> VertexSet
    ensures { IdleSet risks.now without.now result.0 }
{
    places_where(|v| risks[v].at_most(without[v]))
}

// The accounts that are out of rank with v above: their rank is below that of v, and their score is
// not below that of v. The bound of v stays a clause: it is an index at once.
fn below_one(s: &Setup, accounts: VertexSet, scores: &[SecurityScore; 64], v: usize) -> u64
    requires { v < 64 }
    ensures { BelowOne accounts.0 s.now scores.now v result }
{
    let rank = s.vertices[v].rank;
    places_where(|w| accounts.has(w) && s.vertices[w].rank < rank && scores[v].at_most(scores[w])).0
}

// For each vertex v the accounts that are out of rank with v above.
pub fn below_all(s: &Setup, accounts: VertexSet, scores: &[SecurityScore; 64]) -> [u64; 64]
    ensures { BelowAll accounts.0 s.now scores.now result }
{
    let mut r = [0; 64];
    // By `array::from_fn` it is not proved: its clause does not say what the closure borrows at each call.
    for v in 0..64 {
        r[v] = below_one(s, accounts, scores, v);
    }
    r
}
