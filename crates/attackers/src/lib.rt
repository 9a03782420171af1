// Who could get in (document 02, point 1; document 003: attackers). Of six kinds of attacker, the
// lowest whose initial vertices open a target. No base is listed for it: at most four searches tell.

#![tactic(auto)]

ghost use Rattle.std.specs.Prelude.{◌≡◌, [], get_or};
ghost use Rattle.vertex_set.specs.Set.{Member, Decides};
ghost use Rattle.derivations.specs.Access.{HasAccess};
ghost use Rattle.successors.specs.Inner.{Successors};
ghost use Rattle.questions.specs.Contract.{ends, Fulfils};
ghost use Rattle.attackers.specs.Answers.{attacker_reply, attacker_call};
ghost use Rattle.attackers.specs.Inner.{BothAtMost, BothWeaker, FitOver, HeldBy, SettlesKind, KindSettled, SomeWeaker, LowestKinds, LowestOpen};

use questions::Refusal;
use setup::{Graph, Setup};
use vertex_set::VertexSet;

// There are six kinds. A kind's number is 3 times the location (0 remote, 1 local) plus the skill
// (0 none, 1 some, 2 expert).
const KINDS: usize = 6;

// Row a, column b: is the kind a at most the kind b? It is if both parts are.
const AT_MOST: [[bool; 6]; 6] = [
    [true, true, true, true, true, true],
    [false, true, true, false, true, true],
    [false, false, true, false, false, true],
    [false, false, false, true, true, true],
    [false, false, false, false, true, true],
    [false, false, false, false, false, true],
];

// The order in which the kinds are tried: one in the middle first, which settles most others.
const ORDER: [usize; 6] = [4, 1, 3, 0, 5, 2];

// Is one of the six kinds at most another of them?
fn at_most(a: usize, b: usize) -> bool
    ensures { Decides (BothAtMost a b) result }
{
    a < KINDS && b < KINDS && AT_MOST[a][b]
}

// The entry of a vertex; 0 behind the list's end.
fn entry_of(kinds: &[u8], v: usize) -> usize
    ensures { result ≡ get_or kinds.now v 0 }
{
    kinds.get(v).copied().unwrap_or(0) as usize
}

// Question 17: is each initial vertex's entry one of the six kinds? No other entry is read.
fn entries_fit(kinds: &[u8], initial: VertexSet) -> bool
    ensures { Decides (FitOver kinds.now initial.0) result }
{
    for v in successors::vertices_of(initial.0) {
        if KINDS <= entry_of(kinds, v) {
            return false;
        }
    }
    true
}

// The initial vertices of at most the kind t.
fn held_by(kinds: &[u8], initial: VertexSet, t: usize) -> VertexSet
    ensures { HeldBy kinds.now initial.0 t result.0 }
{
    let mut held = VertexSet(0);
    for v in successors::vertices_of(initial.0) {
        if at_most(entry_of(kinds, v), t) {
            held = held.insert(v);
        }
    }
    held
}

// Does the set open the target? Vertices are taken in until the target is among them, or nothing is
// left to look at. `list` has each vertex's successors; graph and list are no struct, since the clause on
// them has more than one proof, as in `tables`.
fn reaches(graph: Graph, list: &[u64; 64], set: VertexSet, target: usize) -> bool
    requires { Successors graph list.now }
    ensures { Decides (HasAccess graph (Member set.0) target) result }
{
    let mut left = closures::to_look_at(list, VertexSet(0), set);
    let mut held = set;
    loop {
        if held.has(target) {
            return true;
        }
        if left == 0 {
            return false;
        }
        let v = successors::lowest(left);
        left = successors::without(left, v);
        let rows = graph.rows[v];
        if closures::lowest_colour(rows, held).is_some() {
            held = held.insert(v);
            // Of the vertices outside `left`, only one that needs v can be opened now.
            left = (left | list[v]) & !held.0;
        }
    }
}

// Does the kind j, if it was tried, settle the kind t? Whoever is above a kind that gets in gets
// in too; below a kind that does not, nobody does.
fn settles(able: VertexSet, unable: VertexSet, j: usize, t: usize) -> bool
    ensures { Decides (SettlesKind able.0 unable.0 j t) result }
{
    able.has(j) && at_most(j, t) || unable.has(j) && at_most(t, j)
}

// Does some kind that was tried settle the kind t?
fn is_known(able: VertexSet, unable: VertexSet, t: usize) -> bool
    ensures { Decides (KindSettled able.0 unable.0 t) result }
{
    for j in 0..KINDS {
        if settles(able, unable, j, t) {
            return true;
        }
    }
    false
}

// Is one of the six kinds below another of them?
fn is_weaker(a: usize, b: usize) -> bool
    ensures { Decides (BothWeaker a b) result }
{
    a != b && at_most(a, b)
}

// Is a kind of the set below the kind k?
fn has_weaker(set: VertexSet, k: usize) -> bool
    ensures { Decides (SomeWeaker set.0 k) result }
{
    for j in 0..KINDS {
        if set.has(j) && is_weaker(j, k) {
            return true;
        }
    }
    false
}

// The lowest kinds of a set. A kind comes behind all that are below it, so that it is enough to
// compare it with those that were kept.
fn lowest_of(able: VertexSet) -> VertexSet
    ensures { LowestKinds (Member able.0) result.0 }
{
    let mut found = VertexSet(0);
    for t in 0..KINDS {
        if able.has(t) && !has_weaker(found, t) {
            found = found.insert(t);
        }
    }
    found
}

// The lowest of the six kinds whose initial vertices open the target. A kind is not tried where an
// earlier try settles it: four are tried at most, and two where nobody gets in.
fn lowest_kinds(graph: Graph, kinds: &[u8], initial: VertexSet, target: usize) -> VertexSet
    ensures { LowestOpen graph kinds.now initial.0 target result.0 }
{
    let mut list = [0u64; 64];
    successors::fill(graph, &mut list);
    let mut able = VertexSet(0);
    let mut unable = VertexSet(0);
    for t in ORDER {
        if is_known(able, unable, t) {
            continue;
        }
        let held = held_by(kinds, initial, t);
        if reaches(graph, &list, held, target) {
            able = able.insert(t);
        } else {
            unable = unable.insert(t);
        }
    }
    lowest_of(able)
}

// The target's score by kinds of attacker. `kinds` has one for each vertex; those of initial vertices
// alone are read. The call is offered with these parameters.
pub fn attacker_score(s: Setup, target: usize, kinds: &[u8]) -> Result<u64, Refusal>
    ensures { Fulfils (attacker_call s target kinds.now) (ends (attacker_reply result) []) }
{
    let formed = formed::well_formed(s);
    questions::ask_target(formed, s.count, target)?;
    if kinds.len() != s.count {
        return Err(Refusal::KindsLength);
    }
    let initial = setup::chosen(s, false);
    if !entries_fit(kinds, initial) {
        return Err(Refusal::NoKind);
    }
    let score = lowest_kinds(s.graph, kinds, initial, target);
    Ok(score.0)
}
