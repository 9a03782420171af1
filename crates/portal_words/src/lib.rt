// A setup as plain numbers, as C hands it over and gets it. Words that say no setup stand for the
// setup of 0 items, so that question 12 refuses every call on them.

#![tactic(auto)]

ghost use Rattle.std.specs.Prelude.{◌≡◌, [], ◌∷◌, ◌+◌, ◌≤◌, ◌<◌, length};
ghost use Rattle.vertex_set.specs.Set.{Decides};
ghost use Rattle.setup.specs.Setup.{no_items};
ghost use Rattle.written.specs.Inner.{Wrote};
ghost use Rattle.portal_words.specs.Inner.{WroteAll};
ghost use Rattle.portal_words.specs.Words.{SaysSetup, tabulate, setup_words, kind_in, value_in, vertex_in, rows_in, graph_in, spelt, setup_in, kind_word, value_word, vertex_words, vertices_words, graph_words, words_of};

use setup::{Graph, Kind, Rows, Setup, Vertex};
use vertex_set::VertexSet;

// The number that stands for a blank.
const BLANK: u64 = 0xFFFF_FFFF_FFFF_FFFF;

// Where among the words the rows of the graph begin, and where the rows of the recovery edges do;
// where the held set stands, and what it opens.
const GRAPH: usize = 257;

const RECOVERY: usize = 769;

const HELD: usize = 1281;

const OPENED: usize = 1282;

// The opened set is the last word.
pub const SETUP_WORDS: usize = OPENED + 1;

// Is the kind of each place 0 or 1?
fn kinds_said(words: &[u64; SETUP_WORDS]) -> bool
    ensures { Decides (SaysSetup words.now) result }
{
    // By number, as the definitions count: parts of four words would hide the place 1 + 4 v in a range.
    for v in 0..64usize {
        if 1 < words[1 + 4 * v] {
            return false;
        }
    }
    true
}

fn kind_in(n: u64) -> Kind
    ensures { result ≡ kind_in n }
{
    if n == 0 {
        return Kind::Credential;
    }
    Kind::Account
}

fn value_in(n: u64) -> Option<u64>
    ensures { result ≡ value_in n }
{
    if n == BLANK {
        return None;
    }
    Some(n)
}

// The bound of v stays a clause: it is an index at once.
fn vertex_in(words: &[u64; SETUP_WORDS], v: usize) -> Vertex
    requires { v < 64 }
    ensures { result ≡ vertex_in words.now v }
{
    let at = 1 + 4 * v;
    Vertex {
        kind: kind_in(words[at]),
        start: value_in(words[at + 1]),
        loss: value_in(words[at + 2]),
        rank: words[at + 3],
    }
}

fn rows_in(words: &[u64; SETUP_WORDS], at: usize) -> Rows
    requires { at + 8 ≤ setup_words }
    ensures { result ≡ rows_in words.now at }
{
    let mut needs = [0; 8];
    needs.copy_from_slice(&words[at..at + 8]);
    Rows { needs }
}

fn graph_in(words: &[u64; SETUP_WORDS], at: usize) -> Graph
    requires { at + 512 ≤ setup_words }
    ensures { result ≡ graph_in words.now at }
{
    // By number, for the same reason as the vertices.
    let mut r = setup::EMPTY;
    for v in 0..64usize {
        r.rows[v] = rows_in(words, at + 8 * v);
    }
    r
}

fn vertices_in(words: &[u64; SETUP_WORDS]) -> [Vertex; 64]
    ensures { result ≡ tabulate 64 (vertex_in words.now) }
{
    // By number: with `array::from_fn` the proof did not close, since its clause does not tie the words that
    // each call of the closure reads to these.
    let mut r = [setup::UNUSED; 64];
    for v in 0..64usize {
        r[v] = vertex_in(words, v);
    }
    r
}

// What the words say, place by place. The setup is put together at the end alone: one that is made
// first and filled later would be copied whole once more.
fn spell_out(words: &[u64; SETUP_WORDS]) -> Setup
    ensures { result ≡ spelt words.now }
{
    Setup {
        count: words[0] as usize,
        vertices: vertices_in(words),
        graph: graph_in(words, GRAPH),
        recovery: graph_in(words, RECOVERY),
        held: VertexSet(words[HELD]),
        opened: VertexSet(words[OPENED]),
    }
}

// The setup of no items, which a refused sheet and words that say no setup stand for.
pub fn no_items() -> Setup
    ensures { result ≡ no_items }
{
    Setup {
        count: 0,
        vertices: [setup::UNUSED; 64],
        graph: setup::EMPTY,
        recovery: setup::EMPTY,
        held: VertexSet(0),
        opened: VertexSet(0),
    }
}

// The setup that the words say. Words behind those that say a setup are not looked at.
#[tactic(auto, using(crate::proofs::Front::short_answers))]
pub fn setup_in(words: &[u64]) -> Setup
    ensures { result ≡ setup_in words.now }
{
    if words.len() < SETUP_WORDS {
        return no_items();
    }
    let front = words.first_chunk().unwrap();
    if kinds_said(front) {
        return spell_out(front);
    }
    no_items()
}

// A match, and not `kind as u64`: that is the tag of a variant, and at a variant that is not known the proof
// did not close.
fn kind_word(kind: Kind) -> u64
    ensures { result ≡ kind_word kind }
{
    match kind {
        Kind::Credential => 0,
        Kind::Account => 1,
    }
}

fn value_word(value: Option<u64>) -> u64
    ensures { result ≡ value_word value }
{
    value.unwrap_or(BLANK)
}

// `out` and `at` go side by side, as `written::put` takes them: a struct of the two would be taken apart there.
fn put_vertex(x: Vertex, out: &mut [u64], at: usize) -> usize
    requires { at + 4 ≤ length out.old }
    ensures { Wrote out.old at (vertex_words x) out.new result }
{
    let words = [
        kind_word(x.kind),
        value_word(x.start),
        value_word(x.loss),
        x.rank,
    ];
    written::put(&words, out, at)
}

fn put_vertices(vertices: [Vertex; 64], out: &mut [u64], at: usize) -> usize
    requires { at + 256 ≤ length out.old }
    ensures { WroteAll 256 out.old at (vertices_words vertices) out.new result }
{
    let mut next = at;
    for vertex in vertices {
        next = put_vertex(vertex, out, next);
    }
    next
}

fn put_rows(rows: Rows, out: &mut [u64], at: usize) -> usize
    requires { at + 8 ≤ length out.old }
    ensures { WroteAll 8 out.old at rows.needs out.new result }
{
    written::put(&rows.needs, out, at)
}

fn put_graph(g: Graph, out: &mut [u64], at: usize) -> usize
    requires { at + 512 ≤ length out.old }
    ensures { WroteAll 512 out.old at (graph_words g.rows) out.new result }
{
    let mut next = at;
    for rows in g.rows {
        next = put_rows(rows, out, next);
    }
    next
}

fn put_sets(held: VertexSet, opened: VertexSet, out: &mut [u64], at: usize) -> usize
    requires { at + 2 ≤ length out.old }
    ensures { WroteAll 2 out.old at (held.0 ∷ opened.0 ∷ []) out.new result }
{
    let words = [held.0, opened.0];
    written::put(&words, out, at)
}

// Writes the words that say the setup, from `at` on, and gives the next place.
pub fn put_setup(s: Setup, out: &mut [u64], at: usize) -> usize
    requires { at + setup_words ≤ length out.old }
    ensures { WroteAll setup_words out.old at (words_of s) out.new result }
{
    out[at] = s.count as u64;
    let behind_vertices = put_vertices(s.vertices, out, at + 1);
    let behind_graph = put_graph(s.graph, out, behind_vertices);
    let behind_recovery = put_graph(s.recovery, out, behind_graph);
    put_sets(s.held, s.opened, out, behind_recovery)
}
