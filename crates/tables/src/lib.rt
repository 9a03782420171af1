// Tables of all subsets: what each subset of the chosen vertices opens or, with loss, takes away in
// a graph is worked out for all subsets at once. A table is made in blocks of 1,024 masks: a mask's
// low ten bits are its lane within a block, the others the block's number. A block begins as a
// settled block whose number has one bit fewer, so larger sets go on from what smaller ones open.

#![tactic(auto)]

ghost use Rattle.std.specs.Prelude.{◌≡◌, ◌+◌, ◌*◌, ◌<◌, length, get_or};
ghost use Rattle.derivations.specs.Both.{rule_of};
ghost use Rattle.families.specs.Inner.Masks.{place_among, Picked};
ghost use Rattle.successors.specs.Inner.{VertexOf, Successors};
ghost use Rattle.family_words.specs.Inner.Words.{PartWhere};
ghost use Rattle.tables.specs.Inner.Table.{table_words, Table};
ghost use Rattle.tables.specs.Inner.Steps.{Stepped, way_on, Beyond, Quiet, Closed, Started, Extended};
ghost use Rattle.tables.specs.Inner.Blocks.{block_bits, table_blocks, AtPlace, VertexAt, BlockOf, PutBlock, Block, TableBelow};

use families::WORDS;
use family_words::PART;
use lanes::BLOCK;
use setup::{Graph, Rows};
use vertex_set::{VERTICES, VertexSet};

// A table has the words of a family for each vertex.
pub const TABLE: usize = VERTICES * WORDS;

// A table has so many blocks.
const BLOCKS: usize = WORDS / PART;

// The bits of a mask that tell its lane within a block.
pub const BLOCK_BITS: usize = 10;

// All vertices, and the word that has all 64 lanes.
const ALL: u64 = u64::MAX;

// Adds the vertex v, which has these rows, to each lane that admits it, and says whether a lane has
// grown. Here and below the bounds of a vertex and of a block's number stay clauses, as that a set is not
// empty in `end` and `next`: a type for one of them would be made and opened on the spot.
fn step(w: &mut [u64; BLOCK], v: usize, rows: Rows, loss: bool) -> bool
    requires { v < 64 }
    ensures { Stepped loss rows v w.old result w.new }
{
    let mut gains = [0u64; PART];
    lanes::admitted(w, rows, loss, &mut gains);
    let a = v * PART;
    family_words::join(&mut w[a..a + PART], &gains)
}

// The end of a set that is not empty: its lowest vertex or, going down, its highest.
fn end(s: u64, up: bool) -> usize
    requires { s ≡ 0 → ⊥ }
    ensures { VertexOf s result }
{
    if up {
        successors::lowest(s)
    } else {
        successors::highest(s)
    }
}

// The vertex of `todo` that is looked at next: the first, going up or down, that is in `after` too,
// else the first of all.
fn next(todo: u64, after: u64, up: bool) -> usize
    requires { todo ≡ 0 → ⊥ }
    ensures { VertexOf todo result }
{
    let later = todo & after;
    if later == 0 {
        return end(todo, up);
    }
    end(later, up)
}

// The way to go: on while there is something later that way, else back.
fn direction(later: u64, up: bool) -> bool
    ensures { result ≡ way_on later up }
{
    if later == 0 { !up } else { up }
}

// The vertices that come later than v: those above it or, going down, those below it.
fn beyond(v: usize, up: bool) -> u64
    requires { v < 64 }
    ensures { Beyond v up result }
{
    let below = (1 << v) - 1;
    if up { !below } else { below }
}

// The vertices that need v, by the list of all successors.
fn users(list: &[u64; 64], v: usize) -> u64
    requires { v < 64 }
    ensures { result ≡ get_or list.now v 0 }
{
    list[v]
}

// The number of chosen vertices below v: for a chosen v, its bit in every mask.
fn place_among(chosen: u64, v: usize) -> usize
    requires { v < 64 }
    ensures { result ≡ place_among chosen v }
{
    (chosen % (1 << v)).count_ones() as usize
}

// The part of the first block that has the masks whose sets have the vertex v.
fn start_part(chosen: VertexSet, v: usize) -> [u64; PART]
    requires { v < 64 }
    ensures { PartWhere (λ b i. Picked chosen.0 (b * 64 + i) v) result }
{
    if chosen.has(v) {
        let k = place_among(chosen.0, v);
        family_words::start_words(k)
    } else {
        [0u64; PART]
    }
}

// Each lane of the first block becomes the set that its mask stands for.
fn start(chosen: VertexSet, w: &mut [u64; BLOCK])
    ensures { Started chosen.0 w.new }
{
    for v in 0..VERTICES {
        let a = v * PART;
        w[a..a + PART].copy_from_slice(&start_part(chosen, v));
    }
}

// Each lane grows to what is derivable from it. At the beginning only the vertices of `first` can
// be new in a lane. A vertex is looked at again only when a vertex that it needs has been added to
// some lane. The vertices take turns in sweeps up and down: an edge of either direction is then soon
// followed. The graph, the way and the list stand as parameters, and not in a struct: that the list has the
// graph's successors names a colour for each, so that it has more than one proof, and a ghost field takes
// only facts with one.
fn settle(graph: Graph, loss: bool, list: &[u64; 64], first: u64, w: &mut [u64; BLOCK])
    requires successors { Successors graph list.now }
    requires quiet { Quiet loss graph first w.old }
    ensures { Closed (rule_of loss graph) w.old w.new }
{
    let mut todo: u64 = first;
    let mut after: u64 = ALL;
    let mut up = true;
    while todo != 0 {
        up = direction(todo & after, up);
        let v = next(todo, after, up);
        todo = successors::without(todo, v);
        after = beyond(v, up);
        if step(w, v, graph.rows[v], loss) {
            todo |= users(list, v);
        }
    }
}

// Adds the vertex v to every lane of a settled block, and each lane grows to what is derivable from
// it. At the beginning only the vertices that need v can be new in a lane.
fn extend(graph: Graph, loss: bool, list: &[u64; 64], v: usize, w: &mut [u64; BLOCK])
    requires successors { Successors graph list.now }
    requires v_bound { v < 64 }
    requires quiet { Quiet loss graph 0 w.old }
    ensures { Extended loss graph (λ u. u ≡ v) w.old w.new }
{
    let first = users(list, v);
    let a = v * PART;
    w[a..a + PART].fill(ALL);
    settle(graph, loss, list, first, w);
}

// The chosen vertex at bit k of every mask.
fn vertex_at(chosen: u64, k: usize) -> Option<usize>
    ensures { VertexAt chosen k result }
{
    for v in successors::vertices_of(chosen) {
        if place_among(chosen, v) == k {
            return Some(v);
        }
    }
    None
}

// Adds the chosen vertex at bit k of every mask to every lane of a settled block. If there is none,
// the block stays as it is.
fn widen(
    graph: Graph,
    chosen: VertexSet,
    loss: bool,
    list: &[u64; 64],
    k: usize,
    w: &mut [u64; BLOCK],
)
    requires successors { Successors graph list.now }
    requires quiet { Quiet loss graph 0 w.old }
    ensures { Extended loss graph (AtPlace chosen.0 k) w.old w.new }
{
    if let Some(v) = vertex_at(chosen.0, k) {
        extend(graph, loss, list, v, w);
    }
}

// The block of the masks below 1,024. At the beginning a lane has chosen vertices alone, so only a
// vertex that needs one of them can be new.
fn first_block(graph: Graph, chosen: VertexSet, loss: bool, list: &[u64; 64], w: &mut [u64; BLOCK])
    requires { Successors graph list.now }
    ensures { Block (rule_of loss graph) chosen.0 0 w.new }
{
    start(chosen, w);
    let first = successors::of_set(list, chosen.0);
    settle(graph, loss, list, first, w);
}

// Fills the first block alone: a whole table, if at most ten vertices are chosen. Here and in `fill` graph, chosen
// vertices and way are no struct, for what `settle` says.
pub fn fill_block(graph: Graph, chosen: VertexSet, loss: bool, x: &mut [u64; BLOCK])
    ensures { Block (rule_of loss graph) chosen.0 0 x.new }
{
    let mut list = [0u64; 64];
    successors::fill(graph, &mut list);
    first_block(graph, chosen, loss, &list, x);
}

// Copies block b of the table w to x. Here and below the table's length stays a clause: the table that `fill` is
// lent may be a part of a longer list.
fn take_block(w: &[u64], b: usize, x: &mut [u64; BLOCK])
    requires w_len { length w.now ≡ table_words }
    requires b_lt_table_blocks { b < table_blocks }
    ensures { BlockOf w.now b x.new }
{
    for v in 0..VERTICES {
        let from = v * WORDS + b * PART;
        let at = v * PART;
        x[at..at + PART].copy_from_slice(&w[from..from + PART]);
    }
}

// Makes x the block b of the table w.
fn put_block(x: &[u64; BLOCK], b: usize, w: &mut [u64])
    requires b_lt_table_blocks { b < table_blocks }
    requires w_len { length w.old ≡ table_words }
    ensures { PutBlock x.now b w.old w.new }
{
    for v in 0..VERTICES {
        let from = v * PART;
        let at = v * WORDS + b * PART;
        w[at..at + PART].copy_from_slice(&x[from..from + PART]);
    }
}

// Block b of the table, from the block whose number is b without its lowest bit. x is room for a
// block.
fn next_block(
    graph: Graph,
    chosen: VertexSet,
    loss: bool,
    list: &[u64; 64],
    b: usize,
    x: &mut [u64; BLOCK],
    w: &mut [u64],
)
    requires successors { Successors graph list.now }
    requires b_nonzero { (0 < b) × (b < table_blocks) }
    requires table_below { TableBelow (rule_of loss graph) chosen.0 b w.old }
    ensures { TableBelow (rule_of loss graph) chosen.0 (b + 1) w.new }
{
    let bits = b as u64;
    let k = successors::lowest(bits);
    let smaller = successors::without(bits, k);
    take_block(w, smaller as usize, x);
    widen(graph, chosen, loss, list, BLOCK_BITS + k, x);
    put_block(x, b, w);
}

// Fills the table of the graph and the chosen vertices. It says of each vertex and mask whether the
// mask's set opens the vertex or, with loss, whether the loss of that set takes the vertex away.
pub fn fill(graph: Graph, chosen: VertexSet, loss: bool, w: &mut [u64])
    requires { length w.old ≡ table_words }
    ensures w_len { length w.new ≡ table_words }
    ensures table { Table (rule_of loss graph) chosen.0 w.new }
{
    let mut list = [0u64; 64];
    successors::fill(graph, &mut list);
    let mut x = [0u64; BLOCK];
    first_block(graph, chosen, loss, &list, &mut x);
    put_block(&x, 0, w);
    for b in 1..BLOCKS {
        next_block(graph, chosen, loss, &list, b, &mut x, w);
    }
}
