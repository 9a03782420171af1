// Lanes of a block: the bits at one place of all its parts are one set of vertices, a lane. A
// word operation works on 64 lanes at once, and finds those in which a vertex is opened or, with
// loss, lost.

#![tactic(auto)]

ghost use Rattle.std.specs.Prelude.{◌≡◌, ◌*◌, ◌<◌, take, drop};
ghost use Rattle.vertex_set.specs.Set.{Member};
ghost use Rattle.family_words.specs.Inner.Words.{part_words, At, PartWhere};
ghost use Rattle.derivations.specs.Inner.Admits.{Admits};
ghost use Rattle.lanes.specs.Inner.Lanes.{Lane, Over, Takes, untaken_word};

use family_words::PART;
use setup::Rows;
use vertex_set::VERTICES;

// A block has the words of a part for each vertex.
pub const BLOCK: usize = VERTICES * PART;

// The part of the vertex v. Its bound stays a clause, as that `scan`'s row is not empty: a type for either
// would be made and opened on the spot.
fn part_of(w: &[u64; BLOCK], v: usize) -> &[u64; PART]
    requires { v < 64 }
    ensures { result.now ≡ take part_words (drop (v * part_words) w.now) }
{
    w[v * PART..].first_chunk().unwrap()
}

// The masks whose sets have every vertex of the row or, with `any`, some vertex of the row. The row
// is not empty. The part is handed back: written to one that is lent, it went through memory, and a table
// took twice the time.
fn scan(w: &[u64; BLOCK], row: u64, any: bool) -> [u64; PART]
    requires { row ≡ 0 → ⊥ }
    ensures { PartWhere (λ b i. Over any (Member row) (Lane w.now b i)) result }
{
    let first = successors::lowest(row);
    let mut part = *part_of(w, first);
    for v in successors::vertices_of(successors::without(row, first)) {
        family_words::merge_in(any, &mut part, part_of(w, v));
    }
    part
}

// Takes one colour in: the part gains the masks whose sets have the whole row or, with loss,
// keeps only those whose sets have a vertex of the row. An empty row is no colour: it gives no
// mask, and takes none away.
fn take_colour(w: &[u64; BLOCK], row: u64, loss: bool, out: &mut [u64; PART])
    ensures { PartWhere (λ b i. Takes loss (At out.old b i) (Lane w.now b i) row) out.new }
{
    if row == 0 {
        return;
    }
    let part = scan(w, row, loss);
    family_words::merge_in(!loss, out, &part);
}

// Each word of a part before any colour is taken in: for access no mask, since colours add masks;
// for lockout all, since colours take masks away.
fn untaken(loss: bool) -> u64
    ensures { result ≡ untaken_word loss }
{
    if loss { u64::MAX } else { 0 }
}

// The masks by whose sets a vertex with these rows is opened or, with loss, lost. A vertex without
// a colour is neither.
pub fn admitted(w: &[u64; BLOCK], rows: Rows, loss: bool, out: &mut [u64; PART])
    ensures { PartWhere (λ b i. Admits loss rows (Lane w.now b i)) out.new }
{
    if successors::needed(rows) == 0 {
        out.fill(0);
        return;
    }
    out.fill(untaken(loss));
    for row in rows.needs {
        take_colour(w, row, loss, out);
    }
}
