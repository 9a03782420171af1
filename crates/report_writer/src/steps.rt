// The report, part by part: each step writes the next part of its text straight into the bytes that
// go out, and says where the report goes on. Source, list and pen stay three parameters: a struct of them
// would have to promise at each step that the other parts are the same, and only the lists use the list.
ghost use Rattle.std.specs.Prelude.{◌≡◌, ◌≤◌, length};
ghost use Rattle.vertex_set.specs.Set.{Decides};
ghost use Rattle.writing.specs.Inner.{SameBuffer};
ghost use Rattle.report_writer.specs.Inner.Steps.{StepRoom, step_at, ValuesBy, CanPutList, ListPut, CanStep, StepTaken, CanPutSection, ScoresPut, PairsPut};

use report_facts::{Facts, Source};
use report_rows::fields::ItemNames;
use report_sections::{accounts, lists};
use writing::Pen;

// Room for any step: the pairs of one account are at most 64 rows of 34 bytes.
const ROOM: usize = 4096;

// Where the report goes on.
#[derive(Clone, Copy)]
pub enum Cursor {
    // Nothing is written yet.
    Start,
    // The list with number k, of whose n rows row i comes next.
    Lists(usize, usize, usize),
    // The score row of vertex v.
    Scores(usize),
    // The pairs with vertex v above.
    Pairs(usize),
    // The one row of a refused sheet: number and line.
    Refused(u64, u64),
    End,
}

// Where the report goes on, and the place of its next byte.
#[derive(Drop)]
pub struct Step {
    pub cursor: Cursor,
    pub at: usize,
}

// The values that the sums of a list add up.
fn values_by(loss: bool, facts: &Facts) -> &[u64; 64]
    ensures { ValuesBy loss facts.now result.now }
{
    if loss {
        return &facts.losses;
    }
    &facts.starts
}

// Writes rows of the list with number k, from row i on, as far as there is room, and gives the number
// of the next row. Here and below source, list and pen are no struct, and `StepRoom` stays a clause: the source is
// only read, the list is lent from without, and a fact about what the pen lends has no place in a ghost field.
fn put_list(source: Source, k: usize, i: usize, n: usize, list: &[u64], pen: &mut Pen) -> usize
    requires can_put_list { CanPutList source.sheet.now source.facts.now list.now k i n }
    requires room { StepRoom pen.old }
    ensures same { SameBuffer pen.old pen.new }
    ensures rows { ListPut source.entry.sheet.now source.entry.facts.now list.now k i n pen.old.out.now pen.old.at pen.new.out.now result pen.new.at }
{
    let facts = source.facts;
    let names = ItemNames {
        sheet: source.sheet,
        from: &facts.from,
        to: &facts.to,
    };
    let loss = k % 2 == 1;
    let values = values_by(loss, facts);
    lists::put_rows(loss, k / 2, list, i, n, values, names, pen)
}

// Writes rows of the list with number k. Where all of them stand, loads the next list or, behind
// the last list, writes the header of the scores.
fn step_lists(
    source: Source,
    k: usize,
    i: usize,
    n: usize,
    list: &mut [u64],
    pen: &mut Pen,
) -> Cursor
    requires can_step { CanStep source.sheet.now source.facts.now source.opening.now source.lockout.now list.old (Cursor.Lists k i n) }
    requires room { StepRoom pen.old }
    ensures same { SameBuffer pen.old pen.new }
    ensures step { StepTaken source.entry.sheet.now source.entry.facts.now source.entry.opening.now source.entry.lockout.now list.old (Cursor.Lists k i n) pen.old.out.now pen.old.at list.new pen.new.out.now (step_at result pen.new) }
{
    if i < n {
        let row = put_list(source, k, i, n, list, pen);
        return Cursor::Lists(k, row, n);
    }
    let next = k + 1;
    if next < 2 * source.facts.count {
        let m = lists::load(source, next, list);
        return Cursor::Lists(next, 0, m);
    }
    pen.put(b"\ntarget score risk back idle\n");
    Cursor::Scores(0)
}

// Writes the score row of vertex v or, behind the last vertex, the header of the pairs.
fn step_scores(source: Source, v: usize, pen: &mut Pen) -> Cursor
    requires { CanPutSection source.sheet.now source.facts.now v pen.old.out.now pen.old.at }
    ensures same { SameBuffer pen.old pen.new }
    ensures step { ScoresPut source.entry.sheet.now source.entry.facts.now v pen.old.out.now pen.old.at pen.new.out.now (step_at result pen.new) }
{
    if v < source.facts.count {
        accounts::put_score_of(source, v, pen);
        return Cursor::Scores(v + 1);
    }
    pen.put(b"\nabove below\n");
    Cursor::Pairs(0)
}

// Writes the pairs with vertex v above. Behind the last vertex the report is at its end.
fn step_pairs(source: Source, v: usize, pen: &mut Pen) -> Cursor
    requires { CanPutSection source.sheet.now source.facts.now v pen.old.out.now pen.old.at }
    ensures same { SameBuffer pen.old pen.new }
    ensures step { PairsPut source.entry.sheet.now source.entry.facts.now v pen.old.out.now pen.old.at pen.new.out.now (step_at result pen.new) }
{
    if v < source.facts.count {
        accounts::put_pairs_of(source, v, pen);
        return Cursor::Pairs(v + 1);
    }
    Cursor::End
}

// Writes the next part of the report.
fn advance(source: Source, cursor: Cursor, list: &mut [u64], pen: &mut Pen) -> Cursor
    requires can_step { CanStep source.sheet.now source.facts.now source.opening.now source.lockout.now list.old cursor }
    requires room { StepRoom pen.old }
    ensures same { SameBuffer pen.old pen.new }
    ensures step { StepTaken source.entry.sheet.now source.entry.facts.now source.entry.opening.now source.entry.lockout.now list.old cursor pen.old.out.now pen.old.at list.new pen.new.out.now (step_at result pen.new) }
{
    // An enum and no closure: the cursor is handed out between two calls, and the report goes on from it.
    match cursor {
        Cursor::Start => {
            pen.put(b"target way size sum items\n");
            let n = lists::load(source, 0, list);
            Cursor::Lists(0, 0, n)
        }
        Cursor::Lists(k, i, n) => step_lists(source, k, i, n, list, pen),
        Cursor::Scores(v) => step_scores(source, v, pen),
        Cursor::Pairs(v) => step_pairs(source, v, pen),
        Cursor::Refused(number, line) => {
            report_rows::put_refused_row(number, line, pen);
            Cursor::End
        }
        Cursor::End => Cursor::End,
    }
}

// Is something left of the report?
pub fn unfinished(cursor: Cursor) -> bool
    ensures { Decides (cursor ≡ Cursor.End → ⊥) result }
{
    !matches!(cursor, Cursor::End)
}

// Writes parts of the report to the front of `out`, as long as there is room for any step, and says
// where the report goes on.
pub fn fill(source: Source, cursor: Cursor, list: &mut [u64], out: &mut [u8]) -> Step
    requires can_step { CanStep source.sheet.now source.facts.now source.opening.now source.lockout.now list.old cursor }
    requires in_bounds { 4096 ≤ length out.old }
    ensures { StepTaken source.entry.sheet.now source.entry.facts.now source.entry.opening.now source.entry.lockout.now list.old cursor out.old 0 list.new out.new result }
{
    let mut pen = Pen::new(out);
    let mut next = advance(source, cursor, list, &mut pen);
    while ROOM <= pen.left() && unfinished(next) {
        next = advance(source, next, list, &mut pen);
    }
    Step {
        cursor: next,
        at: pen.at,
    }
}
