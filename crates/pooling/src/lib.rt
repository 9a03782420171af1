// Two labs pool their sheets (document 02, point 11): the call that writes the pooled sheet. Rows are
// copied and not written anew, since an accepted text is the written form of its rows; of the second
// sheet's edge rows one byte changes, the colour.

#![tactic(auto)]

ghost use Rattle.std.specs.Prelude.{◌≡◌, ◌≤◌, length};
ghost use Rattle.vertex_set.specs.Set.{Decides};
ghost use Rattle.written.specs.Inner.{Wrote};
ghost use Rattle.sheet_format.specs.Text.{lines_of};
ghost use Rattle.sheet_lines.specs.Inner.Keys.{Accepts};
ghost use Rattle.pool_format.specs.Call.{with_buffer, pool_answer, PoolsRows, PoolCall};
ghost use Rattle.pooling.specs.Inner.{CountsInBounds, BothRead, BoundsOf, PlanOf, pooled_text, CanWrite};

use pool_format::PoolRefusal;
use pool_items::Shared;
use questions::Refusal;
use setup::{MAX_EDGES, Setup};
use sheet_lines::item_keys;
use writing::Pen;

// The lines of a sheet that are no rows: two headers and the empty line.
const OTHER_LINES: usize = 3;

// The bytes from the empty line up to the first edge row: its LF, and the second header with its own.
const SECOND_HEADER: usize = 20;

// What is known of the pooled sheet before a byte of it is written: its bytes, where the
// first sheet's empty line is, the second sheet's item rows with their places in the first sheet, and
// its edge rows with the digits of their new colours.
#[derive(Drop)]
struct Plan {
    size: usize,
    split: usize,
    from: [usize; 65],
    shared: Shared,
    start: usize,
    digits: [u8; MAX_EDGES],
}

fn count_lines(s: &[u8]) -> usize
    ensures { result ≡ length (lines_of s.now) }
{
    let mut lines: usize = 0;
    let mut at: usize = 0;
    // By place: `split` would also give the empty part behind the last LF, which is no line.
    while at < s.len() {
        let end = sheet_fields::find(s, at, sheet_fields::LF);
        lines += 1;
        at = end + 1;
    }
    lines
}

fn in_bounds(items: usize, starts: usize, losses: usize, edges: usize) -> bool
    ensures { Decides (CountsInBounds items starts losses edges) result }
{
    if setup::MAX_ITEMS < items {
        return false;
    }
    if setup::MAX_CHOSEN < starts {
        return false;
    }
    if setup::MAX_CHOSEN < losses {
        return false;
    }
    edges <= MAX_EDGES
}

// Asks the bounds of the pooled rows, and tells how many bytes the remaining item rows have. A shared
// item counts once, and an edge that is in both sheets twice. Here and below the sheets and their setups are no
// struct, and `Accepts` stays a clause: `pool_sheets` is offered with two texts, and each function takes its parts.
fn bounds_of(
    first: &[u8],
    second: &[u8],
    a: &Setup,
    b: &Setup,
    begins: &[usize; 65],
    from: &[usize; 65],
    shared: &Shared,
) -> Option<usize>
    requires both { BothRead first.now second.now a.now b.now begins.now from.now shared.now.places }
    requires count { shared.now.count ≡ b.now.count }
    ensures { BoundsOf first.now second.now shared.now.places result }
{
    // With none in both all items remain: so the first sheet's own are counted.
    let own = Shared::none(a.count).count_remaining(&a.vertices, begins);
    let more = shared.count_remaining(&b.vertices, from);
    let rows = count_lines(first) - OTHER_LINES - a.count;
    let other_rows = count_lines(second) - OTHER_LINES - b.count;
    let ok = in_bounds(
        own.items + more.items,
        own.starts + more.starts,
        own.losses + more.losses,
        rows + other_rows,
    );
    if ok {
        return Some(more.bytes);
    }
    None
}

// Asks whether shared items agree, and then whether the pooled rows are within the bounds and need no
// ninth colour. Both sheets are accepted, and state these setups.
fn plan_of(first: &[u8], second: &[u8], a: &Setup, b: &Setup) -> Result<Plan, Refusal>
    requires { Accepts first.now a.now × Accepts second.now b.now }
    ensures { PlanOf first.now second.now result }
{
    let own = item_keys::keys_of(first, a.count);
    let keys = item_keys::keys_of(second, b.count);
    let shared = Shared::of(&own.keys, &keys.keys);
    if !shared.all_agree(&a.vertices, &b.vertices) {
        return Err(Refusal::Disagree);
    }
    let Some(bytes) = bounds_of(first, second, a, b, &own.from, &keys.from, &shared) else {
        return Err(Refusal::PoolBound);
    };
    let start = keys.from[b.count] + SECOND_HEADER;
    let Some(digits) = pool_colours::colours_of(
        second, start, &keys.keys, &shared, &a.graph, &b.graph,
    ) else {
        return Err(Refusal::PoolBound);
    };
    let parts = first.len() + bytes;
    let rows = second.len() - start;
    let size = parts + rows;
    // An array goes from a struct to a literal by a variable: else there is no proof yet.
    let from = keys.from;
    Ok(Plan {
        size,
        split: own.from[a.count],
        from,
        shared,
        start,
        digits,
    })
}

// The first sheet up to its empty line, the second's remaining item rows, the rest of the first sheet,
// the second's edge rows.
fn write_pooled(first: &[u8], second: &[u8], plan: &Plan, out: &mut [u8]) -> usize
    requires { CanWrite first.now second.now plan.now out.old }
    ensures { Wrote out.old 0 (pooled_text first.now second.now plan.now) out.new result }
{
    let mut pen = Pen::new(out);
    pen.put(&first[..plan.split]);
    pool_text::put_remaining(second, &plan.from, &plan.shared, &mut pen);
    pen.put(&first[plan.split..]);
    pool_text::put_edges(second, plan.start, &plan.digits, &mut pen);
    pen.at
}

// Pools two accepted sheets that state these setups. Nothing is written before every question is
// answered.
fn pool_read(
    first: &[u8],
    second: &[u8],
    a: &Setup,
    b: &Setup,
    out: &mut [u8],
) -> Result<usize, PoolRefusal>
    requires { Accepts first.now a.now × Accepts second.now b.now }
    ensures { PoolsRows first.now second.now out.old (with_buffer (pool_answer result) out.new) }
{
    let plan = plan_of(first, second, a, b).map_err(|refusal| PoolRefusal {
        refusal,
        sheet: 0,
        line: 0,
    })?;
    let size = plan.size;
    if out.len() < size {
        return Err(PoolRefusal {
            refusal: Refusal::PoolShort,
            sheet: 0,
            line: 0,
        });
    }
    write_pooled(first, second, &plan, out);
    Ok(size)
}

// Writes the pooled sheet of two sheets to the start of the lent buffer, and tells how many bytes
// it has. A refused sheet gives its refusal and line, the first sheet's before the second's; else the
// refusal tells whether shared items disagree, the pooled rows break a bound or need a ninth colour, or
// the buffer is shorter than the pooled sheet.
pub fn pool_sheets(first: &[u8], second: &[u8], out: &mut [u8]) -> Result<usize, PoolRefusal>
    ensures { PoolCall first.now second.now (pool_answer result) out.old out.new }
{
    let a = sheet::read_sheet(first).map_err(|no| PoolRefusal {
        refusal: no.refusal,
        sheet: 1,
        line: no.line,
    })?;
    let b = sheet::read_sheet(second).map_err(|no| PoolRefusal {
        refusal: no.refusal,
        sheet: 2,
        line: no.line,
    })?;
    pool_read(first, second, &a, &b, out)
}
