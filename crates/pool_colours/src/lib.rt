// The colours of a pooled sheet's edges: what each colour of the second sheet becomes.

#![tactic(auto)]

ghost use Rattle.std.specs.Prelude.{◌<◌};
ghost use Rattle.pool_colours.specs.Inner.Colours.{LowestFree, Used, NewColour, EdgeColour, ColoursOf};

use pool_items::Shared;
use setup::{Graph, MAX_EDGES, Rows};
use sheet_fields::LF;
use sheet_rows::ItemKeys;
use vertex_set::VertexSet;

// One more than can be taken for an item: eight by the first sheet, seven by earlier renamings.
const COLOUR_NUMBERS: usize = 16;

// The lowest colour that is not taken, if there is one.
fn lowest_free(taken: VertexSet) -> Option<usize>
    ensures { LowestFree taken.0 result }
{
    for k in 0..COLOUR_NUMBERS {
        if !taken.has(k) {
            return Some(k);
        }
    }
    None
}

// The colours of the edges into an item: those whose rows are not empty.
fn used_colours(rows: &Rows) -> VertexSet
    ensures { Used rows.now result.0 }
{
    let mut r = VertexSet(0);
    for (c, row) in rows.needs.iter().enumerate() {
        if *row != 0 {
            r = r.insert(c);
        }
    }
    r
}

// What the second sheet's colour becomes for an item in both, from the item's rows in both sheets:
// the lower colours of the second sheet are renamed before it, each to the lowest one that is free.
fn new_colour(first: &Rows, second: &Rows, colour: usize) -> Option<usize>
    requires { colour < 8 }
    ensures { NewColour first.now second.now colour result }
{
    let mut taken = used_colours(first);
    for (b, needs) in second.needs.iter().enumerate() {
        if b < colour && *needs != 0 {
            let new = lowest_free(taken)?;
            taken = taken.insert(new);
        }
    }
    lowest_free(taken)
}

// The colour of one edge row of the second sheet in the pooled one. An accepted sheet's row is never
// refused.
fn edge_colour(
    line: &[u8],
    keys: &ItemKeys,
    shared: &Shared,
    first: &Graph,
    second: &Graph,
) -> Option<usize>
    ensures { EdgeColour line.now keys.now.low keys.now.high keys.now.count shared.now.places first.now second.now result }
{
    let Ok(edge) = sheet_rows::take_edge(line, keys) else {
        return None;
    };
    match shared.places[edge.to] {
        Some(place) => new_colour(&first.rows[place], &second.rows[edge.to], edge.colour),
        None => Some(edge.colour),
    }
}

// The new colours of the edge rows from `start` on, as digits, where none is a ninth one.
pub fn colours_of(
    s: &[u8],
    start: usize,
    keys: &ItemKeys,
    shared: &Shared,
    first: &Graph,
    second: &Graph,
) -> Option<[u8; MAX_EDGES]>
    ensures { ColoursOf s.now start keys.now.low keys.now.high keys.now.count shared.now.places first.now second.now result }
{
    let mut digits = [0u8; MAX_EDGES];
    let mut edges: usize = 0;
    // By place: `split` would also give the empty part behind the last LF, which is no row.
    let mut at = start;
    while at < s.len() {
        if MAX_EDGES <= edges {
            return None;
        }
        let end = sheet_fields::find(s, at, LF);
        let colour = edge_colour(&s[at..end], keys, shared, first, second)?;
        if setup::MAX_COLOUR < colour {
            return None;
        }
        digits[edges] = 48 + colour as u8;
        edges += 1;
        at = end + 1;
    }
    Some(digits)
}
