// The rows of a sheet: an item row and an edge row, each by itself, and with the rows above it.

#![tactic(auto)]

pub mod taken;

ghost use Rattle.std.specs.Prelude.{◌≡◌, ◌+◌, suc, ◌≤◌, ◌<◌, ◌&&◌, leb, set};
ghost use Rattle.setup.specs.Bounds.{most_items, most_chosen};
ghost use Rattle.sheet_format.specs.Text.{fields_of};
ghost use Rattle.sheet_format.specs.Questions.{question4, question5_item, question5_edge};
ghost use Rattle.sheet_fields.specs.Inner.Parts.{CutPlaces, four_fields};
ghost use Rattle.sheet_fields.specs.Inner.Forms.{read_if};
ghost use Rattle.sheet_rows.specs.Inner.NameKeys.{place_in};
ghost use Rattle.sheet_rows.specs.Inner.Lines.{read_line, vertex_form, vertex_from, item_line, edge_line, TakesItem, TakesEdge};

use questions::Refusal;
use setup::{MAX_CHOSEN, MAX_ITEMS, MAX_RANK, Vertex};
use sheet_fields::{Cut, Key};
use taken::TakenEdge;

// A colour is read as a number of 64 bits.
const MAX_COLOUR: u64 = setup::MAX_COLOUR as u64;

// The keys of the names of a sheet's items, in row order.
#[derive(Clone, Copy)]
pub struct ItemKeys {
    pub low: [u64; 64],
    pub high: [u64; 64],
    pub count: usize,
    ghost few: { count ≤ 64 },
}

// The keys of no items.
pub const NO_KEYS: ItemKeys = ItemKeys {
    low: [0; 64],
    high: [0; 64],
    count: 0,
};

impl ItemKeys {
    // The item that has a name with this key.
    pub fn find(&self, key: Key) -> Option<usize>
        ensures { result ≡ place_in self.now.low self.now.high self.now.count key }
    {
        let low = &self.low[..self.count];
        let high = &self.high[..self.count];
        low.iter()
            .zip(high)
            .position(|(a, b)| *a == key.low && *b == key.high)
    }

    // One item more.
    pub fn push(&mut self, key: Key)
        requires { self.old.count < 64 }
        ensures low { self.new.low ≡ set self.old.low self.old.count key.low }
        ensures high { self.new.high ≡ set self.old.high self.old.count key.high }
        ensures count { self.new.count ≡ self.old.count + 1 }
    {
        self.low[self.count] = key.low;
        self.high[self.count] = key.high;
        self.count += 1;
    }
}

#[derive(Clone, Copy)]
pub struct ItemLine {
    pub key: Key,
    pub vertex: Vertex,
}

// `starts` and `losses` count the starting and losable items with this one.
#[derive(Clone, Copy)]
pub struct TakenItem {
    pub key: Key,
    pub vertex: Vertex,
    pub starts: usize,
    pub losses: usize,
}

#[derive(Clone, Copy)]
pub struct EdgeLine {
    pub from: Key,
    pub to: Key,
    pub colour: usize,
    pub rec: bool,
}

// The four fields behind an item's name, where each has its form.
fn read_fields(l: &[u8], cut: Cut) -> Option<Vertex>
    requires { CutPlaces l.now cut.first cut.second cut.third }
    ensures { result ≡ read_if (vertex_form (four_fields l.now cut.first cut.second cut.third)) (vertex_from (four_fields l.now cut.first cut.second cut.third)) }
{
    let kind = sheet_fields::read_kind(&l[..cut.first])?;
    let start = sheet_fields::read_value(&l[cut.first + 1..cut.second])?;
    let loss = sheet_fields::read_value(&l[cut.second + 1..cut.third])?;
    let rank = sheet_fields::read_number(&l[cut.third + 1..])?;
    if MAX_RANK < rank {
        return None;
    }
    Some(Vertex {
        kind,
        start,
        loss,
        rank,
    })
}

fn read_vertex(l: &[u8]) -> Result<Vertex, Refusal>
    ensures { result ≡ read_line (question4 4 (fields_of l.now)) (vertex_form (fields_of l.now)) (vertex_from (fields_of l.now)) }
{
    let cut = sheet_fields::cut_four(l).ok_or(Refusal::Fields)?;
    let vertex = read_fields(l, cut).ok_or(Refusal::Form)?;
    Ok(vertex)
}

// Question 4 of the fields behind the name is asked before question 5 of the name.
pub fn read_item(l: &[u8]) -> Result<ItemLine, Refusal>
    ensures { result ≡ read_line (question4 5 (fields_of l.now)) (question5_item (fields_of l.now)) (item_line (fields_of l.now)) }
{
    let end = sheet_fields::end_of_field(l, 0).ok_or(Refusal::Fields)?;
    let vertex = read_vertex(&l[end + 1..])?;
    let key = sheet_fields::read_name(&l[..end]).ok_or(Refusal::Form)?;
    Ok(ItemLine { key, vertex })
}

// Question 7 of an item row below `count` others; `starts` and `losses` count this row too.
#[tactic(auto, using(std::proofs::lemmas::Bool::Decides::nat_tests))]
fn has_room(count: usize, starts: usize, losses: usize) -> bool
    ensures { result ≡ (leb (suc count) most_items && leb starts most_chosen && leb losses most_chosen) }
{
    count < MAX_ITEMS && starts <= MAX_CHOSEN && losses <= MAX_CHOSEN
}

// An item row below those with these keys, of which `starts` are starting and `losses` losable items.
pub fn take_item(
    l: &[u8],
    keys: &ItemKeys,
    starts: usize,
    losses: usize,
) -> Result<TakenItem, Refusal>
    requires { (starts ≤ most_chosen) × (losses ≤ most_chosen) }
    ensures { TakesItem l.now keys.now.low keys.now.high keys.now.count starts losses result }
{
    let item = read_item(l)?;
    if keys.find(item.key).is_some() {
        return Err(Refusal::NameUsed);
    }
    let starts = starts + setup::count_given(item.vertex.start);
    let losses = losses + setup::count_given(item.vertex.loss);
    if !has_room(keys.count, starts, losses) {
        return Err(Refusal::Bound);
    }
    Ok(TakenItem {
        key: item.key,
        vertex: item.vertex,
        starts,
        losses,
    })
}

// The four fields of an edge row, where each has its form.
fn read_ends(l: &[u8], cut: Cut) -> Option<EdgeLine>
    requires { CutPlaces l.now cut.first cut.second cut.third }
    ensures { result ≡ read_if (question5_edge (four_fields l.now cut.first cut.second cut.third)) (edge_line (four_fields l.now cut.first cut.second cut.third)) }
{
    let from = sheet_fields::read_name(&l[..cut.first])?;
    let to = sheet_fields::read_name(&l[cut.first + 1..cut.second])?;
    let colour = sheet_fields::read_number(&l[cut.second + 1..cut.third])?;
    let rec = sheet_fields::read_number(&l[cut.third + 1..])?;
    if MAX_COLOUR < colour {
        return None;
    }
    if 1 < rec {
        return None;
    }
    Some(EdgeLine {
        from,
        to,
        colour: colour as usize,
        rec: rec == 1,
    })
}

pub fn read_edge(l: &[u8]) -> Result<EdgeLine, Refusal>
    ensures { result ≡ read_line (question4 4 (fields_of l.now)) (question5_edge (fields_of l.now)) (edge_line (fields_of l.now)) }
{
    let cut = sheet_fields::cut_four(l).ok_or(Refusal::Fields)?;
    let edge = read_ends(l, cut).ok_or(Refusal::Form)?;
    Ok(edge)
}

// Reads an edge row and finds its two items among those with these keys.
pub fn take_edge(l: &[u8], keys: &ItemKeys) -> Result<TakenEdge, Refusal>
    ensures { TakesEdge l.now keys.now.low keys.now.high keys.now.count result }
{
    let edge = read_edge(l)?;
    // A name that no item has stands for the place behind the last item.
    let from = keys.find(edge.from).unwrap_or(keys.count);
    let to = keys.find(edge.to).unwrap_or(keys.count);
    if keys.count <= from || keys.count <= to {
        return Err(Refusal::NameUnknown);
    }
    Ok(TakenEdge {
        from,
        to,
        colour: edge.colour,
        rec: edge.rec,
    })
}
