// The parts of a pooled sheet that are not the first sheet's own bytes: the second sheet's remaining
// item rows, copied, and its edge rows, each copied but for the digit of its colour.

#![tactic(auto)]

ghost use Rattle.std.specs.Prelude.{cond, [], ◌≤◌, length, drop};
ghost use Rattle.writing.specs.Inner.{RoomFor, Penned};
ghost use Rattle.sheet_format.specs.Text.{lines_of};
ghost use Rattle.pool_text.specs.Inner.{RowsWithin, fresh_rows, with_digit, with_digits, CanPut};

use pool_items::Shared;
use setup::MAX_EDGES;
use writing::Pen;

// A colour is the fourth byte from the end of an edge row: behind it stand a space, the mark, and LF.
const BEHIND: usize = 3;

// The text where it is asked for; else nothing is written.
fn put_if(asked: bool, text: &[u8], pen: &mut Pen)
    requires { RoomFor pen.old (cond asked text.now []) }
    ensures { Penned pen.old (cond asked text.now []) pen.new }
{
    if asked {
        pen.put(text);
    }
}

// The rows of the items that are not in the first sheet. Row j stands in the sheet from from[j] up to
// from[j + 1].
pub fn put_remaining(s: &[u8], from: &[usize; 65], shared: &Shared, pen: &mut Pen)
    requires rows_within { RowsWithin s.now from.now shared.now.count }
    requires room { RoomFor pen.old (fresh_rows s.now from.now shared.now.places shared.now.count) }
    ensures { Penned pen.old (fresh_rows s.now from.now shared.now.places shared.now.count) pen.new }
{
    for (j, place) in shared.places[..shared.count].iter().enumerate() {
        let start = from[j];
        let end = from[j + 1];
        let fresh = place.is_none();
        put_if(fresh, &s[start..end], pen);
    }
}

// An edge row with another digit for its colour.
fn put_edge(line: &[u8], digit: u8, pen: &mut Pen)
    requires { (3 ≤ length line.now) × RoomFor pen.old (with_digit line.now digit) }
    ensures { Penned pen.old (with_digit line.now digit) pen.new }
{
    let split = line.len() - BEHIND;
    pen.put_field(&line[..split], digit);
    pen.put_field(&line[split + 1..], sheet_fields::LF);
}

// The edge rows from `start` on, with their new digits.
pub fn put_edges(s: &[u8], start: usize, digits: &[u8; MAX_EDGES], pen: &mut Pen)
    requires can_put { CanPut (lines_of (drop start s.now)) 0 }
    requires room { RoomFor pen.old (with_digits (lines_of (drop start s.now)) digits.now 0) }
    ensures { Penned pen.old (with_digits (lines_of (drop start s.now)) digits.now 0) pen.new }
{
    let mut from = start;
    let mut k: usize = 0;
    // By place: `split` would also give the empty part behind the last LF, which is no row.
    while from < s.len() {
        let end = sheet_fields::find(s, from, sheet_fields::LF);
        let digit = digits[k];
        put_edge(&s[from..end], digit, pen);
        from = end + 1;
        k += 1;
    }
}
