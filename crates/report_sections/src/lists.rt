// The report's first section, list by list.
ghost use Rattle.std.specs.Prelude.{◌≤◌, length};
ghost use Rattle.writing.specs.Inner.{SameBuffer};
ghost use Rattle.sheet_format.specs.Names.{name_of};
ghost use Rattle.report_sections.specs.Inner.Lists.{RowsReady, RowsPut, CanLoad, Loaded};

use report_facts::Source;
use report_rows::SetRow;
use report_rows::fields::ItemNames;
use writing::Pen;

// No row of a list has more bytes.
const LONGEST: usize = 275;

// Writes the rows of a list from row i on, as long as there is room for the longest row, and gives the
// number of the next row. The list and the numbers i and n are no struct: the caller keeps the numbers in its
// cursor, and the list is lent from without.
pub fn put_rows(
    loss: bool,
    target: usize,
    list: &[u64],
    i: usize,
    n: usize,
    values: &[u64],
    names: ItemNames,
    pen: &mut Pen,
) -> usize
    requires rows_ready { RowsReady names.sheet.now names.from.now names.to.now values.now list.now target i n }
    requires inside { pen.old.at ≤ length pen.old.out.now }
    ensures same { SameBuffer pen.old pen.new }
    ensures rows { RowsPut (name_of names.entry.sheet.now) loss target values.now list.now i n pen.old.out.now pen.old.at pen.new.out.now result pen.new.at }
{
    // By index, since the number of the row that has no room is handed back.
    for row in i..n {
        if pen.left() < LONGEST {
            return row;
        }
        let set = list[row];
        let line = SetRow {
            loss,
            target,
            set,
            sum: report_scores::set_sum(set, values),
        };
        line.put(names, pen);
    }
    n
}

// Writes the list with number k to the front of `list`, and gives its length. A vertex that is no
// account has no sets.
pub fn load(source: Source, k: usize, list: &mut [u64]) -> usize
    requires { CanLoad k source.facts.now.initial.0 source.facts.now.losable.0 source.opening.now source.lockout.now list.old }
    ensures { Loaded k source.entry.facts.now.accounts.0 source.entry.facts.now.initial.0 source.entry.facts.now.losable.0 source.entry.opening.now source.entry.lockout.now list.old result list.new }
{
    let facts = source.facts;
    let v = k / 2;
    if !facts.accounts.has(v) {
        return 0;
    }
    if k % 2 == 1 {
        return report_scores::list_from(source.lockout, facts.losable, v, list);
    }
    report_scores::list_from(source.opening, facts.initial, v, list)
}
