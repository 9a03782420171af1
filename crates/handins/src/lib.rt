// Hand-ins by name: the calls that read and write a set by the names of its items, and those on a hand-in
// line. A sheet is read anew at each call: so names and graph cannot come from two sheets.

#![tactic(auto)]

ghost use Rattle.std.specs.Prelude.{[], ◌∷◌, ◌≤◌, length};
ghost use Rattle.questions.specs.Told.{Told};
ghost use Rattle.sheet_format.specs.Names.{name_of};
ghost use Rattle.written.specs.Inner.{Wrote};
ghost use Rattle.report_rows.specs.Inner.Writing.{NamesAtHand};
ghost use Rattle.report_text.specs.Rows.{set_text};
ghost use Rattle.writing.specs.Inner.HandOut.{HandsOut};
ghost use Rattle.handin_format.specs.Sets.{set_names};
ghost use Rattle.handin_format.specs.Calls.{named_set, ReadSetCall, set_written, write_set_call, line_answer, ReadLineCall, EnterCall};
ghost use Rattle.handins.specs.Inner.{CanName};

use handin_format::{FieldRefusal, LineSaid, Unread};
use handin_lines::{by_name, lines, sets, tasks};
use lines::LineRead;
use questions::Refusal;
use records::{Record, Registered};
use report_facts::names;
use report_rows::fields::ItemNames;
use sheet_lines::item_keys;
use vertex_set::VertexSet;
use writing::Pen;

// No set has longer names: 64 of 16 bytes, and a `+` between each two.
pub const SET_BYTES: usize = 1087;

// The set that names joined by `+` name on a sheet, and `-` the empty one. A refused sheet gives its refusal
// and line; else 5 where the text is not names joined by `+`, 8 where one is not known, 6 where an item is
// named twice.
pub fn read_set(sheet: &[u8], text: &[u8]) -> Result<u64, Unread>
    ensures { ReadSetCall sheet.now text.now (named_set result) }
{
    let count = match sheet::read_sheet(sheet) {
        Ok(setup) => setup.count,
        Err(refused) => return Err(Unread::Sheet(refused)),
    };
    let found = item_keys::keys_of(sheet, count);
    match by_name::set_of(text, &found.keys) {
        Ok(set) => Ok(set),
        Err(refusal) => Err(Unread::Text(FieldRefusal { refusal, place: 0 })),
    }
}

// The names of a set, to the start of the buffer.
fn put_set(names: ItemNames, set: u64, out: &mut [u8]) -> usize
    requires items { NamesAtHand names set }
    requires room { length (set_text (name_of names.sheet.now) set) ≤ length out.old }
    ensures { Wrote out.old 0 (set_text (name_of names.entry.sheet.now) set) out.new result }
{
    let mut pen = Pen::new(out);
    names.put_items(set, &mut pen);
    pen.at
}

// The names of a set of items of the sheet, or `-` for the empty one, to the start of the buffer. They are
// written elsewhere first, so that the lent buffer is not touched where it is too short. Its parameters are those
// of `write_set`, which is offered.
fn put_names(sheet: &[u8], count: usize, set: u64, out: &mut [u8]) -> Option<usize>
    requires { CanName sheet.now count set }
    ensures { HandsOut (set_names (name_of sheet.now) set) result out.old out.new }
{
    if set == 0 {
        return writing::hand_out(b"-", out);
    }
    let places = names::name_places(sheet, count);
    let names = ItemNames {
        sheet,
        from: &places.from,
        to: &places.to,
    };
    let mut text = [0u8; SET_BYTES];
    let size = put_set(names, set, &mut text);
    writing::hand_out(&text[..size], out)
}

// Writes the names of a set, rising and joined by `+`, or `-` for the empty one, to the start of the lent
// buffer, and tells how many bytes they have. A refused sheet gives its refusal; else 14 where the set has
// another item; 15 where the buffer is shorter than the text.
pub fn write_set(sheet: &[u8], set: u64, out: &mut [u8]) -> Result<usize, Refusal>
    ensures { Told (write_set_call sheet.now set out.old) (set_written result).number ((set_written result).size ∷ []) (out.new ∷ []) }
{
    let count = match sheet::read_sheet(sheet) {
        Ok(setup) => setup.count,
        Err(refused) => return Err(refused.refusal),
    };
    if let Err(refusal) = questions::ask_set(true, count, VertexSet(set)) {
        return Err(refusal);
    }
    put_names(sheet, count, set, out).ok_or(Refusal::Short)
}

// What a hand-in line says; its sets go to the start of the lent list. A refused sheet gives its refusal and
// line; else the line's first no, 2, 4, 5, 8, 6 or 7, with its field; 15 where the list is shorter than the
// line's sets.
pub fn read_line(sheet: &[u8], line: &[u8], handed: &mut [u64]) -> Result<LineSaid, Unread>
    ensures { ReadLineCall sheet.now line.now (line_answer result) handed.old handed.new }
{
    let count = match sheet::read_sheet(sheet) {
        Ok(setup) => setup.count,
        Err(no) => return Err(Unread::Sheet(no)),
    };
    let found = item_keys::keys_of(sheet, count);
    match lines::check_line(line, &found.keys) {
        Ok(LineRead::Withdrawal(student)) => Ok(LineSaid::Withdrawal(student)),
        Ok(LineRead::Attempt(attempt, start)) => {
            if handed.len() < attempt.count {
                return Err(Unread::Short);
            }
            sets::put_sets(line, start, &found.keys, handed);
            Ok(LineSaid::Attempt(attempt))
        }
        Err(no) => Err(Unread::Text(no)),
    }
}

// A hand-in line taken to the register: 25, the sheet's number, the line's, then 26 or 27. `read_line` tells
// whose a number is, and where.
pub fn enter_line(sheet: &[u8], line: &[u8], records: &mut [Record], used: usize) -> Registered
    ensures { EnterCall sheet.now line.now used result records.old records.new }
{
    let t = tasks::task_of(sheet, line);
    records::apply(records, used, t)
}
