// The fields of the report's rows, written straight into the bytes that go out. Each function writes
// from the pen's place on; every other byte stays as it was.
ghost use Rattle.std.specs.Prelude.{◌≡◌, ◌++◌};
ghost use Rattle.report_text.specs.Rows.{way_text, answer_text, score_text, set_text};
ghost use Rattle.sheet_format.specs.Names.{name_of};
ghost use Rattle.writing.specs.Inner.{ended, RoomFor, Penned};
ghost use Rattle.report_rows.specs.Inner.Writing.{NameAtHand, NamesAtHand, plus};

use scores::NEVER;
use writing::Pen;

#[tactic(auto, unfolding(report_text::specs::Rows::way_text))]
pub fn put_way(loss: bool, end: u8, pen: &mut Pen)
    requires { RoomFor pen.old (ended (way_text loss) end) }
    ensures { Penned pen.old (ended (way_text loss) end) pen.new }
{
    if loss {
        pen.put_field(b"lock", end);
        return;
    }
    pen.put_field(b"open", end);
}

#[tactic(auto, unfolding(report_text::specs::Rows::answer_text))]
pub fn put_answer(yes: bool, end: u8, pen: &mut Pen)
    requires { RoomFor pen.old (ended (answer_text yes) end) }
    ensures { Penned pen.old (ended (answer_text yes) end) pen.new }
{
    if yes {
        pen.put_field(b"yes", end);
        return;
    }
    pen.put_field(b"no", end);
}

#[tactic(auto, unfolding(report_text::specs::Rows::score_text))]
pub fn put_score(score: u64, end: u8, pen: &mut Pen)
    requires { RoomFor pen.old (ended (score_text score) end) }
    ensures { Penned pen.old (ended (score_text score) end) pen.new }
{
    if score == NEVER {
        pen.put_field(b"-", end);
        return;
    }
    pen.put_number(score, end);
}

// A sheet, and where the names of its items stand in it: that of the item v from from[v] up to to[v].
// No ghost field says so of all items, and the lists have any length: the row writers that docs/TRUST.md
// names would else ask for names, or places, that they do not write.
#[derive(Clone, Copy)]
pub struct ItemNames<'a> {
    pub sheet: &'a [u8],
    pub from: &'a [usize],
    pub to: &'a [usize],
}

impl<'a> ItemNames<'a> {
    // The name of the item v, a part of the sheet.
    fn name(self, v: usize) -> &'a [u8]
        requires { NameAtHand self v }
        ensures { result.now ≡ name_of self.entry.sheet.now v }
    {
        &self.sheet[self.from[v]..self.to[v]]
    }

    // The name of an item of a set, and a `+` where another follows.
    fn put_item(self, v: usize, more: bool, pen: &mut Pen)
        requires item { NameAtHand self v }
        requires room { RoomFor pen.old (name_of self.sheet.now v ++ plus more) }
        ensures { Penned pen.old (name_of self.entry.sheet.now v ++ plus more) pen.new }
    {
        if more {
            pen.put_field(self.name(v), b'+');
            return;
        }
        pen.put(self.name(v));
    }

    // The names of the items of the set x, joined by `+`.
    pub fn put_items(self, x: u64, pen: &mut Pen)
        requires items { NamesAtHand self x }
        requires room { RoomFor pen.old (set_text (name_of self.sheet.now) x) }
        ensures { Penned pen.old (set_text (name_of self.entry.sheet.now) x) pen.new }
    {
        let mut rest = x;
        // From bit to bit: whether one more follows decides on the `+`.
        while rest != 0 {
            let v = rest.trailing_zeros();
            rest -= 1 << v;
            self.put_item(v as usize, rest != 0, pen);
        }
    }

    pub fn put_name_field(self, v: usize, end: u8, pen: &mut Pen)
        requires item { NameAtHand self v }
        requires room { RoomFor pen.old (ended (name_of self.sheet.now v) end) }
        ensures { Penned pen.old (ended (name_of self.entry.sheet.now v) end) pen.new }
    {
        pen.put_field(self.name(v), end);
    }

    pub fn put_set_field(self, x: u64, end: u8, pen: &mut Pen)
        requires items { NamesAtHand self x }
        requires room { RoomFor pen.old (ended (set_text (name_of self.sheet.now) x) end) }
        ensures { Penned pen.old (ended (set_text (name_of self.entry.sheet.now) x) end) pen.new }
    {
        self.put_items(x, pen);
        pen.put_byte(end);
    }
}
