// The rows of the report, written straight into the bytes that go out. Each function writes from the
// pen's place on; every other byte stays as it was.

#![tactic(auto)]

pub mod fields;

ghost use Rattle.report_text.specs.Rows.{set_row, score_row, pair_row, refused_row};
ghost use Rattle.sheet_format.specs.Names.{name_of};
ghost use Rattle.written.specs.Rows.{RowWritten};
ghost use Rattle.writing.specs.Inner.{RoomFor, SameBuffer};
ghost use Rattle.report_rows.specs.Inner.Writing.{NameAtHand, NamesAtHand};

use fields::ItemNames;
use sheet_fields::{LF, SPACE};
use writing::Pen;

// A set of a target's opening list or, with loss, of its lockout list, and the sum of its values.
#[derive(Drop)]
pub struct SetRow {
    pub loss: bool,
    pub target: usize,
    pub set: u64,
    pub sum: u64,
}

impl SetRow {
    // `order open 2 4 ordpw+token`
    #[tactic(auto, unfolding(report_text::specs::Rows::set_row))]
    pub fn put(self, names: ItemNames, pen: &mut Pen)
        requires target { NameAtHand names self.target }
        requires items { NamesAtHand names self.set }
        requires room { RoomFor pen.old (set_row (name_of names.sheet.now) self.loss self.target self.set self.sum) }
        ensures same { SameBuffer pen.old pen.new }
        ensures row_written { RowWritten pen.old.out.now pen.old.at (set_row (name_of names.entry.sheet.now) self.loss self.target self.set self.sum) pen.new.out.now pen.new.at }
    {
        let size = self.set.count_ones() as u64;
        names.put_name_field(self.target, SPACE, pen);
        fields::put_way(self.loss, SPACE, pen);
        pen.put_number(size, SPACE);
        pen.put_number(self.sum, SPACE);
        names.put_set_field(self.set, LF, pen);
    }
}

// A target's score, risk and findings.
#[derive(Drop)]
pub struct ScoreRow {
    pub target: usize,
    pub score: u64,
    pub risk: u64,
    pub back: bool,
    pub idle: bool,
}

impl ScoreRow {
    // `order 1 3 yes no`
    #[tactic(auto, unfolding(report_text::specs::Rows::score_row))]
    pub fn put(self, names: ItemNames, pen: &mut Pen)
        requires target { NameAtHand names self.target }
        requires room { RoomFor pen.old (score_row (name_of names.sheet.now) self.target self.score self.risk self.back self.idle) }
        ensures same { SameBuffer pen.old pen.new }
        ensures row_written { RowWritten pen.old.out.now pen.old.at (score_row (name_of names.entry.sheet.now) self.target self.score self.risk self.back self.idle) pen.new.out.now pen.new.at }
    {
        names.put_name_field(self.target, SPACE, pen);
        fields::put_score(self.score, SPACE, pen);
        fields::put_score(self.risk, SPACE, pen);
        fields::put_answer(self.back, SPACE, pen);
        fields::put_answer(self.idle, LF, pen);
    }
}

// `order mail`
#[tactic(auto, unfolding(report_text::specs::Rows::pair_row))]
pub fn put_pair_row(v: usize, w: usize, names: ItemNames, pen: &mut Pen)
    requires above { NameAtHand names v }
    requires below { NameAtHand names w }
    requires room { RoomFor pen.old (pair_row (name_of names.sheet.now) v w) }
    ensures same { SameBuffer pen.old pen.new }
    ensures row_written { RowWritten pen.old.out.now pen.old.at (pair_row (name_of names.entry.sheet.now) v w) pen.new.out.now pen.new.at }
{
    names.put_name_field(v, SPACE, pen);
    names.put_name_field(w, LF, pen);
}

// `refused 5 2`
#[tactic(auto, unfolding(report_text::specs::Rows::refused_row))]
pub fn put_refused_row(number: u64, line: u64, pen: &mut Pen)
    requires { RoomFor pen.old (refused_row number line) }
    ensures same { SameBuffer pen.old pen.new }
    ensures row_written { RowWritten pen.old.out.now pen.old.at (refused_row number line) pen.new.out.now pen.new.at }
{
    pen.put_field(b"refused", SPACE);
    pen.put_number(number, SPACE);
    pen.put_number(line, LF);
}
