// The report's second and third section, vertex by vertex: scores with findings, and pairs that are
// out of rank.
ghost use Rattle.sheet_format.specs.Names.{name_of};
ghost use Rattle.written.specs.Rows.{RowWritten};
ghost use Rattle.writing.specs.Inner.{RoomFor, SameBuffer};
ghost use Rattle.report_rows.specs.Inner.Writing.{NameAtHand, NamesAtHand};
ghost use Rattle.report_facts.specs.Texts.{score_at, pairs_at};
ghost use Rattle.report_sections.specs.Inner.Parts.{PartReady, WrotePart, pairs_with};

use report_facts::Source;
use report_rows::ScoreRow;
use report_rows::fields::ItemNames;
use writing::Pen;

// Writes the score row of vertex v; nothing where v is no account. Here and in `put_pairs_of` source and pen are no
// struct: one is only read, and the other is lent on to each row.
pub fn put_score_of(source: Source, v: usize, pen: &mut Pen)
    requires { PartReady source.sheet.now source.facts.now v pen.old.out.now pen.old.at }
    ensures same { SameBuffer pen.old pen.new }
    ensures part { WrotePart score_at source.entry.sheet.now source.entry.facts.now v pen.old.out.now pen.old.at pen.new.out.now pen.new.at }
{
    let facts = source.facts;
    if !facts.accounts.has(v) {
        return;
    }
    let names = ItemNames {
        sheet: source.sheet,
        from: &facts.from,
        to: &facts.to,
    };
    let row = ScoreRow {
        target: v,
        score: facts.scores[v].number(),
        risk: facts.risks[v].number(),
        back: facts.back.has(v),
        idle: facts.idle.has(v),
    };
    row.put(names, pen);
}

// Writes a row for each vertex of the set x, with v above.
fn put_pairs(v: usize, x: u64, names: ItemNames, pen: &mut Pen)
    requires above { NameAtHand names v }
    requires below { NamesAtHand names x }
    requires room { RoomFor pen.old (pairs_with (name_of names.sheet.now) v x) }
    ensures same { SameBuffer pen.old pen.new }
    ensures row_written { RowWritten pen.old.out.now pen.old.at (pairs_with (name_of names.entry.sheet.now) v x) pen.new.out.now pen.new.at }
{
    for w in successors::vertices_of(x) {
        report_rows::put_pair_row(v, w, names, pen);
    }
}

// Writes the pairs with vertex v above; nothing where v is no account.
pub fn put_pairs_of(source: Source, v: usize, pen: &mut Pen)
    requires { PartReady source.sheet.now source.facts.now v pen.old.out.now pen.old.at }
    ensures same { SameBuffer pen.old pen.new }
    ensures part { WrotePart pairs_at source.entry.sheet.now source.entry.facts.now v pen.old.out.now pen.old.at pen.new.out.now pen.new.at }
{
    let facts = source.facts;
    if !facts.accounts.has(v) {
        return;
    }
    let names = ItemNames {
        sheet: source.sheet,
        from: &facts.from,
        to: &facts.to,
    };
    put_pairs(v, facts.below[v], names, pen);
}
