// Where the report of a sheet begins.
ghost use Rattle.std.specs.Prelude.{◌≡◌, length};
ghost use Rattle.tables.specs.Inner.Table.{table_words};
ghost use Rattle.report_writer.specs.Whole.{Begun};

use crate::steps::Cursor;
use report_facts::{Facts, figures};
use scores::{RecoverabilityScore, SecurityScore};
use vertex_set::VertexSet;

// The place where the report begins, and the facts that its rows tell.
#[derive(Drop)]
pub struct Report {
    pub cursor: Cursor,
    pub facts: Facts,
}

// A refused sheet has no facts; its report does not ask for any. They are no `Option`, since the theorem
// `WholeReport` speaks of the facts of every report.
fn no_facts() -> Facts {
    let none = VertexSet(0);
    let score = SecurityScore::of(0);
    let risk = RecoverabilityScore::of(0);
    Facts {
        count: 0,
        accounts: none,
        initial: none,
        losable: none,
        starts: [0; 64],
        losses: [0; 64],
        scores: [score; 64],
        risks: [risk; 64],
        back: none,
        idle: none,
        below: [0; 64],
        from: [0; 64],
        to: [0; 64],
    }
}

// Reads the sheet, and works out what its report needs. The tables of closures are left in
// `opening` and `lockout`; a refused sheet leaves both as they were. Their lengths stay clauses: both may be parts
// of one longer list.
pub fn begin(sheet: &[u8], opening: &mut [u64], lockout: &mut [u64]) -> Report
    requires { (length opening.old ≡ table_words) × (length lockout.old ≡ table_words) }
    ensures { Begun sheet.now result opening.old lockout.old opening.new lockout.new }
{
    match sheet::read_sheet(sheet) {
        Ok(setup) => Report {
            cursor: Cursor::Start,
            facts: figures::facts_of(sheet, setup, opening, lockout),
        },
        Err(refused) => Report {
            cursor: Cursor::Refused(refused.refusal.number(), refused.line),
            facts: no_facts(),
        },
    }
}
