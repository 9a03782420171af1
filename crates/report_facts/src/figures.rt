// The facts behind the report's rows, worked out once for the whole report.
ghost use Rattle.std.specs.Prelude.{◌≡◌, length};
ghost use Rattle.formed.specs.WellFormed.{WellFormed};
ghost use Rattle.tables.specs.Inner.Table.{table_words};
ghost use Rattle.report_facts.specs.Inner.Facts.{HasNames, FactsOf, TablesOf};
ghost use Rattle.report_facts.specs.Inner.Figures.{BothScored, FindingsOf};

use super::{names, sets};
use crate::Facts;
use scores::{RecoverabilityScore, SecurityScore};
use setup::{Graph, Setup};
use vertex_set::VertexSet;

// The scores and risks of all vertices in one graph.
#[derive(Drop)]
struct Scores {
    scores: [SecurityScore; 64],
    risks: [RecoverabilityScore; 64],
}

// The scores and risks with recovery, the vertices that recovery weakens (`back`, a backdoor) and
// those that it does not help (`idle`).
#[derive(Drop)]
struct Findings {
    scores: [SecurityScore; 64],
    risks: [RecoverabilityScore; 64],
    back: VertexSet,
    idle: VertexSet,
}

// Fills the two tables for the graph, and reads all scores and risks from them. Here and below the tables are no
// struct with the setup, and `WellFormed` and their lengths stay clauses: `begin`, which is offered, is lent both
// tables, and they may be parts of a longer list.
fn scores_with(s: Setup, graph: Graph, opening: &mut [u64], lockout: &mut [u64]) -> Scores
    requires formed { WellFormed s }
    requires tables_len { (length opening.old ≡ table_words) × (length lockout.old ≡ table_words) }
    ensures { BothScored s graph opening.new lockout.new result }
{
    let scores = report_scores::security_in(s, graph, opening);
    let risks = report_scores::recoverability_in(s, graph, lockout);
    Scores { scores, risks }
}

// Compares the scores and risks with those without recovery. The tables are filled without recovery
// first, so that the ones with recovery are left in them.
fn findings_of(s: Setup, opening: &mut [u64], lockout: &mut [u64]) -> Findings
    requires formed { WellFormed s }
    requires tables_len { (length opening.old ≡ table_words) × (length lockout.old ≡ table_words) }
    ensures { FindingsOf s opening.new lockout.new result }
{
    let graph = s.graph;
    let less = setup::without_recovery(s);
    let without = scores_with(s, less, opening, lockout);
    let own = scores_with(s, graph, opening, lockout);
    let back = sets::weaker_places(&own.scores, &without.scores);
    let idle = sets::idle_places(&own.risks, &without.risks);
    Findings {
        scores: own.scores,
        risks: own.risks,
        back,
        idle,
    }
}

// The facts of a sheet's setup. Each of the four tables of closures is filled once and cut down to
// the bases; the two with recovery are left in `opening` and `lockout`.
pub fn facts_of(sheet: &[u8], s: Setup, opening: &mut [u64], lockout: &mut [u64]) -> Facts
    requires well_formed { WellFormed s × HasNames sheet.now s }
    requires tables_len { (length opening.old ≡ table_words) × (length lockout.old ≡ table_words) }
    ensures { FactsOf sheet.now s result × TablesOf s result opening.new lockout.new }
{
    let names = names::name_places(sheet, s.count);
    let findings = findings_of(s, opening, lockout);
    let accounts = sets::accounts_of(&s);
    let below = sets::below_all(&s, accounts, &findings.scores);
    let starts = bases::values_of(s, false);
    let losses = bases::values_of(s, true);
    let scores = findings.scores;
    let risks = findings.risks;
    let from = names.from;
    let to = names.to;
    Facts {
        count: s.count,
        accounts,
        initial: setup::chosen(s, false),
        losable: setup::chosen(s, true),
        starts,
        losses,
        scores,
        risks,
        back: findings.back,
        idle: findings.idle,
        below,
        from,
        to,
    }
}
