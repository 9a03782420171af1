// Findings on an account's recovery edges, and on ranks (document 003, definitions 26 to 28).

#![tactic(auto)]

ghost use Rattle.std.specs.Prelude.{true, false, [], ◌<◌};
ghost use Rattle.bases.specs.Score.{Score};
ghost use Rattle.formed.specs.Inner.Answerable.{Answerable};
ghost use Rattle.questions.specs.Contract.{ends, Fulfils};
ghost use Rattle.findings.specs.Findings.{FindsBackdoor, FindsIneffective, FindsInconsistent};
ghost use Rattle.findings.specs.Answers.{finding_reply, backdoor_call, ineffective_call, inconsistent_call};

use questions::Refusal;
use scores::{RecoverabilityScore, SecurityScore};
use setup::{Graph, Setup};

// Setup and item are no struct that has them and `Answerable` in these functions: the calls are offered
// with both, and `bases::score_of` takes both.

// The security score of v in the setup's own graph, or in the graph without recovery.
fn security_in(s: Setup, graph: Graph, v: usize) -> SecurityScore
    requires { Answerable s v }
    ensures { Score false s graph v result.0 }
{
    SecurityScore::of(bases::score_of(s, graph, false, v))
}

// The recoverability score of v in the setup's own graph, or in the graph without recovery.
fn recoverability_in(s: Setup, graph: Graph, v: usize) -> RecoverabilityScore
    requires { Answerable s v }
    ensures { Score true s graph v result.0 }
{
    RecoverabilityScore::of(bases::score_of(s, graph, true, v))
}

fn find_backdoor(s: Setup, v: usize) -> bool
    requires { Answerable s v }
    ensures { FindsBackdoor s v result }
{
    let score = security_in(s, s.graph, v);
    let without = security_in(s, setup::without_recovery(s), v);
    score.below(without)
}

fn find_ineffective(s: Setup, v: usize) -> bool
    requires { Answerable s v }
    ensures { FindsIneffective s v result }
{
    let score = recoverability_in(s, s.graph, v);
    let without = recoverability_in(s, setup::without_recovery(s), v);
    score.at_most(without)
}

// The ranks are compared first: where v has not the higher rank, no score has to be worked out.
fn find_inconsistent(s: Setup, v: usize, w: usize) -> bool
    requires { Answerable s v × (w < s.count) }
    ensures { FindsInconsistent s v w result }
{
    let graph = s.graph;
    let higher = s.vertices[v];
    let lower = s.vertices[w];
    if lower.rank < higher.rank {
        let score = security_in(s, graph, v);
        let other = security_in(s, graph, w);
        return score.at_most(other);
    }
    false
}

// Has v a backdoor: is its security score below its score without recovery?
pub fn has_backdoor(s: Setup, v: usize) -> Result<bool, Refusal>
    ensures { Fulfils (backdoor_call s v) (ends (finding_reply result) []) }
{
    let formed = formed::well_formed(s);
    questions::ask_target(formed, s.count, v)?;
    Ok(find_backdoor(s, v))
}

// Is v's recovery ineffective (document 01: idle): is its recoverability score at most that
// without recovery?
pub fn ineffective_recovery(s: Setup, v: usize) -> Result<bool, Refusal>
    ensures { Fulfils (ineffective_call s v) (ends (finding_reply result) []) }
{
    let formed = formed::well_formed(s);
    questions::ask_target(formed, s.count, v)?;
    Ok(find_ineffective(s, v))
}

// Are v and w inconsistent (document 01: out of rank): has v the higher rank, and a security score
// that is at most that of w?
pub fn inconsistent(s: Setup, v: usize, w: usize) -> Result<bool, Refusal>
    ensures { Fulfils (inconsistent_call s v w) (ends (finding_reply result) []) }
{
    let formed = formed::well_formed(s);
    questions::ask_target(formed, s.count, v)?;
    if s.count <= w {
        return Err(Refusal::NoItem);
    }
    Ok(find_inconsistent(s, v, w))
}
