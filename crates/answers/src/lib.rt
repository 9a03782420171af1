// The calls on a target of a setup: both lists, score, risk, and the marks of handed-in lists.

#![tactic(auto)]

ghost use Rattle.std.specs.Prelude.{◌≡◌, true, false, ◌-◌, ◌<◌, [], ◌∷◌};
ghost use Rattle.questions.specs.Contract.{ends, Answers, Fulfils};
ghost use Rattle.answers.specs.Answers.{bases_reply, bases_call, score_reply, risk_reply, score_call, marks_reply, marks_call};
ghost use Rattle.answers.specs.Demand3.{Demand3};
ghost use Rattle.formed.specs.Inner.Answerable.{Answerable};
ghost use Rattle.answers.specs.Inner.{MarksTaken};

use families::WORDS;
use questions::Refusal;
use scores::{RecoverabilityScore, SecurityScore};
use setup::Setup;

// How many sets the two lists have: the opening list, and the lockout list behind it.
#[derive(Drop)]
pub struct Lengths {
    pub openings: usize,
    pub lockouts: usize,
}

// The five counts of a handed-in list, by document 01's names: a shut set is no access set or, for
// lockouts, no lockout set, and a loose set is not minimal.
#[derive(Drop)]
pub struct Marks {
    pub right: usize,
    pub repeated: usize,
    pub shut: usize,
    pub loose: usize,
    pub missing: usize,
}

// Setup and target are no struct that has them and `Answerable` in these functions: the calls are offered
// with both, those on marks with the handed-in list too, and each function of `bases` takes both.

// Both lists of a target of a well-formed setup. Their lengths are known before a set is written,
// so that a lent list which is too short stays as it was.
fn write_bases(s: Setup, target: usize, out: &mut [u64]) -> Result<Lengths, Refusal>
    requires { Answerable s target }
    ensures { Answers (bases_call s target out.old) (ends (bases_reply result) (out.new ∷ [])) }
{
    let initial = setup::chosen(s, false);
    let losable = setup::chosen(s, true);
    let mut opening = [0u64; WORDS];
    let mut lockout = [0u64; WORDS];
    let n = bases::base_family(s, s.graph, false, target, initial, &mut opening);
    let m = bases::base_family(s, s.graph, true, target, losable, &mut lockout);
    if out.len() < n {
        return Err(Refusal::Short);
    }
    if out.len() - n < m {
        return Err(Refusal::Short);
    }
    let first = family_lists::write_sets(&opening, initial, out);
    let second = family_lists::write_sets(&lockout, losable, &mut out[first..]);
    Ok(Lengths {
        openings: first,
        lockouts: second,
    })
}

// Both lists of the target in one lent list: the access base first, then the lockout base.
pub fn both_bases(s: Setup, target: usize, out: &mut [u64]) -> Result<Lengths, Refusal>
    ensures { Fulfils (bases_call s target out.old) (ends (bases_reply result) (out.new ∷ [])) }
{
    let formed = formed::well_formed(s);
    questions::ask_target(formed, s.count, target)?;
    write_bases(s, target, out)
}

// The target's security score (document 01: its score).
pub fn security_score(s: Setup, target: usize) -> Result<SecurityScore, Refusal>
    ensures { Fulfils (score_call false s target) (ends (score_reply result) []) }
{
    let formed = formed::well_formed(s);
    questions::ask_target(formed, s.count, target)?;
    Ok(SecurityScore::of(bases::score_of(s, s.graph, false, target)))
}

// The target's recoverability score (document 01: its risk).
pub fn recoverability_score(s: Setup, target: usize) -> Result<RecoverabilityScore, Refusal>
    ensures { Fulfils (score_call true s target) (ends (risk_reply result) []) }
{
    let formed = formed::well_formed(s);
    questions::ask_target(formed, s.count, target)?;
    Ok(RecoverabilityScore::of(bases::score_of(s, s.graph, true, target)))
}

// The marks of a list that is handed in for a target of a well-formed setup.
fn take_marks(loss: bool, s: Setup, target: usize, handed: &[u64]) -> Marks
    requires { Answerable s target }
    ensures { MarksTaken loss s target handed.now result }
{
    let chosen = setup::chosen(s, loss);
    let mut family = [0u64; WORDS];
    let mut minimal = [0u64; WORDS];
    let total = bases::both_families(s, s.graph, loss, target, chosen, &mut family, &mut minimal);
    let t = marking::mark_all(handed, chosen, &family, &minimal);
    let missing = total.saturating_sub(t.right);
    Marks {
        right: t.right,
        repeated: t.repeated,
        shut: t.shut,
        loose: t.loose,
        missing,
    }
}

fn mark(loss: bool, s: Setup, target: usize, handed: &[u64]) -> Result<Marks, Refusal>
    ensures { Fulfils (marks_call loss s target handed.now) (ends (marks_reply result) []) }
{
    let formed = formed::well_formed(s);
    questions::ask_target(formed, s.count, target)?;
    Ok(take_marks(loss, s, target, handed))
}

// Marks for sets handed in as the target's access base (document 01: openings).
pub fn mark_access(s: Setup, target: usize, handed: &[u64]) -> Result<Marks, Refusal>
    ensures { Fulfils (marks_call false s target handed.now) (ends (marks_reply result) []) }
{
    mark(false, s, target, handed)
}

// Marks for sets handed in as the target's lockout base (document 01: lockouts).
pub fn mark_lockout(s: Setup, target: usize, handed: &[u64]) -> Result<Marks, Refusal>
    ensures { Fulfils (marks_call true s target handed.now) (ends (marks_reply result) []) }
{
    mark(true, s, target, handed)
}

// The answers of all calls that demand 3 speaks of, on one setup and target.
#[derive(Drop)]
pub struct AllAnswers {
    pub bases: Result<Lengths, Refusal>,
    pub score: Result<SecurityScore, Refusal>,
    pub risk: Result<RecoverabilityScore, Refusal>,
    pub openings: Result<Marks, Refusal>,
    pub lockouts: Result<Marks, Refusal>,
}

// Demand 3, about the code: whatever these calls answer together is as the demand states.
pub fn demand_three(
    s: Setup,
    target: usize,
    out: &mut [u64],
    opened: &[u64],
    locked: &[u64],
) -> AllAnswers
    ensures { Demand3 s target out.old opened.now locked.now (ends (bases_reply result.bases) (out.new ∷ [])) (ends (score_reply result.score) []) (ends (risk_reply result.risk) []) (ends (marks_reply result.openings) []) (ends (marks_reply result.lockouts) []) }
{
    let bases = both_bases(s, target, out);
    let score = security_score(s, target);
    let risk = recoverability_score(s, target);
    let openings = mark_access(s, target, opened);
    let lockouts = mark_lockout(s, target, locked);
    AllAnswers {
        bases,
        score,
        risk,
        openings,
        lockouts,
    }
}
