// The portal's calls for scores, for C: score and risk, marks of a handed-in list, findings on recovery
// and ranks, kinds of intruder, and bags of values. `results` has the structs. Their
// parameters are what C hands over.

#![tactic(auto)]

ghost use Rattle.std.specs.Prelude.{true, false, [], ◌∷◌};
ghost use Rattle.vertex_set.specs.Set.{Decides};
ghost use Rattle.questions.specs.Told.{Told};
ghost use Rattle.answers.specs.Answers.{score_call, marks_call};
ghost use Rattle.findings.specs.Answers.{backdoor_call, ineffective_call, inconsistent_call};
ghost use Rattle.attackers.specs.Answers.{attacker_call};
ghost use Rattle.multisets.specs.Multisets.{BagAtMost};
ghost use Rattle.multiset_scores.specs.Answers.{bags_call};
ghost use Rattle.portal_words.specs.Words.{setup_in};

use results::{
    BagScoreResult, FindingResult, KindsResult, MarksResult, SetupRiskResult, SetupScoreResult,
};

pub mod results;

// The security score of the target (document 01: its score), 2^62 for "never".
#[unsafe(no_mangle)]
pub extern "C" fn portal_setup_score(setup: &[u64], target: u64) -> SetupScoreResult
    ensures { Told (score_call false (setup_in setup.now) target) result.number (result.score ∷ []) [] }
{
    let s = portal_words::setup_in(setup);
    let answer = answers::security_score(s, target as usize);
    SetupScoreResult::from(answer)
}

// The recoverability score of the target (document 01: its risk), 2^62 for "never".
#[unsafe(no_mangle)]
pub extern "C" fn portal_setup_risk(setup: &[u64], target: u64) -> SetupRiskResult
    ensures { Told (score_call true (setup_in setup.now) target) result.number (result.risk ∷ []) [] }
{
    let s = portal_words::setup_in(setup);
    let answer = answers::recoverability_score(s, target as usize);
    SetupRiskResult::from(answer)
}

// Marks for sets handed in as the target's opening list.
#[unsafe(no_mangle)]
pub extern "C" fn portal_mark_openings(setup: &[u64], target: u64, sets: &[u64]) -> MarksResult
    ensures { Told (marks_call false (setup_in setup.now) target sets.now) result.number (result.right ∷ result.repeated ∷ result.shut ∷ result.loose ∷ result.missing ∷ []) [] }
{
    let s = portal_words::setup_in(setup);
    let answer = answers::mark_access(s, target as usize, sets);
    MarksResult::from(answer)
}

// Marks for sets handed in as the target's lockout list.
#[unsafe(no_mangle)]
pub extern "C" fn portal_mark_lockouts(setup: &[u64], target: u64, sets: &[u64]) -> MarksResult
    ensures { Told (marks_call true (setup_in setup.now) target sets.now) result.number (result.right ∷ result.repeated ∷ result.shut ∷ result.loose ∷ result.missing ∷ []) [] }
{
    let s = portal_words::setup_in(setup);
    let answer = answers::mark_lockout(s, target as usize, sets);
    MarksResult::from(answer)
}

// Is recovery a backdoor to the item?
#[unsafe(no_mangle)]
pub extern "C" fn portal_backdoor(setup: &[u64], item: u64) -> FindingResult
    ensures { Told (backdoor_call (setup_in setup.now) item) result.number (result.yes ∷ []) [] }
{
    let s = portal_words::setup_in(setup);
    let answer = findings::has_backdoor(s, item as usize);
    FindingResult::from(answer)
}

// Is the item's recovery idle?
#[unsafe(no_mangle)]
pub extern "C" fn portal_idle(setup: &[u64], item: u64) -> FindingResult
    ensures { Told (ineffective_call (setup_in setup.now) item) result.number (result.yes ∷ []) [] }
{
    let s = portal_words::setup_in(setup);
    let answer = findings::ineffective_recovery(s, item as usize);
    FindingResult::from(answer)
}

// Are the two items, in this order, out of rank?
#[unsafe(no_mangle)]
pub extern "C" fn portal_out_of_rank(setup: &[u64], above: u64, below: u64) -> FindingResult
    ensures { Told (inconsistent_call (setup_in setup.now) above below) result.number (result.yes ∷ []) [] }
{
    let s = portal_words::setup_in(setup);
    let answer = findings::inconsistent(s, above as usize, below as usize);
    FindingResult::from(answer)
}

// The target's score by kinds of intruder, where `kinds` has one for each item.
#[unsafe(no_mangle)]
pub extern "C" fn portal_kinds(setup: &[u64], target: u64, kinds: &[u8]) -> KindsResult
    ensures { Told (attacker_call (setup_in setup.now) target kinds.now) result.number (result.kinds ∷ []) [] }
{
    let s = portal_words::setup_in(setup);
    let answer = attackers::attacker_score(s, target as usize, kinds);
    KindsResult::from(answer)
}

// Are both lists bags, and is the first at most the second?
#[unsafe(no_mangle)]
pub extern "C" fn portal_bag_at_most(bag: &[u64], other: &[u64]) -> bool
    ensures { Decides (BagAtMost bag.now other.now) result }
{
    multisets::multiset_at_most(bag, other)
}

// The target's bag score, in two lent lists.
#[unsafe(no_mangle)]
pub extern "C" fn portal_bag_score(
    setup: &[u64],
    target: u64,
    values: &mut [u64],
    lengths: &mut [u64],
) -> BagScoreResult
    ensures { Told (bags_call (setup_in setup.now) target values.old lengths.old) result.number (result.bags ∷ []) (values.new ∷ lengths.new ∷ []) }
{
    let s = portal_words::setup_in(setup);
    let answer = multiset_scores::multiset_score(s, target as usize, values, lengths);
    BagScoreResult::from(answer)
}
