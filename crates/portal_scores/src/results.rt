// The structs that C gets, and how answers become structs. The first field is the answer's number:
// 0, or that of the refusal. The fields behind the number have the answer's values, and 0 where
// there is no value.
ghost use Rattle.std.specs.Prelude.{[], ◌∷◌};
ghost use Rattle.questions.specs.Inner.{InStruct};
ghost use Rattle.answers.specs.Answers.{score_reply, risk_reply, marks_reply};
ghost use Rattle.findings.specs.Answers.{finding_reply};
ghost use Rattle.attackers.specs.Answers.{attacker_reply};
ghost use Rattle.multiset_scores.specs.Answers.{bags_reply};

use answers::Marks;
use questions::Refusal;
use scores::{RecoverabilityScore, SecurityScore};

// Score and risk have a struct each, as they have a type each: they are never added or compared.
#[repr(C)]
#[derive(Drop)]
pub struct SetupScoreResult {
    pub number: u64,
    pub score: u64,
}

impl From<Result<SecurityScore, Refusal>> for SetupScoreResult {
    ghost from_gives = { λ answer r. InStruct (score_reply answer) r.number (r.score ∷ []) };

    fn from(answer: Result<SecurityScore, Refusal>) -> SetupScoreResult {
        match answer {
            Ok(score) => SetupScoreResult {
                number: 0,
                score: score.number(),
            },
            Err(refusal) => SetupScoreResult {
                number: refusal.number(),
                score: 0,
            },
        }
    }
}

#[repr(C)]
#[derive(Drop)]
pub struct SetupRiskResult {
    pub number: u64,
    pub risk: u64,
}

impl From<Result<RecoverabilityScore, Refusal>> for SetupRiskResult {
    ghost from_gives = { λ answer r. InStruct (risk_reply answer) r.number (r.risk ∷ []) };

    fn from(answer: Result<RecoverabilityScore, Refusal>) -> SetupRiskResult {
        match answer {
            Ok(risk) => SetupRiskResult {
                number: 0,
                risk: risk.number(),
            },
            Err(refusal) => SetupRiskResult {
                number: refusal.number(),
                risk: 0,
            },
        }
    }
}

#[repr(C)]
#[derive(Drop)]
pub struct MarksResult {
    pub number: u64,
    pub right: u64,
    pub repeated: u64,
    pub shut: u64,
    pub loose: u64,
    pub missing: u64,
}

impl From<Result<Marks, Refusal>> for MarksResult {
    ghost from_gives = { λ answer r. InStruct (marks_reply answer) r.number (r.right ∷ r.repeated ∷ r.shut ∷ r.loose ∷ r.missing ∷ []) };

    fn from(answer: Result<Marks, Refusal>) -> MarksResult {
        match answer {
            Ok(marks) => MarksResult {
                number: 0,
                right: marks.right as u64,
                repeated: marks.repeated as u64,
                shut: marks.shut as u64,
                loose: marks.loose as u64,
                missing: marks.missing as u64,
            },
            Err(refusal) => MarksResult {
                number: refusal.number(),
                right: 0,
                repeated: 0,
                shut: 0,
                loose: 0,
                missing: 0,
            },
        }
    }
}

#[repr(C)]
#[derive(Drop)]
pub struct FindingResult {
    pub number: u64,
    pub yes: u64,
}

impl From<Result<bool, Refusal>> for FindingResult {
    ghost from_gives = { λ answer r. InStruct (finding_reply answer) r.number (r.yes ∷ []) };

    fn from(answer: Result<bool, Refusal>) -> FindingResult {
        match answer {
            Ok(yes) => FindingResult {
                number: 0,
                yes: u64::from(yes),
            },
            Err(refusal) => FindingResult {
                number: refusal.number(),
                yes: 0,
            },
        }
    }
}

#[repr(C)]
#[derive(Drop)]
pub struct KindsResult {
    pub number: u64,
    pub kinds: u64,
}

impl From<Result<u64, Refusal>> for KindsResult {
    ghost from_gives = { λ answer r. InStruct (attacker_reply answer) r.number (r.kinds ∷ []) };

    fn from(answer: Result<u64, Refusal>) -> KindsResult {
        match answer {
            Ok(kinds) => KindsResult {
                number: 0,
                kinds: kinds,
            },
            Err(refusal) => KindsResult {
                number: refusal.number(),
                kinds: 0,
            },
        }
    }
}

#[repr(C)]
#[derive(Drop)]
pub struct BagScoreResult {
    pub number: u64,
    pub bags: u64,
}

impl From<Result<usize, Refusal>> for BagScoreResult {
    ghost from_gives = { λ answer r. InStruct (bags_reply answer) r.number (r.bags ∷ []) };

    fn from(answer: Result<usize, Refusal>) -> BagScoreResult {
        match answer {
            Ok(bags) => BagScoreResult {
                number: 0,
                bags: bags as u64,
            },
            Err(refusal) => BagScoreResult {
                number: refusal.number(),
                bags: 0,
            },
        }
    }
}
