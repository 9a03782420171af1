// The structs that C gets, and how answers become structs. The first field is the answer's number:
// 0, or that of the refusal. The fields behind the number have the answer's values, and 0 where
// there is no value.
ghost use Rattle.std.specs.Prelude.{[], ◌∷◌};
ghost use Rattle.questions.specs.Inner.{InStruct};
ghost use Rattle.access.specs.Answers.{closure_reply, lost_reply, way_reply};
ghost use Rattle.quick_yes.specs.Answers.{quick_reply};
ghost use Rattle.answers.specs.Answers.{bases_reply};
ghost use Rattle.forecasts.specs.Answers.{forecast_reply};
ghost use Rattle.next_sets.specs.Answers.{next_reply};
ghost use Rattle.cut_sets.specs.Answers.{cuts_reply};

use access::Opened;
use answers::Lengths;
use questions::Refusal;
use quick_yes::QuickAnswer;
use vertex_set::VertexSet;

#[repr(C)]
#[derive(Drop)]
pub struct ClosureResult {
    pub number: u64,
    pub set: u64,
    pub passes: u64,
}

impl From<Result<Opened, Refusal>> for ClosureResult {
    ghost from_gives = { λ answer r. InStruct (closure_reply answer) r.number (r.set ∷ r.passes ∷ []) };

    fn from(answer: Result<Opened, Refusal>) -> ClosureResult {
        match answer {
            Ok(opened) => ClosureResult {
                number: 0,
                set: opened.vertices.0,
                passes: opened.passes as u64,
            },
            Err(refusal) => ClosureResult {
                number: refusal.number(),
                set: 0,
                passes: 0,
            },
        }
    }
}

#[repr(C)]
#[derive(Drop)]
pub struct LostResult {
    pub number: u64,
    pub set: u64,
}

impl From<Result<VertexSet, Refusal>> for LostResult {
    ghost from_gives = { λ answer r. InStruct (lost_reply answer) r.number (r.set ∷ []) };

    fn from(answer: Result<VertexSet, Refusal>) -> LostResult {
        match answer {
            Ok(lost) => LostResult {
                number: 0,
                set: lost.0,
            },
            Err(refusal) => LostResult {
                number: refusal.number(),
                set: 0,
            },
        }
    }
}

#[repr(C)]
#[derive(Drop)]
pub struct WayInResult {
    pub number: u64,
    pub opens: u64,
    pub steps: u64,
}

impl From<Result<Option<usize>, Refusal>> for WayInResult {
    ghost from_gives = { λ answer r. InStruct (way_reply answer) r.number (r.opens ∷ r.steps ∷ []) };

    fn from(answer: Result<Option<usize>, Refusal>) -> WayInResult {
        match answer {
            Ok(Some(count)) => WayInResult {
                number: 0,
                opens: 1,
                steps: count as u64,
            },
            Ok(None) => WayInResult {
                number: 0,
                opens: 0,
                steps: 0,
            },
            Err(refusal) => WayInResult {
                number: refusal.number(),
                opens: 0,
                steps: 0,
            },
        }
    }
}

#[repr(C)]
#[derive(Drop)]
pub struct OpensResult {
    pub number: u64,
    pub opens: u64,
    pub set: u64,
}

impl From<Result<QuickAnswer, Refusal>> for OpensResult {
    ghost from_gives = { λ answer r. InStruct (quick_reply answer) r.number (r.opens ∷ r.set ∷ []) };

    fn from(answer: Result<QuickAnswer, Refusal>) -> OpensResult {
        match answer {
            Ok(quick) => OpensResult {
                number: 0,
                opens: u64::from(quick.yes),
                set: quick.held.0,
            },
            Err(refusal) => OpensResult {
                number: refusal.number(),
                opens: 0,
                set: 0,
            },
        }
    }
}

#[repr(C)]
#[derive(Drop)]
pub struct ListsResult {
    pub number: u64,
    pub openings: u64,
    pub lockouts: u64,
}

impl From<Result<Lengths, Refusal>> for ListsResult {
    ghost from_gives = { λ answer r. InStruct (bases_reply answer) r.number (r.openings ∷ r.lockouts ∷ []) };

    fn from(answer: Result<Lengths, Refusal>) -> ListsResult {
        match answer {
            Ok(lengths) => ListsResult {
                number: 0,
                openings: lengths.openings as u64,
                lockouts: lengths.lockouts as u64,
            },
            Err(refusal) => ListsResult {
                number: refusal.number(),
                openings: 0,
                lockouts: 0,
            },
        }
    }
}

#[repr(C)]
#[derive(Drop)]
pub struct ForecastResult {
    pub number: u64,
    pub sets: u64,
}

impl From<Result<u64, Refusal>> for ForecastResult {
    ghost from_gives = { λ answer r. InStruct (forecast_reply answer) r.number (r.sets ∷ []) };

    fn from(answer: Result<u64, Refusal>) -> ForecastResult {
        match answer {
            Ok(sets) => ForecastResult {
                number: 0,
                sets: sets,
            },
            Err(refusal) => ForecastResult {
                number: refusal.number(),
                sets: 0,
            },
        }
    }
}

#[repr(C)]
#[derive(Drop)]
pub struct NextOpeningResult {
    pub number: u64,
    pub more: u64,
    pub set: u64,
}

impl From<Result<Option<VertexSet>, Refusal>> for NextOpeningResult {
    ghost from_gives = { λ answer r. InStruct (next_reply answer) r.number (r.more ∷ r.set ∷ []) };

    fn from(answer: Result<Option<VertexSet>, Refusal>) -> NextOpeningResult {
        match answer {
            Ok(Some(set)) => NextOpeningResult {
                number: 0,
                more: 1,
                set: set.0,
            },
            Ok(None) => NextOpeningResult {
                number: 0,
                more: 0,
                set: 0,
            },
            Err(refusal) => NextOpeningResult {
                number: refusal.number(),
                more: 0,
                set: 0,
            },
        }
    }
}

#[repr(C)]
#[derive(Drop)]
pub struct CutSetsResult {
    pub number: u64,
    pub count: u64,
}

impl From<Result<usize, Refusal>> for CutSetsResult {
    ghost from_gives = { λ answer r. InStruct (cuts_reply answer) r.number (r.count ∷ []) };

    fn from(answer: Result<usize, Refusal>) -> CutSetsResult {
        match answer {
            Ok(count) => CutSetsResult {
                number: 0,
                count: count as u64,
            },
            Err(refusal) => CutSetsResult {
                number: refusal.number(),
                count: 0,
            },
        }
    }
}
