// The shape of a contract (specs/), why a call gives no answer, and the questions that most calls ask
// first. A function copies what it is given by value, and a setup has
// 11 KB: so `formed` is the answer to question 12, and `count` is the setup's.

#![tactic(auto, unfolding(crate::specs::Asks::Asks))]

ghost use Rattle.std.specs.Prelude.{◌≡◌, [], ◌∷◌};
ghost use Rattle.vertex_set.specs.Set.{Decides};
ghost use Rattle.questions.specs.Refusals.{number};
ghost use Rattle.questions.specs.Inner.{FirstRefusal, answered12, below13, inside14};

use vertex_set::VertexSet;

// Why a call gives no answer: the first question that is answered no, by the papers' own number for it
// (document 01, "Questions, and the number for no"; document 02, points 1, 8, 9, 11 and 12).
#[derive(Clone, Copy, Debug, PartialEq, Eq)]
pub enum Refusal {
    // Of a sheet, and of a line of it:
    TooLong = 1,
    NoText,
    Header,
    Fields,
    Form,
    NameUsed,
    // Also of an edge that is added to a setup.
    Bound,
    NameUnknown,
    EdgeTwice,
    NoRows,
    NoEdgePart,
    // Of a call on a setup:
    NoSetup,
    NoItem,
    Outside,
    Short,
    KindsLength,
    NoKind,
    NoColour,
    EdgeThere,
    NoEdge,
    Stranger,
    // Of two sheets that are pooled:
    Disagree,
    PoolBound,
    PoolShort,
    // Of a call on the class register:
    Overfull,
    AllUsed,
    NoRecord,
}

impl Refusal {
    // The papers' number, from 1 to 27.
    pub fn number(self) -> u64
        ensures { result ≡ number self }
    {
        self as u64
    }
}

// Questions 12 and 13.
pub fn ask_target(formed: bool, count: usize, target: usize) -> Result<(), Refusal>
    ensures { FirstRefusal (answered12 formed ∷ below13 count target ∷ []) result }
{
    if !formed {
        return Err(Refusal::NoSetup);
    }
    if count <= target {
        return Err(Refusal::NoItem);
    }
    Ok(())
}

// Question 14: has the set only vertices below the count?
fn is_inside(count: usize, set: VertexSet) -> bool
    ensures { Decides (inside14 count set.0).Yes result }
{
    set.within(VertexSet::below(count))
}

// Questions 12 and 14.
pub fn ask_set(formed: bool, count: usize, set: VertexSet) -> Result<(), Refusal>
    ensures { FirstRefusal (answered12 formed ∷ inside14 count set.0 ∷ []) result }
{
    if !formed {
        return Err(Refusal::NoSetup);
    }
    if !is_inside(count, set) {
        return Err(Refusal::Outside);
    }
    Ok(())
}

// Questions 12, 13 and 14.
pub fn ask_way(formed: bool, count: usize, target: usize, set: VertexSet) -> Result<(), Refusal>
    ensures { FirstRefusal (answered12 formed ∷ below13 count target ∷ inside14 count set.0 ∷ []) result }
{
    ask_target(formed, count, target)?;
    ask_set(formed, count, set)
}
