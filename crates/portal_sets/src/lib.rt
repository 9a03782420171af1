// The portal's calls on a setup and its sets, for C: question 12, what a set opens, what a loss takes
// away, the way in, a quick yes, both lists, their forecast, the next set, and the cut sets.
// `results` has the structs. Their parameters are what C hands over.

#![tactic(auto)]

ghost use Rattle.std.specs.Prelude.{◌≡◌, [], ◌∷◌};
ghost use Rattle.questions.specs.Asks.{Asks};
ghost use Rattle.portal_sets.specs.Check.{asks_reached};
ghost use Rattle.questions.specs.Told.{Told};
ghost use Rattle.access.specs.Answers.{closure_call, lost_call, way_call};
ghost use Rattle.quick_yes.specs.Answers.{quick_call};
ghost use Rattle.answers.specs.Answers.{bases_call};
ghost use Rattle.forecasts.specs.Answers.{forecast_call};
ghost use Rattle.next_sets.specs.Answers.{next_call};
ghost use Rattle.cut_sets.specs.Answers.{cuts_call};
ghost use Rattle.portal_words.specs.Words.{setup_in};

use questions::Refusal;
use results::{
    ClosureResult, CutSetsResult, ForecastResult, ListsResult, LostResult, NextOpeningResult,
    OpensResult, WayInResult,
};
use vertex_set::VertexSet;

pub mod results;

// Question 12: 0 for yes, and 12 for no. The test is the one that every call makes.
#[unsafe(no_mangle)]
pub extern "C" fn portal_check(setup: &[u64]) -> u64
    ensures { Asks (λ q. q) (asks_reached (setup_in setup.now) ∷ []) (λ n. n ≡ 0) result }
{
    let s = portal_words::setup_in(setup);
    if formed::well_formed(s) {
        return 0;
    }
    Refusal::NoSetup.number()
}

// What the set opens (document 01: its closure), and the number of passes (document 02, point 4).
#[unsafe(no_mangle)]
pub extern "C" fn portal_closure(setup: &[u64], set: u64) -> ClosureResult
    ensures { Told (closure_call (setup_in setup.now) set) result.number (result.set ∷ result.passes ∷ []) [] }
{
    let s = portal_words::setup_in(setup);
    let answer = access::access_from(s, VertexSet(set));
    ClosureResult::from(answer)
}

// What the loss of the set takes away (document 01: its lost set).
#[unsafe(no_mangle)]
pub extern "C" fn portal_lost(setup: &[u64], set: u64) -> LostResult
    ensures { Told (lost_call (setup_in setup.now) set) result.number (result.set ∷ []) [] }
{
    let s = portal_words::setup_in(setup);
    let answer = access::lockout_from(s, VertexSet(set));
    LostResult::from(answer)
}

// The way in: its items go to one list and its colours to the other.
#[unsafe(no_mangle)]
pub extern "C" fn portal_way_in(
    setup: &[u64],
    target: u64,
    set: u64,
    items: &mut [u8],
    colours: &mut [u8],
) -> WayInResult
    ensures { Told (way_call (setup_in setup.now) target set items.old colours.old) result.number (result.opens ∷ result.steps ∷ []) (items.new ∷ colours.new ∷ []) }
{
    let s = portal_words::setup_in(setup);
    let answer = access::access_derivation(s, target as usize, VertexSet(set), items, colours);
    WayInResult::from(answer)
}

// Whether the set opens the target, and what is held at the stop (document 02, point 2).
#[unsafe(no_mangle)]
pub extern "C" fn portal_opens(setup: &[u64], target: u64, set: u64) -> OpensResult
    ensures { Told (quick_call (setup_in setup.now) target set) result.number (result.opens ∷ result.set ∷ []) [] }
{
    let s = portal_words::setup_in(setup);
    let answer = quick_yes::opens(s, target as usize, VertexSet(set));
    OpensResult::from(answer)
}

// The opening list and then the lockout list, in one lent list.
#[unsafe(no_mangle)]
pub extern "C" fn portal_lists(setup: &[u64], target: u64, sets: &mut [u64]) -> ListsResult
    ensures { Told (bases_call (setup_in setup.now) target sets.old) result.number (result.openings ∷ result.lockouts ∷ []) (sets.new ∷ []) }
{
    let s = portal_words::setup_in(setup);
    let answer = answers::both_bases(s, target as usize, sets);
    ListsResult::from(answer)
}

// The number of sets that the target's opening list has at most.
#[unsafe(no_mangle)]
pub extern "C" fn portal_forecast(setup: &[u64], target: u64) -> ForecastResult
    ensures { Told (forecast_call (setup_in setup.now) target) result.number (result.sets ∷ []) [] }
{
    let s = portal_words::setup_in(setup);
    let answer = forecasts::forecast_base(s, target as usize);
    ForecastResult::from(answer)
}

// The first set of the target's opening list after the last one shown, in the setup as it now is.
#[unsafe(no_mangle)]
pub extern "C" fn portal_next_opening(setup: &[u64], target: u64, last: u64) -> NextOpeningResult
    ensures { Told (next_call (setup_in setup.now) target last) result.number (result.more ∷ result.set ∷ []) [] }
{
    let s = portal_words::setup_in(setup);
    let answer = next_sets::next_access_set(s, target as usize, VertexSet(last));
    NextOpeningResult::from(answer)
}

// The smallest cut sets of the target, in a lent list.
#[unsafe(no_mangle)]
pub extern "C" fn portal_cut_sets(setup: &[u64], target: u64, sets: &mut [u64]) -> CutSetsResult
    ensures { Told (cuts_call (setup_in setup.now) target sets.old) result.number (result.count ∷ []) (sets.new ∷ []) }
{
    let s = portal_words::setup_in(setup);
    let answer = cut_sets::smallest_cuts(s, target as usize, sets);
    CutSetsResult::from(answer)
}
