// A target's access base (document 01: its opening list), shown one set at a time while the setup
// may change between two calls: the first set after the last one shown.

#![tactic(auto)]

ghost use Rattle.std.specs.Prelude.{[], ◌<◌, false};
ghost use Rattle.vertex_set.specs.Set.{Within};
ghost use Rattle.formed.specs.WellFormed.{WellFormed};
ghost use Rattle.setup.specs.Setup.{ChosenSet};
ghost use Rattle.questions.specs.Contract.{gives, ends, Answers, Fulfils};
ghost use Rattle.next_sets.specs.Answers.{next_told, next_reply, next_call};

use families::WORDS;
use questions::Refusal;
use setup::Setup;
use vertex_set::VertexSet;

// The first set of the target's base after `last`, a set of initial vertices. It is found on the
// table of the base's sets: none of them is listed. Setup, target and sets are no struct: the call is
// offered with them, and `bases::base_family` takes them one by one.
fn find_next(s: Setup, target: usize, initial: VertexSet, last: VertexSet) -> Option<VertexSet>
    requires well_formed { WellFormed s }
    requires target_bound { target < 64 }
    requires chosen_set { ChosenSet false s initial.0 }
    requires within { Within last.0 initial.0 }
    ensures { Answers (next_call s target last.0) (ends (gives (next_told result)) []) }
{
    let mut base = [0u64; WORDS];
    let _ = bases::base_family(s, s.graph, false, target, initial, &mut base);
    let mask = families::mask_of(initial, last.0);
    let next = family_steps::next_member(&base, mask)?;
    Some(family_steps::set_of(initial, next))
}

// The first set of the target's access base that comes after the last one shown, in the setup as it
// is now; the empty set is given at the beginning, and there is none behind the last.
pub fn next_access_set(
    s: Setup,
    target: usize,
    last: VertexSet,
) -> Result<Option<VertexSet>, Refusal>
    ensures { Fulfils (next_call s target last.0) (ends (next_reply result) []) }
{
    let formed = formed::well_formed(s);
    questions::ask_target(formed, s.count, target)?;
    let initial = setup::chosen(s, false);
    if !last.within(initial) {
        return Err(Refusal::Stranger);
    }
    Ok(find_next(s, target, initial, last))
}
