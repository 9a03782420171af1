// Scores that keep their parts: of the multisets of start values that the sets of an access base have,
// those to which no different one is at most (document 02, point 6: the bag score).

#![tactic(auto)]

ghost use Rattle.std.specs.Prelude.{◌≡◌, [], ◌∷◌, ◌≤◌, length};
ghost use Rattle.std.specs.Int.Count.{ones};
ghost use Rattle.setup.specs.Bounds.{most_chosen};
ghost use Rattle.formed.specs.Inner.Answerable.{Answerable};
ghost use Rattle.questions.specs.Contract.{ends, Answers, Fulfils};
ghost use Rattle.multiset_scores.specs.Answers.{bags_reply, bags_call};
ghost use Rattle.multiset_scores.specs.Inner.{BothKeys, CanCompare, ComparedLowest, SetsInPlace, CanFind, ScoreFound};

use antichains::MOST_SETS;
use families::WORDS;
use multisets::MOST_VALUES;
use questions::Refusal;
use setup::Setup;
use vertex_set::VertexSet;

// The set of the vertices 0 to 13: over it each mask stands for itself.
const ALL_PLACES: u64 = 0x3FFF;

// Keeps of the first n masks those of the lowest sets. Two keys tell them: sets are compared at the
// values of all initial vertices, seven in each key.
fn lowest_of(kept: &mut [u64], n: usize, initial: VertexSet, points: [u64; 64]) -> usize
    requires { CanCompare kept.old n initial.0 }
    ensures { ComparedLowest kept.old n initial.0 points kept.new result }
{
    let thresholds = sums::weights_of(initial, points);
    let firsts = multiset_keys::mask_keys(initial, points, &thresholds[0..7]);
    let seconds = multiset_keys::mask_keys(initial, points, &thresholds[7..14]);
    multiset_fronts::keep_lowest(kept, n, &firsts, &seconds)
}

// In the place of each of the first n masks puts the set that it stands for.
fn name_sets(kept: &mut [u64], n: usize, initial: VertexSet)
    requires { n ≤ length kept.old }
    ensures { SetsInPlace initial.0 kept.old n kept.new }
{
    for mask in kept[..n].iter_mut() {
        *mask = family_steps::set_of(initial, *mask as usize).0;
    }
}

// Writes the sets of the target's score to the front of `kept`, and gives their count: the masks of the
// access base's sets are listed in order, those of the lowest kept, and their sets put in their places.
fn find_score(
    s: Setup,
    target: usize,
    initial: VertexSet,
    points: [u64; 64],
    kept: &mut [u64],
) -> usize
    requires { CanFind s target initial.0 points kept.old }
    ensures { ScoreFound s target kept.new result }
{
    let mut base = [0u64; WORDS];
    let _ = bases::base_family(s, s.graph, false, target, initial, &mut base);
    let n = family_lists::write_sets(&base, VertexSet(ALL_PLACES), kept);
    let left = lowest_of(kept, n, initial, points);
    name_sets(kept, left, initial);
    left
}

// Setup and target are no struct that has them and `Answerable`, which is asked for once here: the call is
// offered with both, and `bases::base_family` takes both.

// The score of a target of a well-formed setup. Its number of multisets is known before a place is
// written, so that lent lists of which one is too short stay as they were.
fn write_score(
    s: Setup,
    target: usize,
    places: &mut [u64],
    lengths: &mut [u64],
) -> Result<usize, Refusal>
    requires { Answerable s target }
    ensures { Answers (bags_call s target places.old lengths.old) (ends (bags_reply result) (places.new ∷ lengths.new ∷ [])) }
{
    let initial = setup::chosen(s, false);
    let points = bases::values_of(s, false);
    let mut kept = [0u64; MOST_SETS];
    let n = find_score(s, target, initial, points, &mut kept);
    if lengths.len() < n {
        return Err(Refusal::Short);
    }
    if places.len() < MOST_VALUES * n {
        return Err(Refusal::Short);
    }
    let sets = &kept[..n];
    let _ = multiset_rows::write_rows(sets, points, places);
    Ok(multiset_rows::write_lengths(sets, lengths))
}

// The target's score, each multiset in 14 places of the one lent list, its length in the other.
pub fn multiset_score(
    s: Setup,
    target: usize,
    places: &mut [u64],
    lengths: &mut [u64],
) -> Result<usize, Refusal>
    ensures { Fulfils (bags_call s target places.old lengths.old) (ends (bags_reply result) (places.new ∷ lengths.new ∷ [])) }
{
    let formed = formed::well_formed(s);
    questions::ask_target(formed, s.count, target)?;
    write_score(s, target, places, lengths)
}
