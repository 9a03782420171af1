// Which starting items to harden so that no way to a target is left: its smallest cut sets. The
// table of all subsets says which sets of initial vertices open the target; a set is a cut set
// exactly if all other initial vertices do not.

#![tactic(auto)]

mod duals;

ghost use Rattle.std.specs.Prelude.{false, [], ◌∷◌};
ghost use Rattle.bases.specs.Inner.Readers.{CanList};
ghost use Rattle.questions.specs.Contract.{ends, Answers, Fulfils};
ghost use Rattle.cut_sets.specs.Answers.{cuts_reply, cuts_call};
ghost use Rattle.formed.specs.Inner.Answerable.{Answerable};
ghost use Rattle.cut_sets.specs.Inner.{CutFamily};

use families::WORDS;
use questions::Refusal;
use setup::Setup;
use vertex_set::VertexSet;

// The family of the target's smallest cut sets, and their number.
fn cut_family(s: Setup, target: usize, initial: VertexSet, out: &mut [u64; WORDS]) -> usize
    requires { CanList false s target initial.0 }
    ensures { CutFamily s target initial.0 out.new result }
{
    let mut opening = [0u64; WORDS];
    bases::family_of(s.graph, initial, false, target, &mut opening);
    duals::dual(&opening, out);
    families::keep_minimal(out);
    families::count_members(out)
}

// The smallest cut sets of a target of a well-formed setup. Their number is known before a set is
// written, so that a lent list which is too short stays as it was. Setup and target are no struct with
// `Answerable`: the call is offered with both, and `bases` takes both.
fn write_cuts(s: Setup, target: usize, out: &mut [u64]) -> Result<usize, Refusal>
    requires { Answerable s target }
    ensures { Answers (cuts_call s target out.old) (ends (cuts_reply result) (out.new ∷ [])) }
{
    let initial = setup::chosen(s, false);
    let mut cuts = [0u64; WORDS];
    let n = cut_family(s, target, initial, &mut cuts);
    if out.len() < n {
        return Err(Refusal::Short);
    }
    Ok(family_lists::write_sets(&cuts, initial, out))
}

// The smallest cut sets of the target, written to the front of a lent list.
pub fn smallest_cuts(s: Setup, target: usize, out: &mut [u64]) -> Result<usize, Refusal>
    ensures { Fulfils (cuts_call s target out.old) (ends (cuts_reply result) (out.new ∷ [])) }
{
    let formed = formed::well_formed(s);
    questions::ask_target(formed, s.count, target)?;
    write_cuts(s, target, out)
}
