// The portal's calls on a setup that lives, for C: they change the setup in its buffer. Their
// parameters are what C hands over.

#![tactic(auto)]

ghost use Rattle.std.specs.Prelude.{◌≡◌, [], ◌∷◌, ◌≤◌, length, IfOk, OnErr};
ghost use Rattle.questions.specs.Told.{Told};
ghost use Rattle.living.specs.Calls.{TakeIn, TakeOut, AddEdge, RemoveEdge};
ghost use Rattle.portal_living.specs.Living.{living_call};
ghost use Rattle.setup.specs.Calls.{written};
ghost use Rattle.questions.specs.Inner.{asked};
ghost use Rattle.portal_words.specs.Words.{setup_words, words_of};

use questions::Refusal;
use setup::Setup;

// Puts the setup back into its buffer where the call was accepted, and gives the call's number. A
// buffer that is too short says no setup, and so no call on it is accepted.
fn put_back(redrawing: Result<Setup, Refusal>, setup: &mut [u64]) -> u64
    requires { IfOk redrawing (λ _. setup_words ≤ length setup.old) }
    ensures number { result ≡ asked redrawing }
    ensures accepted { IfOk redrawing (λ s. setup.new ≡ written (words_of s) setup.old) }
    ensures refused { OnErr redrawing (setup.new ≡ setup.old) }
{
    match redrawing {
        Ok(s) => {
            portal_words::put_setup(s, setup, 0);
            0
        }
        Err(refusal) => refusal.number(),
    }
}

// Takes an item into the held set.
#[unsafe(no_mangle)]
pub extern "C" fn portal_take_in(setup: &mut [u64], item: u64) -> u64
    ensures { Told (living_call (TakeIn item) setup.old) result [] (setup.new ∷ []) }
{
    let s = portal_words::setup_in(setup);
    let redrawing = living::take_in(s, item as usize);
    put_back(redrawing, setup)
}

// Takes an item out of the held set.
#[unsafe(no_mangle)]
pub extern "C" fn portal_take_out(setup: &mut [u64], item: u64) -> u64
    ensures { Told (living_call (TakeOut item) setup.old) result [] (setup.new ∷ []) }
{
    let s = portal_words::setup_in(setup);
    let redrawing = living::take_out(s, item as usize);
    put_back(redrawing, setup)
}

// Adds an edge, and a yes for `recovery` marks it as a recovery edge.
#[unsafe(no_mangle)]
pub extern "C" fn portal_add_edge(
    setup: &mut [u64],
    from: u64,
    to: u64,
    colour: u64,
    recovery: bool,
) -> u64
    ensures { Told (living_call (AddEdge from to colour recovery) setup.old) result [] (setup.new ∷ []) }
{
    let s = portal_words::setup_in(setup);
    let redrawing = living::add_edge(s, from as usize, to as usize, colour as usize, recovery);
    put_back(redrawing, setup)
}

// Removes an edge, whether it is a recovery edge or not.
#[unsafe(no_mangle)]
pub extern "C" fn portal_remove_edge(setup: &mut [u64], from: u64, to: u64, colour: u64) -> u64
    ensures { Told (living_call (RemoveEdge from to colour) setup.old) result [] (setup.new ∷ []) }
{
    let s = portal_words::setup_in(setup);
    let redrawing = living::remove_edge(s, from as usize, to as usize, colour as usize);
    put_back(redrawing, setup)
}
