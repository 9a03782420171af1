// The lowest of a list of sets, by two keys each: the sets are gone through in order, and those kept are
// at each time the lowest of all that were seen, of equal ones the first. So each set of a long list is
// compared only with those kept so far, at most twice with each.
//
// The keys stand in a list beside that of the sets, and the two go by one index: the sets are numbers in a
// list that is lent.

#![tactic(auto)]

ghost use Rattle.std.specs.Prelude.{◌<◌, ◌≤◌, length};
ghost use Rattle.vertex_set.specs.Set.{Decides};
ghost use Rattle.multiset_fronts.specs.Inner.{firsts, seconds, SomeBelow, Dropped, SetTakenIn, CanKeep, KeptLowest};

use antichains::MOST_SETS;
use keys::Keys;
use sums::MaskSums;

pub mod keys;

// Are one set's keys at most the new ones?
fn some_below(kept: &[Keys], new: Keys) -> bool
    ensures { Decides (SomeBelow (firsts kept.now) (seconds kept.now) (length kept.now) new.first new.second) result }
{
    for keys in kept {
        if keys.at_most(new) {
            return true;
        }
    }
    false
}

// Of the first n sets drops those whose keys are at or above the new ones, and gives the count of those
// left. A set is written to the next free place before it is known to stay; where it does not, the
// next one is written there. The sets, their keys and n are no struct: the sets are lent by the caller,
// and go on behind the first n.
fn drop_above(kept: &mut [u64], keys: &mut [Keys], n: usize, new: Keys) -> usize
    requires { (n ≤ length kept.old) × (n ≤ length keys.old) }
    ensures { Dropped kept.old (firsts keys.old) (seconds keys.old) kept.new (firsts keys.new) (seconds keys.new) n new.first new.second result }
{
    let mut left: usize = 0;
    // By index, since what stays moves within the same lists.
    for i in 0..n {
        let next = keys[i];
        kept[left] = kept[i];
        keys[left] = next;
        if new.at_most(next) {
            continue;
        }
        left += 1;
    }
    left
}

// Takes in the set x with the new keys, if none of the first n sets is at most it: those that x is at
// most go, and x comes behind the others. Gives the count of the sets that are kept.
fn take_in(kept: &mut [u64], keys: &mut [Keys], n: usize, x: u64, new: Keys) -> usize
    requires { (n < length kept.old) × (n < length keys.old) }
    ensures { SetTakenIn kept.old (firsts keys.old) (seconds keys.old) kept.new (firsts keys.new) (seconds keys.new) n x new.first new.second result }
{
    if some_below(&keys[..n], new) {
        return n;
    }
    let left = drop_above(kept, keys, n, new);
    kept[left] = x;
    keys[left] = new;
    left + 1
}

// Keeps of the first n masks of the list those of the lowest sets, at its front, and gives their
// count. The sums give each mask's two keys. No more are kept than were seen, so that no mask is
// overwritten before it is looked at.
pub fn keep_lowest(list: &mut [u64], n: usize, firsts: &MaskSums, seconds: &MaskSums) -> usize
    requires { CanKeep list.old n firsts.now.low firsts.now.high seconds.now.low seconds.now.high }
    ensures { KeptLowest list.old n firsts.now.low firsts.now.high seconds.now.low seconds.now.high list.new result }
{
    let none = Keys {
        first: 0,
        second: 0,
    };
    let mut keys = [none; MOST_SETS];
    let mut count: usize = 0;
    // By index, since the masks that stay move within the same list.
    for i in 0..n {
        let x = list[i];
        let a = firsts.at(x as usize);
        let b = seconds.at(x as usize);
        let new = Keys {
            first: a,
            second: b,
        };
        count = take_in(list, &mut keys, count, x, new);
    }
    count
}
