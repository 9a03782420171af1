// Multisets of numbers (document 02, point 6: bags; document 003, 4.3): is one at most another? Two
// are compared by counts at thresholds, and not place by place, so that the order of writing does not
// matter, and 0 is a value like any other.

#![tactic(auto)]

ghost use Rattle.std.specs.Prelude.{◌≡◌};
ghost use Rattle.vertex_set.specs.Set.{Decides};
ghost use Rattle.multisets.specs.Multisets.{BagAtMost};
ghost use Rattle.multisets.specs.Meaning.{at_least};
ghost use Rattle.multisets.specs.Inner.{FewerThan};

// A bag has at most 14 values (document 02, point 6).
pub const MOST_VALUES: usize = 14;

// How many values of the list are at least t.
fn count_at_least(list: &[u64], t: u64) -> usize
    ensures { result ≡ at_least list.now t }
{
    let mut n: usize = 0;
    // A loop, and no `filter` with `count`: a comparison of two bags took 2.5 times as long by these.
    for x in list {
        if t <= *x {
            n += 1;
        }
    }
    n
}

// Has a, at every threshold, no more values at or above it than b? The values of a are thresholds
// enough: above one and up to the next the count in a stays the same, and that in b never rises.
fn is_fewer(a: &[u64], b: &[u64]) -> bool
    ensures { Decides (FewerThan a.now b.now) result }
{
    a.iter()
        .all(|t| count_at_least(a, *t) <= count_at_least(b, *t))
}

// Are both lists bags, and is a at most b: can the values of a be paired, one to one, with values
// of b that are at least as high?
pub fn multiset_at_most(a: &[u64], b: &[u64]) -> bool
    ensures { Decides (BagAtMost a.now b.now) result }
{
    a.len() <= MOST_VALUES && b.len() <= MOST_VALUES && is_fewer(a, b)
}
