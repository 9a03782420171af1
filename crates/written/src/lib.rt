// Numbers copied into a lent list from a place on. What it means that they are written there, and that
// a list is written part by part, stands in specs/, its laws in proofs/.

#![tactic(auto)]

ghost use Rattle.std.specs.Prelude.{◌+◌, ◌≤◌, length};
ghost use Rattle.written.specs.Inner.{Wrote};

// Writes the items from `at` on, and gives the next place. List and place stay two parameters: bytes are
// written by `writing::Pen`, which calls this, and a pen of words would serve `multiset_rows` alone.
pub fn put<T: Copy>(items: &[T], out: &mut [T], at: usize) -> usize
    requires { at + length items.now ≤ length out.old }
    ensures { Wrote out.old at items.now out.new result }
{
    // By index, and not `copy_from_slice`: that becomes `memmove` where list and items are not known to lie apart,
    // and the library for C asks for `memcpy` and `memset` alone.
    for i in 0..items.len() {
        out[at + i] = items[i];
    }
    at + items.len()
}
