// The class register: attempts in a lent slice of records. What goes where is decided in the crate
// `records`.

#![tactic(auto)]

ghost use Rattle.register.specs.Calls.{HandInCall, WithdrawCall};

use records::{Record, Registered, Task};
use setup::Setup;

// Hands in sets as a student's attempt at one way of the target: `loss` is false for its opening
// sets, and true for its lockout sets. Its parameters are those of `portal_hand_in`, which C calls.
pub fn hand_in(
    records: &mut [Record],
    used: usize,
    s: Setup,
    student: u64,
    target: u64,
    loss: bool,
    handed: &[u64],
) -> Registered
    ensures { HandInCall s used student target loss handed.now result records.old records.new }
{
    let task = records::attempt(s, student, target, loss, handed);
    records::apply(records, used, task)
}

// Withdraws a student. Its parameters are those of `portal_withdraw`.
pub fn withdraw(records: &mut [Record], used: usize, student: u64) -> Registered
    ensures { WithdrawCall used student result records.old records.new }
{
    records::apply(records, used, Task::Withdraw(student))
}
