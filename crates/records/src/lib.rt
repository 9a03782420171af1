// Records of attempts, and what a call on the register does with a lent slice of them. All that the
// register's calls decide is decided here.

#![tactic(auto)]

ghost use Rattle.std.specs.Prelude.{◌≡◌, [], ◌≤◌, length};
ghost use Rattle.questions.specs.Contract.{ends, Fulfils};
ghost use Rattle.answers.specs.Answers.{marks_reply, marks_call};
ghost use Rattle.records.specs.Records.{same_three};
ghost use Rattle.records.specs.Inner.{registered, hand_in, withdraw, outcome_of, Leaves, Attempts};

use answers::Marks;
use questions::Refusal;
use setup::Setup;

// An attempt as the register keeps it. All fields are plain numbers, since a lent slice may hold any
// bytes: the way is 0 for open and 1 for lock, and a record with another way is none that a hand-in
// makes or replaces.
#[repr(C)]
#[derive(Clone, Copy)]
pub struct Record {
    pub student: u64,
    pub target: u64,
    pub way: u64,
    pub right: u64,
    pub repeated: u64,
    pub shut: u64,
    pub loose: u64,
    pub missing: u64,
}

// What a call on the register answers: a refusal's number or 0, and how many records are used. It is
// the struct that C gets.
#[repr(C)]
#[derive(Drop)]
pub struct Registered {
    pub number: u64,
    pub used: usize,
}

// What a call asks of the register.
#[derive(Clone, Copy)]
pub enum Task {
    // Nothing: the call is refused by this number, which may be any, before it comes to the register.
    Refuse(u64),
    // To remove the records of a student.
    Withdraw(u64),
    // To lay down a record.
    HandIn(Record),
}

// Have the two the same student, target and way?
// No derive: three of the eight fields are compared.
#[tactic(auto, unfolding(crate::specs::Records::same_three))]
fn same(r: &Record, n: &Record) -> bool
    ensures { result ≡ same_three r.now n.now }
{
    r.student == n.student && r.target == n.target && r.way == n.way
}

// The new record takes the place of the first one with the same student, target and way or, where there
// is none, the place behind the used ones. How many are used then. The slice and the count are no struct:
// C hands them over one by one, and the record may go behind the part that is used.
fn lay(records: &mut [Record], used: usize, new: Record) -> Result<usize, Refusal>
    requires { used ≤ length records.old }
    ensures { Leaves (registered used result) records.new (hand_in records.old used new) }
{
    let place = records[..used]
        .iter()
        .position(|r| same(r, &new))
        .unwrap_or(used);
    if place == records.len() {
        return Err(Refusal::AllUsed);
    }
    records[place] = new;
    Ok(used.max(place + 1))
}

// Removes the records of the student; the others move up, in order. How many are left. Where there was
// none, each was stored where it stood.
fn remove(records: &mut [Record], used: usize, student: u64) -> Result<usize, Refusal>
    requires { used ≤ length records.old }
    ensures { Leaves (registered used result) records.new (withdraw records.old used student) }
{
    let mut kept = 0;
    // By index, since the records move within one slice.
    for i in 0..used {
        let r = records[i];
        if r.student != student {
            records[kept] = r;
            kept += 1;
        }
    }
    if kept == used {
        return Err(Refusal::NoRecord);
    }
    Ok(kept)
}

// How many records are used now, or why not, told as C gets it: a refusal leaves the count as it was.
fn tell(used: usize, done: Result<usize, Refusal>) -> Registered
    ensures { result ≡ registered used done }
{
    match done {
        Ok(used) => Registered { number: 0, used },
        Err(refusal) => Registered {
            number: refusal.number(),
            used,
        },
    }
}

// Does what the task asks; 25 comes before the number that the task is refused by. A refusal leaves the
// slice and the count as they were.
pub fn apply(records: &mut [Record], used: usize, task: Task) -> Registered
    ensures { Leaves result records.new (outcome_of records.old used task) }
{
    if records.len() < used {
        return tell(used, Err(Refusal::Overfull));
    }
    match task {
        Task::Refuse(number) => Registered { number, used },
        Task::Withdraw(student) => tell(used, remove(records, used, student)),
        Task::HandIn(new) => tell(used, lay(records, used, new)),
    }
}

// The marks of sets that are handed in for one way of the target. `attempt`, which is offered, has these
// parameters, and `mark` alone takes them from it.
fn mark(s: Setup, target: usize, loss: bool, handed: &[u64]) -> Result<Marks, Refusal>
    ensures { Fulfils (marks_call loss s target handed.now) (ends (marks_reply result) []) }
{
    if loss {
        return answers::mark_lockout(s, target, handed);
    }
    answers::mark_access(s, target, handed)
}

// The task of a hand-in: the sets are marked.
pub fn attempt(s: Setup, student: u64, target: u64, loss: bool, handed: &[u64]) -> Task
    ensures { Attempts s student target loss handed.now result }
{
    match mark(s, target as usize, loss, handed) {
        Ok(m) => Task::HandIn(Record {
            student,
            target,
            way: u64::from(loss),
            right: m.right as u64,
            repeated: m.repeated as u64,
            shut: m.shut as u64,
            loose: m.loose as u64,
            missing: m.missing as u64,
        }),
        Err(refusal) => Task::Refuse(refusal.number()),
    }
}
