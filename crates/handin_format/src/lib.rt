// Hand-ins by name: what a hand-in line says, and why a text is not read. The definitions stand in specs/, the
// theorems on them in proofs/.

#![tactic(auto)]

use questions::Refusal;
use sheet_format::SheetRefusal;

// A hand-in: `count` sets, as the target's opening list, or with `loss` as its lockout list.
#[derive(Clone, Copy, Debug, PartialEq, Eq)]
pub struct AttemptRead {
    pub student: u64,
    pub target: usize,
    pub loss: bool,
    pub count: usize,
}

// What a hand-in line says: this student is withdrawn, or hands in.
#[derive(Clone, Copy, Debug, PartialEq, Eq)]
pub enum LineSaid {
    Withdrawal(u64),
    Attempt(AttemptRead),
}

// The first no about a handed-in text, and the field that it is about, counted from 1; 0 where it is about the
// whole text.
#[derive(Clone, Copy, Debug, PartialEq, Eq)]
pub struct FieldRefusal {
    pub refusal: Refusal,
    pub place: u64,
}

// Why a set or a line is not read: the sheet is refused; or the handed-in text is; or the lent list is shorter
// than the line's sets.
#[derive(Clone, Copy, Debug, PartialEq, Eq)]
pub enum Unread {
    Sheet(SheetRefusal),
    Text(FieldRefusal),
    Short,
}
