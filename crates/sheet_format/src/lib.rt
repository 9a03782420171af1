// Sheets (document 01, "The sheet" and "Questions, and the number for no"): the type that reading
// one answers with. The definitions stand in specs/, the theorems on them in proofs/.

#![tactic(auto)]

use questions::Refusal;

// Why a sheet is refused: the first question whose answer is no, and its line, counted from 1 (0 for
// the whole text).
#[derive(Clone, Copy, Debug, PartialEq, Eq)]
pub struct SheetRefusal {
    pub refusal: Refusal,
    pub line: u64,
}
