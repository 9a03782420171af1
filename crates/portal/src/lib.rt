// The course portal's calls, for C: a sheet's bytes and an item number in, one number out.

#![tactic(auto)]

ghost use Rattle.std.specs.Prelude.{true, false, [], ◌∷◌};
ghost use Rattle.questions.specs.Refusals.{replies};
ghost use Rattle.portal.specs.Portal.{PortalCall};
ghost use Rattle.portal.specs.Inner.{Coded};

use questions::Refusal;
use scores::{NEVER, Score};

// A score is coded as its number, and a refusal as 2^62, the number for "never", plus its own.
fn code<K>(answer: Result<Score<K>, Refusal>) -> u64
    ensures { Coded (replies (λ r. r.0 ∷ []) answer) result }
{
    match answer {
        Ok(score) => score.number(),
        Err(refusal) => NEVER + refusal.number(),
    }
}

// The security score of the item (document 01: its score).
#[unsafe(no_mangle)]
pub extern "C" fn portal_score(sheet: &[u8], item: u64) -> u64
    ensures { PortalCall false sheet.now item result }
{
    match sheet::read_sheet(sheet) {
        Ok(s) => {
            let answer = answers::security_score(s, item as usize);
            code(answer)
        }
        Err(refused) => NEVER + refused.refusal.number(),
    }
}

// The recoverability score of the item (document 01: its risk).
// It is the call above with another answer: C calls the two by their names, and each has a contract of its own.
#[unsafe(no_mangle)]
pub extern "C" fn portal_risk(sheet: &[u8], item: u64) -> u64
    ensures { PortalCall true sheet.now item result }
{
    match sheet::read_sheet(sheet) {
        Ok(s) => {
            let answer = answers::recoverability_score(s, item as usize);
            code(answer)
        }
        Err(refused) => NEVER + refused.refusal.number(),
    }
}
