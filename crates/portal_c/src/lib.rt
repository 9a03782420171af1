// The calls for C, exported: each hands on to the call of its name in the libraries, and has its contract.
// include/portal.h is made from these; their parameters are what C hands over. A crate is a library or a static library, and no crate can stand on a
// static library, so the calls themselves are in the libraries, where other crates reach them.

#![tactic(auto)]

ghost use Rattle.std.specs.Prelude.{◌≡◌, [], ◌∷◌, false, true};
ghost use Rattle.portal_sheets.specs.Reading.{version, ReadingCall, name_call};
ghost use Rattle.questions.specs.Told.{Told};
ghost use Rattle.pool_format.specs.Call.{PoolCall};
ghost use Rattle.save_format.specs.Call.{save_call};
ghost use Rattle.portal_words.specs.Words.{setup_in};
ghost use Rattle.portal.specs.Portal.{PortalCall};
ghost use Rattle.questions.specs.Asks.{Asks};
ghost use Rattle.portal_sets.specs.Check.{asks_reached};
ghost use Rattle.access.specs.Answers.{closure_call, lost_call, way_call};
ghost use Rattle.quick_yes.specs.Answers.{quick_call};
ghost use Rattle.answers.specs.Answers.{bases_call, score_call, marks_call};
ghost use Rattle.forecasts.specs.Answers.{forecast_call};
ghost use Rattle.next_sets.specs.Answers.{next_call};
ghost use Rattle.cut_sets.specs.Answers.{cuts_call};
ghost use Rattle.findings.specs.Answers.{backdoor_call, ineffective_call, inconsistent_call};
ghost use Rattle.attackers.specs.Answers.{attacker_call};
ghost use Rattle.vertex_set.specs.Set.{Decides};
ghost use Rattle.multisets.specs.Multisets.{BagAtMost};
ghost use Rattle.multiset_scores.specs.Answers.{bags_call};
ghost use Rattle.living.specs.Calls.{TakeIn, TakeOut, AddEdge, RemoveEdge};
ghost use Rattle.portal_living.specs.Living.{living_call};
ghost use Rattle.register.specs.Calls.{HandInCall, WithdrawCall};
ghost use Rattle.handin_format.specs.Calls.{ReadSetCall, write_set_call, EnterCall};
ghost use Rattle.portal_register.specs.Lines.{TellLineCall};

use portal_register::{ReadLineResult, ReadSetResult, WriteSetResult};
use portal_scores::results::{
    BagScoreResult, FindingResult, KindsResult, MarksResult, SetupRiskResult, SetupScoreResult,
};
use portal_sets::results::{
    ClosureResult, CutSetsResult, ForecastResult, ListsResult, LostResult, NextOpeningResult,
    OpensResult, WayInResult,
};
use portal_sheets::{NameResult, PoolResult, ReadResult, WriteSheetResult};
use records::{Record, Registered};

// ---- sheets, and the version

#[unsafe(no_mangle)]
pub extern "C" fn portal_version() -> u64
    ensures { result ≡ version }
{
    portal_sheets::portal_version()
}

#[unsafe(no_mangle)]
pub extern "C" fn portal_read(sheet: &[u8], setup: &mut [u64]) -> ReadResult
    ensures { ReadingCall sheet.now result.number result.line setup.old setup.new }
{
    portal_sheets::portal_read(sheet, setup)
}

#[unsafe(no_mangle)]
pub extern "C" fn portal_name(sheet: &[u8], item: u64) -> NameResult
    ensures { Told (name_call sheet.now item) result.number (result.start ∷ result.length ∷ []) [] }
{
    portal_sheets::portal_name(sheet, item)
}

#[unsafe(no_mangle)]
pub extern "C" fn portal_pool(first: &[u8], second: &[u8], out: &mut [u8]) -> PoolResult
    ensures { PoolCall first.now second.now (record { number = result.number; sheet = result.sheet; line = result.line; size = result.length }) out.old out.new }
{
    portal_sheets::portal_pool(first, second, out)
}

#[unsafe(no_mangle)]
pub extern "C" fn portal_write_sheet(
    sheet: &[u8],
    setup: &[u64],
    out: &mut [u8],
) -> WriteSheetResult
    ensures { Told (save_call sheet.now (setup_in setup.now) out.old) result.number (result.length ∷ []) (out.new ∷ []) }
{
    portal_sheets::portal_write_sheet(sheet, setup, out)
}

// ---- score and risk of an item of a sheet

#[unsafe(no_mangle)]
pub extern "C" fn portal_score(sheet: &[u8], item: u64) -> u64
    ensures { PortalCall false sheet.now item result }
{
    portal::portal_score(sheet, item)
}

#[unsafe(no_mangle)]
pub extern "C" fn portal_risk(sheet: &[u8], item: u64) -> u64
    ensures { PortalCall true sheet.now item result }
{
    portal::portal_risk(sheet, item)
}

// ---- sets and lists

#[unsafe(no_mangle)]
pub extern "C" fn portal_check(setup: &[u64]) -> u64
    ensures { Asks (λ q. q) (asks_reached (setup_in setup.now) ∷ []) (λ n. n ≡ 0) result }
{
    portal_sets::portal_check(setup)
}

#[unsafe(no_mangle)]
pub extern "C" fn portal_closure(setup: &[u64], set: u64) -> ClosureResult
    ensures { Told (closure_call (setup_in setup.now) set) result.number (result.set ∷ result.passes ∷ []) [] }
{
    portal_sets::portal_closure(setup, set)
}

#[unsafe(no_mangle)]
pub extern "C" fn portal_lost(setup: &[u64], set: u64) -> LostResult
    ensures { Told (lost_call (setup_in setup.now) set) result.number (result.set ∷ []) [] }
{
    portal_sets::portal_lost(setup, set)
}

#[unsafe(no_mangle)]
pub extern "C" fn portal_way_in(
    setup: &[u64],
    target: u64,
    set: u64,
    items: &mut [u8],
    colours: &mut [u8],
) -> WayInResult
    ensures { Told (way_call (setup_in setup.now) target set items.old colours.old) result.number (result.opens ∷ result.steps ∷ []) (items.new ∷ colours.new ∷ []) }
{
    portal_sets::portal_way_in(setup, target, set, items, colours)
}

#[unsafe(no_mangle)]
pub extern "C" fn portal_opens(setup: &[u64], target: u64, set: u64) -> OpensResult
    ensures { Told (quick_call (setup_in setup.now) target set) result.number (result.opens ∷ result.set ∷ []) [] }
{
    portal_sets::portal_opens(setup, target, set)
}

#[unsafe(no_mangle)]
pub extern "C" fn portal_lists(setup: &[u64], target: u64, sets: &mut [u64]) -> ListsResult
    ensures { Told (bases_call (setup_in setup.now) target sets.old) result.number (result.openings ∷ result.lockouts ∷ []) (sets.new ∷ []) }
{
    portal_sets::portal_lists(setup, target, sets)
}

#[unsafe(no_mangle)]
pub extern "C" fn portal_forecast(setup: &[u64], target: u64) -> ForecastResult
    ensures { Told (forecast_call (setup_in setup.now) target) result.number (result.sets ∷ []) [] }
{
    portal_sets::portal_forecast(setup, target)
}

#[unsafe(no_mangle)]
pub extern "C" fn portal_next_opening(setup: &[u64], target: u64, last: u64) -> NextOpeningResult
    ensures { Told (next_call (setup_in setup.now) target last) result.number (result.more ∷ result.set ∷ []) [] }
{
    portal_sets::portal_next_opening(setup, target, last)
}

#[unsafe(no_mangle)]
pub extern "C" fn portal_cut_sets(setup: &[u64], target: u64, sets: &mut [u64]) -> CutSetsResult
    ensures { Told (cuts_call (setup_in setup.now) target sets.old) result.number (result.count ∷ []) (sets.new ∷ []) }
{
    portal_sets::portal_cut_sets(setup, target, sets)
}

// ---- scores, marks, findings, kinds of intruder, bags

#[unsafe(no_mangle)]
pub extern "C" fn portal_setup_score(setup: &[u64], target: u64) -> SetupScoreResult
    ensures { Told (score_call false (setup_in setup.now) target) result.number (result.score ∷ []) [] }
{
    portal_scores::portal_setup_score(setup, target)
}

#[unsafe(no_mangle)]
pub extern "C" fn portal_setup_risk(setup: &[u64], target: u64) -> SetupRiskResult
    ensures { Told (score_call true (setup_in setup.now) target) result.number (result.risk ∷ []) [] }
{
    portal_scores::portal_setup_risk(setup, target)
}

#[unsafe(no_mangle)]
pub extern "C" fn portal_mark_openings(setup: &[u64], target: u64, sets: &[u64]) -> MarksResult
    ensures { Told (marks_call false (setup_in setup.now) target sets.now) result.number (result.right ∷ result.repeated ∷ result.shut ∷ result.loose ∷ result.missing ∷ []) [] }
{
    portal_scores::portal_mark_openings(setup, target, sets)
}

#[unsafe(no_mangle)]
pub extern "C" fn portal_mark_lockouts(setup: &[u64], target: u64, sets: &[u64]) -> MarksResult
    ensures { Told (marks_call true (setup_in setup.now) target sets.now) result.number (result.right ∷ result.repeated ∷ result.shut ∷ result.loose ∷ result.missing ∷ []) [] }
{
    portal_scores::portal_mark_lockouts(setup, target, sets)
}

#[unsafe(no_mangle)]
pub extern "C" fn portal_backdoor(setup: &[u64], item: u64) -> FindingResult
    ensures { Told (backdoor_call (setup_in setup.now) item) result.number (result.yes ∷ []) [] }
{
    portal_scores::portal_backdoor(setup, item)
}

#[unsafe(no_mangle)]
pub extern "C" fn portal_idle(setup: &[u64], item: u64) -> FindingResult
    ensures { Told (ineffective_call (setup_in setup.now) item) result.number (result.yes ∷ []) [] }
{
    portal_scores::portal_idle(setup, item)
}

#[unsafe(no_mangle)]
pub extern "C" fn portal_out_of_rank(setup: &[u64], above: u64, below: u64) -> FindingResult
    ensures { Told (inconsistent_call (setup_in setup.now) above below) result.number (result.yes ∷ []) [] }
{
    portal_scores::portal_out_of_rank(setup, above, below)
}

#[unsafe(no_mangle)]
pub extern "C" fn portal_kinds(setup: &[u64], target: u64, kinds: &[u8]) -> KindsResult
    ensures { Told (attacker_call (setup_in setup.now) target kinds.now) result.number (result.kinds ∷ []) [] }
{
    portal_scores::portal_kinds(setup, target, kinds)
}

#[unsafe(no_mangle)]
pub extern "C" fn portal_bag_at_most(bag: &[u64], other: &[u64]) -> bool
    ensures { Decides (BagAtMost bag.now other.now) result }
{
    portal_scores::portal_bag_at_most(bag, other)
}

#[unsafe(no_mangle)]
pub extern "C" fn portal_bag_score(
    setup: &[u64],
    target: u64,
    values: &mut [u64],
    lengths: &mut [u64],
) -> BagScoreResult
    ensures { Told (bags_call (setup_in setup.now) target values.old lengths.old) result.number (result.bags ∷ []) (values.new ∷ lengths.new ∷ []) }
{
    portal_scores::portal_bag_score(setup, target, values, lengths)
}

// ---- the setup redrawn in its buffer

#[unsafe(no_mangle)]
pub extern "C" fn portal_take_in(setup: &mut [u64], item: u64) -> u64
    ensures { Told (living_call (TakeIn item) setup.old) result [] (setup.new ∷ []) }
{
    portal_living::portal_take_in(setup, item)
}

#[unsafe(no_mangle)]
pub extern "C" fn portal_take_out(setup: &mut [u64], item: u64) -> u64
    ensures { Told (living_call (TakeOut item) setup.old) result [] (setup.new ∷ []) }
{
    portal_living::portal_take_out(setup, item)
}

#[unsafe(no_mangle)]
pub extern "C" fn portal_add_edge(
    setup: &mut [u64],
    from: u64,
    to: u64,
    colour: u64,
    recovery: bool,
) -> u64
    ensures { Told (living_call (AddEdge from to colour recovery) setup.old) result [] (setup.new ∷ []) }
{
    portal_living::portal_add_edge(setup, from, to, colour, recovery)
}

#[unsafe(no_mangle)]
pub extern "C" fn portal_remove_edge(setup: &mut [u64], from: u64, to: u64, colour: u64) -> u64
    ensures { Told (living_call (RemoveEdge from to colour) setup.old) result [] (setup.new ∷ []) }
{
    portal_living::portal_remove_edge(setup, from, to, colour)
}

// ---- the class register

#[unsafe(no_mangle)]
pub extern "C" fn portal_hand_in(
    setup: &[u64],
    records: &mut [Record],
    used: usize,
    student: u64,
    target: u64,
    lock: bool,
    sets: &[u64],
) -> Registered
    ensures { HandInCall (setup_in setup.now) used student target lock sets.now result records.old records.new }
{
    portal_register::portal_hand_in(setup, records, used, student, target, lock, sets)
}

#[unsafe(no_mangle)]
pub extern "C" fn portal_withdraw(records: &mut [Record], used: usize, student: u64) -> Registered
    ensures { WithdrawCall used student result records.old records.new }
{
    portal_register::portal_withdraw(records, used, student)
}

#[unsafe(no_mangle)]
pub extern "C" fn portal_read_set(sheet: &[u8], text: &[u8]) -> ReadSetResult
    ensures { ReadSetCall sheet.now text.now (record { number = result.number; text = result.text; place = result.place; set = result.set }) }
{
    portal_register::portal_read_set(sheet, text)
}

#[unsafe(no_mangle)]
pub extern "C" fn portal_write_set(sheet: &[u8], set: u64, out: &mut [u8]) -> WriteSetResult
    ensures { Told (write_set_call sheet.now set out.old) result.number (result.length ∷ []) (out.new ∷ []) }
{
    portal_register::portal_write_set(sheet, set, out)
}

#[unsafe(no_mangle)]
pub extern "C" fn portal_read_line(sheet: &[u8], line: &[u8], sets: &mut [u64]) -> ReadLineResult
    ensures { TellLineCall sheet.now line.now result sets.old sets.new }
{
    portal_register::portal_read_line(sheet, line, sets)
}

#[unsafe(no_mangle)]
pub extern "C" fn portal_enter_line(
    sheet: &[u8],
    line: &[u8],
    records: &mut [Record],
    used: usize,
) -> Registered
    ensures { EnterCall sheet.now line.now used result records.old records.new }
{
    portal_register::portal_enter_line(sheet, line, records, used)
}
