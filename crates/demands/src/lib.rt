// Demands 1, 2 and 3, as the contracts of functions that make the offered calls on any sheet, item,
// setup, set, vertices, handed-in lists, list of kinds and lent lists. What the demands say of the
// calls for C is told of their contracts (specs/Demands.antt).

#![tactic(auto)]

ghost use Rattle.std.specs.Prelude.{◌≡◌, true, false, [], ◌∷◌};
ghost use Rattle.vertex_set.specs.Set.{Decides};
ghost use Rattle.questions.specs.Contract.{ends, Fulfils};
ghost use Rattle.questions.specs.Told.{Told, SettledTold};
ghost use Rattle.access.specs.Answers.{closure_reply, closure_call, lost_reply, lost_call, way_reply, way_call};
ghost use Rattle.quick_yes.specs.Answers.{quick_reply, quick_call};
ghost use Rattle.multisets.specs.Multisets.{BagAtMost};
ghost use Rattle.multiset_scores.specs.Answers.{bags_reply, bags_call};
ghost use Rattle.findings.specs.Answers.{finding_reply, backdoor_call, ineffective_call, inconsistent_call};
ghost use Rattle.living.specs.Calls.{handed_back, TakeIn, TakeOut, AddEdge, RemoveEdge, CallOf};
ghost use Rattle.register.specs.Calls.{HandInCall, WithdrawCall};
ghost use Rattle.pool_format.specs.Call.{pool_answer, PoolCall};
ghost use Rattle.save_format.specs.Call.{saved, save_call};
ghost use Rattle.handin_format.specs.Calls.{named_set, set_written, line_answer, ReadSetCall, write_set_call, ReadLineCall};
ghost use Rattle.sheet_format.specs.Read.{reading, read_sheet};
ghost use Rattle.portal.specs.Portal.{PortalCall};
ghost use Rattle.histories.specs.Histories.{Reached};
ghost use Rattle.demands.specs.Sheets.{Reads, Named, SettledName};
ghost use Rattle.demands.specs.Calls.{three_made, all_made, SettledLiving, SettledHandIn, SettledWithdrawal, SettledPool};
ghost use Rattle.demands.specs.HandIns.{SettledReadSet, SettledReadLine};
ghost use Rattle.demands.specs.Demands.{Demand1, Demand2, Demand3Reached};

use access::Opened;
use answers::AllAnswers;
use handin_format::{LineSaid, Unread};
use pool_format::PoolRefusal;
use questions::Refusal;
use quick_yes::QuickAnswer;
use records::{Record, Registered};
use setup::Setup;
use sheet_format::SheetRefusal;
use vertex_set::VertexSet;

#[derive(Drop)]
pub struct SetAnswers {
    pub closure: Result<Opened, Refusal>,
    pub lost: Result<VertexSet, Refusal>,
    pub way: Result<Option<usize>, Refusal>,
    pub quick: Result<QuickAnswer, Refusal>,
}

#[derive(Drop)]
pub struct FindingAnswers {
    pub backdoor: Result<bool, Refusal>,
    pub idle: Result<bool, Refusal>,
    pub pair: Result<bool, Refusal>,
    pub formed: bool,
}

// The reading, and the portal's two numbers.
#[derive(Drop)]
pub struct SheetAnswers {
    pub reading: Result<Setup, SheetRefusal>,
    pub score: u64,
    pub risk: u64,
}

// Whether one list is at most another as bags, and the bag score.
#[derive(Drop)]
pub struct BagAnswers {
    pub compared: bool,
    pub score: Result<usize, Refusal>,
}

// What the calls answer, all on one input. An item's name is not here: it is a part of the sheet,
// which `demands_of_name` hands back.
#[derive(Drop)]
pub struct Answers {
    pub sets: SetAnswers,
    pub lists: AllAnswers,
    pub findings: FindingAnswers,
    pub sheet: SheetAnswers,
    pub forecast: Result<u64, Refusal>,
    pub cuts: Result<usize, Refusal>,
    pub attackers: Result<u64, Refusal>,
    pub next: Result<Option<VertexSet>, Refusal>,
    pub bags: BagAnswers,
}

// What the calls on a setup that lives hand back.
#[derive(Drop)]
pub struct LivingAnswers {
    pub taken: Result<Setup, Refusal>,
    pub freed: Result<Setup, Refusal>,
    pub added: Result<Setup, Refusal>,
    pub removed: Result<Setup, Refusal>,
}

// These functions hand on what the demands are about, one parameter for each that an offered call has:
// README and docs name them, and their clauses, as they are.

// Asks for closure, lost set, way in and quick yes.
fn ask_sets(
    s: Setup,
    set: VertexSet,
    target: usize,
    vertices: &mut [u8],
    colours: &mut [u8],
) -> SetAnswers
    ensures closure { Fulfils (closure_call s set.0) (ends (closure_reply result.closure) []) }
    ensures lost { Fulfils (lost_call s set.0) (ends (lost_reply result.lost) []) }
    ensures way { Fulfils (way_call s target set.0 vertices.old colours.old) (ends (way_reply result.way) (vertices.new ∷ colours.new ∷ [])) }
    ensures quick { Fulfils (quick_call s target set.0) (ends (quick_reply result.quick) []) }
{
    let closure = access::access_from(s, set);
    let lost = access::lockout_from(s, set);
    let way = access::access_derivation(s, target, set, vertices, colours);
    let quick = quick_yes::opens(s, target, set);
    SetAnswers {
        closure,
        lost,
        way,
        quick,
    }
}

// Asks for the three findings, and question 12.
fn ask_findings(s: Setup, target: usize, other: usize) -> FindingAnswers
    ensures backdoor { Fulfils (backdoor_call s target) (ends (finding_reply result.backdoor) []) }
    ensures idle { Fulfils (ineffective_call s target) (ends (finding_reply result.idle) []) }
    ensures pair { Fulfils (inconsistent_call s target other) (ends (finding_reply result.pair) []) }
    ensures formed { Decides (Reached s) result.formed }
{
    let backdoor = findings::has_backdoor(s, target);
    let idle = findings::ineffective_recovery(s, target);
    let pair = findings::inconsistent(s, target, other);
    let formed = formed::well_formed(s);
    FindingAnswers {
        backdoor,
        idle,
        pair,
        formed,
    }
}

// Makes the calls on a sheet's bytes.
fn ask_sheet(sheet: &[u8], item: u64) -> SheetAnswers
    ensures reading { Reads sheet.now (reading result.reading) }
    ensures asked { reading result.reading ≡ read_sheet sheet.now }
    ensures score { PortalCall false sheet.now item result.score }
    ensures risk { PortalCall true sheet.now item result.risk }
{
    let reading = sheet::read_sheet(sheet);
    let score = portal::portal_score(sheet, item);
    let risk = portal::portal_risk(sheet, item);
    SheetAnswers {
        reading,
        score,
        risk,
    }
}

// Asks whether the one list is at most the other as bags, and for the bag score.
fn ask_bags(
    s: Setup,
    target: usize,
    bag: &[u64],
    above: &[u64],
    parts: &mut [u64],
    lengths: &mut [u64],
) -> BagAnswers
    ensures compared { Decides (BagAtMost bag.now above.now) result.compared }
    ensures score { Fulfils (bags_call s target parts.old lengths.old) (ends (bags_reply result.score) (parts.new ∷ lengths.new ∷ [])) }
{
    let compared = multisets::multiset_at_most(bag, above);
    let score = multiset_scores::multiset_score(s, target, parts, lengths);
    BagAnswers { compared, score }
}

// Demand 2, about the code: whatever the calls answer together is as the demand states.
pub fn demand_two(
    sheet: &[u8],
    item: u64,
    s: Setup,
    set: VertexSet,
    target: usize,
    other: usize,
    opened: &[u64],
    locked: &[u64],
    kinds: &[u8],
    vertices: &mut [u8],
    colours: &mut [u8],
    list: &mut [u64],
    harden: &mut [u64],
    parts: &mut [u64],
    lengths: &mut [u64],
) -> Answers
    ensures { Demand2 sheet.now item s (all_made set.0 target other opened.now locked.now kinds.now vertices.old vertices.new colours.old colours.new list.old list.new harden.old harden.new parts.old parts.new lengths.old lengths.new result) opened.now locked.now result }
{
    let sets = ask_sets(s, set, target, vertices, colours);
    let lists = answers::demand_three(s, target, list, opened, locked);
    let findings = ask_findings(s, target, other);
    let sheet = ask_sheet(sheet, item);
    let forecast = forecasts::forecast_base(s, target);
    let cuts = cut_sets::smallest_cuts(s, target, harden);
    let attackers = attackers::attacker_score(s, target, kinds);
    let next = next_sets::next_access_set(s, target, set);
    let bags = ask_bags(s, target, opened, locked, parts, lengths);
    Answers {
        sets,
        lists,
        findings,
        sheet,
        forecast,
        cuts,
        attackers,
        next,
        bags,
    }
}

// Demand 1, about the code: each call gives its answer or one refusal, and nothing else meets its
// contract.
pub fn demand_one(
    sheet: &[u8],
    item: u64,
    s: Setup,
    set: VertexSet,
    target: usize,
    other: usize,
    opened: &[u64],
    locked: &[u64],
    kinds: &[u8],
    vertices: &mut [u8],
    colours: &mut [u8],
    list: &mut [u64],
    harden: &mut [u64],
    parts: &mut [u64],
    lengths: &mut [u64],
) -> Answers
    ensures { Demand1 sheet.now item s (all_made set.0 target other opened.now locked.now kinds.now vertices.old vertices.new colours.old colours.new list.old list.new harden.old harden.new parts.old parts.new lengths.old lengths.new result) opened.now locked.now result }
{
    demand_two(
        sheet, item, s, set, target, other, opened, locked, kinds, vertices, colours, list, harden,
        parts, lengths,
    )
}

// Demand 3, about the code: on every setup that passes, and every item of it, these calls answer.
pub fn demand_three(
    s: Setup,
    target: usize,
    list: &mut [u64],
    opened: &[u64],
    locked: &[u64],
) -> AllAnswers
    ensures { Demand3Reached s target (three_made target list.old list.new opened.now locked.now result) }
{
    answers::demand_three(s, target, list, opened, locked)
}

// Both demands of an item's name, the part of the sheet that is handed back.
pub fn demands_of_name(sheet: &[u8], item: usize) -> &[u8]
    ensures one { SettledName sheet.now item sheet.entry.ref_ptr.1 result.now result.ref_ptr.1 }
    ensures two { Named sheet.now item sheet.entry.ref_ptr.1 result.now result.ref_ptr.1 }
    ensures within { result.ref_ptr.0 ≡ sheet.entry.ref_ptr.0 }
{
    sheet::name_of(sheet, item)
}

// Both demands of a hand-in to the class register, which is lent a slice of records.
pub fn demands_of_hand_in(
    records: &mut [Record],
    used: usize,
    s: Setup,
    student: u64,
    target: u64,
    loss: bool,
    handed: &[u64],
) -> Registered
    ensures { SettledHandIn s used student target loss handed.now result records.old records.new × HandInCall s used student target loss handed.now result records.old records.new }
{
    register::hand_in(records, used, s, student, target, loss, handed)
}

// Both demands of a withdrawal from the class register.
pub fn demands_of_withdrawal(records: &mut [Record], used: usize, student: u64) -> Registered
    ensures { SettledWithdrawal used student result records.old records.new × WithdrawCall used student result records.old records.new }
{
    register::withdraw(records, used, student)
}

// Both demands of the calls on a setup that lives: each hands a setup back.
pub fn demands_of_living(
    s: Setup,
    item: usize,
    from: usize,
    to: usize,
    colour: usize,
    rec: bool,
) -> LivingAnswers
    ensures one { SettledLiving (TakeIn item) s (handed_back s result.taken) × SettledLiving (TakeOut item) s (handed_back s result.freed) × SettledLiving (AddEdge from to colour rec) s (handed_back s result.added) × SettledLiving (RemoveEdge from to colour) s (handed_back s result.removed) }
    ensures two { CallOf (TakeIn item) s (handed_back s result.taken) × CallOf (TakeOut item) s (handed_back s result.freed) × CallOf (AddEdge from to colour rec) s (handed_back s result.added) × CallOf (RemoveEdge from to colour) s (handed_back s result.removed) }
{
    let taken = living::take_in(s, item);
    let freed = living::take_out(s, item);
    let added = living::add_edge(s, from, to, colour, rec);
    let removed = living::remove_edge(s, from, to, colour);
    LivingAnswers {
        taken,
        freed,
        added,
        removed,
    }
}

// Both demands of pooling, whose input is two sheets.
pub fn demands_of_pool(first: &[u8], second: &[u8], out: &mut [u8]) -> Result<usize, PoolRefusal>
    ensures one { SettledPool first.now second.now (pool_answer result) out.old out.new }
    ensures two { PoolCall first.now second.now (pool_answer result) out.old out.new }
{
    pooling::pool_sheets(first, second, out)
}

// Both demands of saving, whose input is a sheet and a setup.
pub fn demands_of_saving(sheet: &[u8], s: Setup, out: &mut [u8]) -> Result<usize, Refusal>
    ensures one { SettledTold (save_call sheet.now s out.old) (saved result).number ((saved result).length ∷ []) (out.new ∷ []) }
    ensures two { Told (save_call sheet.now s out.old) (saved result).number ((saved result).length ∷ []) (out.new ∷ []) }
{
    saving::write_sheet(sheet, s, out)
}

// Both demands of a set by its names.
pub fn demands_of_set(sheet: &[u8], text: &[u8]) -> Result<u64, Unread>
    ensures one { SettledReadSet sheet.now text.now (named_set result) }
    ensures two { ReadSetCall sheet.now text.now (named_set result) }
{
    handins::read_set(sheet, text)
}

// Both demands of the names of a set.
pub fn demands_of_set_names(sheet: &[u8], set: u64, out: &mut [u8]) -> Result<usize, Refusal>
    ensures one { SettledTold (write_set_call sheet.now set out.old) (set_written result).number ((set_written result).size ∷ []) (out.new ∷ []) }
    ensures two { Told (write_set_call sheet.now set out.old) (set_written result).number ((set_written result).size ∷ []) (out.new ∷ []) }
{
    handins::write_set(sheet, set, out)
}

// Both demands of what a hand-in line says.
pub fn demands_of_line(sheet: &[u8], line: &[u8], handed: &mut [u64]) -> Result<LineSaid, Unread>
    ensures one { SettledReadLine sheet.now line.now (line_answer result) handed.old handed.new }
    ensures two { ReadLineCall sheet.now line.now (line_answer result) handed.old handed.new }
{
    handins::read_line(sheet, line, handed)
}
