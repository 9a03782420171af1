// The portal's class register, for C: a lent slice of records, and how many of them are used. Attempts are
// handed in by numbers, or by names as a line of text. Their parameters are what C hands over.

#![tactic(auto)]

ghost use Rattle.std.specs.Prelude.{◌≡◌, Err, [], ◌∷◌};
ghost use Rattle.questions.specs.Told.{Told};
ghost use Rattle.register.specs.Calls.{HandInCall, WithdrawCall};
ghost use Rattle.portal_words.specs.Words.{setup_in};
ghost use Rattle.handin_format.specs.Calls.{set_refused, named_set, ReadSetCall, set_written, write_set_call, unread_line, line_answer, EnterCall};
ghost use Rattle.portal_register.specs.Lines.{in_numbers, TellLineCall};

use handin_format::{LineSaid, Unread};
use handin_lines::tasks;
use questions::Refusal;
use records::{Record, Registered};

// These structs are what C gets. In the answers about texts by name `text` says whose the number of a refusal is: 1 for the sheet and 2
// for the other text, else 0. `place` is then the sheet's line, or the line's field, or 0.

// A set by its names.
#[repr(C)]
#[derive(Drop)]
pub struct ReadSetResult {
    pub number: u64,
    pub text: u64,
    pub place: u64,
    pub set: u64,
}

// The number of a refusal, whose it is, and its place.
fn told_no(no: Unread) -> (u64, u64, u64)
    ensures set { set_refused result.1 result.2 result.0 ≡ named_set (Err no) }
    ensures line { unread_line result.0 result.1 result.2 ≡ line_answer (Err no) }
{
    match no {
        Unread::Sheet(no) => (no.refusal.number(), 1, no.line),
        Unread::Text(no) => (no.refusal.number(), 2, no.place),
        Unread::Short => (Refusal::Short.number(), 0, 0),
    }
}

impl From<Result<u64, Unread>> for ReadSetResult {
    ghost from_gives = { λ read r. record { number = r.number; text = r.text; place = r.place; set = r.set } ≡ named_set read };

    fn from(read: Result<u64, Unread>) -> ReadSetResult {
        match read {
            Ok(set) => ReadSetResult {
                number: 0,
                text: 0,
                place: 0,
                set,
            },
            Err(no) => {
                let (number, text, place) = told_no(no);
                ReadSetResult {
                    number,
                    text,
                    place,
                    set: 0,
                }
            }
        }
    }
}

// Number 0: the names have `length` bytes. Else a refusal, and length 0.
#[repr(C)]
#[derive(Drop)]
pub struct WriteSetResult {
    pub number: u64,
    pub length: u64,
}

impl From<Result<usize, Refusal>> for WriteSetResult {
    ghost from_gives = { λ names r. (r.number ≡ (set_written names).number) × (r.length ≡ (set_written names).size) };

    fn from(names: Result<usize, Refusal>) -> WriteSetResult {
        match names {
            Ok(length) => WriteSetResult {
                number: 0,
                length: length as u64,
            },
            Err(refusal) => WriteSetResult {
                number: refusal.number(),
                length: 0,
            },
        }
    }
}

// What a line says: `withdraws` and `lock` are 1 for yes.
#[repr(C)]
#[derive(Drop)]
pub struct ReadLineResult {
    pub number: u64,
    pub text: u64,
    pub place: u64,
    pub withdraws: u64,
    pub student: u64,
    pub target: u64,
    pub lock: u64,
    pub count: u64,
}

impl From<Result<LineSaid, Unread>> for ReadLineResult {
    ghost from_gives = { λ read r. r ≡ in_numbers (line_answer read) };

    fn from(read: Result<LineSaid, Unread>) -> ReadLineResult {
        match read {
            Ok(LineSaid::Withdrawal(student)) => ReadLineResult {
                number: 0,
                text: 0,
                place: 0,
                withdraws: 1,
                student,
                target: 0,
                lock: 0,
                count: 0,
            },
            Ok(LineSaid::Attempt(attempt)) => {
                let lock = u64::from(attempt.loss);
                ReadLineResult {
                    number: 0,
                    text: 0,
                    place: 0,
                    withdraws: 0,
                    student: attempt.student,
                    target: attempt.target as u64,
                    lock,
                    count: attempt.count as u64,
                }
            }
            Err(no) => {
                let (number, text, place) = told_no(no);
                ReadLineResult {
                    number,
                    text,
                    place,
                    withdraws: 0,
                    student: 0,
                    target: 0,
                    lock: 0,
                    count: 0,
                }
            }
        }
    }
}

// A student's attempt: sets that are handed in as the target's opening list, or with `lock` as its
// lockout list.
#[unsafe(no_mangle)]
pub extern "C" fn portal_hand_in(
    setup: &[u64],
    records: &mut [Record],
    used: usize,
    student: u64,
    target: u64,
    lock: bool,
    sets: &[u64],
) -> Registered
    ensures { HandInCall (setup_in setup.now) used student target lock sets.now result records.old records.new }
{
    let s = portal_words::setup_in(setup);
    register::hand_in(records, used, s, student, target, lock, sets)
}

// A student is withdrawn.
#[unsafe(no_mangle)]
pub extern "C" fn portal_withdraw(records: &mut [Record], used: usize, student: u64) -> Registered
    ensures { WithdrawCall used student result records.old records.new }
{
    register::withdraw(records, used, student)
}

// The set that names joined by `+` name on a sheet, and `-` the empty one.
#[unsafe(no_mangle)]
pub extern "C" fn portal_read_set(sheet: &[u8], text: &[u8]) -> ReadSetResult
    ensures { ReadSetCall sheet.now text.now (record { number = result.number; text = result.text; place = result.place; set = result.set }) }
{
    ReadSetResult::from(handins::read_set(sheet, text))
}

// The names of a set, to the start of the lent buffer.
#[unsafe(no_mangle)]
pub extern "C" fn portal_write_set(sheet: &[u8], set: u64, out: &mut [u8]) -> WriteSetResult
    ensures { Told (write_set_call sheet.now set out.old) result.number (result.length ∷ []) (out.new ∷ []) }
{
    WriteSetResult::from(handins::write_set(sheet, set, out))
}

// What a hand-in line says; its sets go to the start of the lent list.
#[unsafe(no_mangle)]
pub extern "C" fn portal_read_line(sheet: &[u8], line: &[u8], sets: &mut [u64]) -> ReadLineResult
    ensures { TellLineCall sheet.now line.now result sets.old sets.new }
{
    ReadLineResult::from(handins::read_line(sheet, line, sets))
}

// A hand-in line taken to the register.
#[unsafe(no_mangle)]
pub extern "C" fn portal_enter_line(
    sheet: &[u8],
    line: &[u8],
    records: &mut [Record],
    used: usize,
) -> Registered
    ensures { EnterCall sheet.now line.now used result records.old records.new }
{
    let t = tasks::task_of(sheet, line);
    records::apply(records, used, t)
}
