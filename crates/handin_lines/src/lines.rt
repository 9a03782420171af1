// The whole hand-in line: the questions about its form, then its fields from the left.
ghost use Rattle.std.specs.Prelude.{◌≡◌, Ok};
ghost use Rattle.sheet_format.specs.Text.{all};
ghost use Rattle.handin_format.specs.Lines.{is_line_byte};
ghost use Rattle.handin_lines.specs.Inner.Lines.{FirstEmpty, form_found, CutsFields, FormOf, way_field, ReadsWay, AttemptPlaces, line_found, ChecksAttempt, ChecksLine};

use super::{by_name, sets};
use handin_format::{AttemptRead, FieldRefusal};
use questions::Refusal;
use sheet_fields::SPACE;
use sheet_rows::ItemKeys;

// A line has the bytes from the first to the last of these.
const FIRST_BYTE: u8 = 32;

const LAST_BYTE: u8 = 126;

// Where a line's first three fields end. A withdrawal has two, and its second one ends with the line.
#[derive(Clone, Copy)]
struct Form {
    first: usize,
    second: usize,
    third: usize,
}

// What a line says: the student that it withdraws, or a hand-in, and where its sets begin.
#[derive(Clone, Copy)]
pub enum LineRead {
    Withdrawal(u64),
    Attempt(AttemptRead, usize),
}

// A no with its field.
fn no(refusal: Refusal, place: u64) -> FieldRefusal
    ensures { result ≡ record { refusal = refusal; place = place } }
{
    FieldRefusal { refusal, place }
}

#[tactic(auto, unfolding(handin_format::specs::Lines::is_line_byte))]
fn is_line_byte(b: u8) -> bool
    ensures { result ≡ is_line_byte b }
{
    (FIRST_BYTE..=LAST_BYTE).contains(&b)
}

// Question 2: has the line only bytes 32 to 126?
fn is_line(l: &[u8]) -> bool
    ensures { result ≡ all is_line_byte l.now }
{
    l.iter().all(|b| is_line_byte(*b))
}

// Question 4: which field is the first empty one, counted from 1?
fn first_empty(l: &[u8]) -> Option<u64>
    ensures { FirstEmpty l.now result }
{
    let empty = l.split(|b| *b == SPACE).position(|f| f.is_empty())?;
    Some(empty as u64 + 1)
}

// Question 4, once no field is empty: is none missing? Where the first three fields end.
fn cut_fields(l: &[u8]) -> Result<Form, FieldRefusal>
    ensures { CutsFields l.now (form_found result) }
{
    let n = l.len();
    let first = sheet_fields::find(l, 0, SPACE);
    if n <= first {
        return Err(no(Refusal::Fields, 2));
    }
    let second = sheet_fields::find(l, first + 1, SPACE);
    if second < n {
        let third = sheet_fields::find(l, second + 1, SPACE);
        return Ok(Form {
            first,
            second,
            third,
        });
    }
    if sheet_lines::same_text(&l[first + 1..second], b"withdraw") {
        return Ok(Form {
            first,
            second,
            third: second,
        });
    }
    Err(no(Refusal::Fields, 3))
}

// The questions 2 and 4.
fn form_of(l: &[u8]) -> Result<Form, FieldRefusal>
    ensures { FormOf l.now (form_found result) }
{
    if !is_line(l) {
        return Err(no(Refusal::NoText, 0));
    }
    match first_empty(l) {
        Some(place) => Err(no(Refusal::Fields, place)),
        None => cut_fields(l),
    }
}

// A way: `open` or `lock`; true for `lock`.
fn way_of(f: &[u8]) -> Option<bool>
    ensures { ReadsWay f.now (way_field result) }
{
    if sheet_lines::same_text(f, b"lock") {
        return Some(true);
    }
    if sheet_lines::same_text(f, b"open") {
        return Some(false);
    }
    None
}

// A hand-in: its target, its way, and its sets.
fn check_attempt(
    l: &[u8],
    form: Form,
    student: u64,
    keys: &ItemKeys,
) -> Result<LineRead, FieldRefusal>
    requires attempt_places { AttemptPlaces l.now (form_found (Ok form)) }
    ensures { ChecksAttempt keys.now.low keys.now.high keys.now.count l.now (form_found (Ok form)) student (line_found result) }
{
    let name = &l[form.first + 1..form.second];
    let target = match by_name::item_of(name, &keys.low, &keys.high, keys.count) {
        Ok(item) => item,
        Err(refusal) => return Err(no(refusal, 2)),
    };
    let loss = match way_of(&l[form.second + 1..form.third]) {
        Some(loss) => loss,
        None => return Err(no(Refusal::Form, 3)),
    };
    let start = form.third + 1;
    let count = sets::check_handed(l, start, &keys.low, &keys.high, keys.count)?;
    let attempt = AttemptRead {
        student,
        target,
        loss,
        count,
    };
    Ok(LineRead::Attempt(attempt, start))
}

// What the line says, or its first no.
pub fn check_line(l: &[u8], keys: &ItemKeys) -> Result<LineRead, FieldRefusal>
    ensures { ChecksLine keys.now.low keys.now.high keys.now.count l.now (line_found result) }
{
    let form = form_of(l)?;
    let student = match sheet_fields::read_number(&l[..form.first]) {
        Some(student) => student,
        None => return Err(no(Refusal::Form, 1)),
    };
    if form.second < l.len() {
        return check_attempt(l, form, student, keys);
    }
    Ok(LineRead::Withdrawal(student))
}
