// The fields of a sheet's rows: cutting a line into them, and reading each.

#![tactic(auto)]

ghost use Rattle.std.specs.Prelude.{◌≡◌, [], ◌∷◌, ◌+◌, ◌≤◌, length, drop};
ghost use Rattle.setup.specs.Bounds.{largest};
ghost use Rattle.sheet_format.specs.Fields.{is_name_byte, is_name, is_number_to, number_of, is_kind, kind_of, is_value, field_value};
ghost use Rattle.sheet_fields.specs.Inner.Parts.{until, end_at, CutsFour};
ghost use Rattle.sheet_fields.specs.Inner.Forms.{read_if, more_digits};
ghost use Rattle.sheet_fields.specs.Inner.Keys.{packed_bytes, key_of};

use setup::{Kind, MAX_VALUE};

pub const SPACE: u8 = b' ';

pub const LF: u8 = b'\n';

// The longest name, and how many of its bytes one number of its key holds.
const NAME_BYTES: usize = 16;

const WORD_BYTES: usize = 8;

// A name as two numbers, so that two names are compared without a loop.
#[derive(Clone, Copy, PartialEq, Eq)]
pub struct Key {
    pub low: u64,
    pub high: u64,
}

// Where the first three of four fields end.
#[derive(Clone, Copy)]
pub struct Cut {
    pub first: usize,
    pub second: usize,
    pub third: usize,
}

// The place of the next byte b from `at` on; the text's end where there is none.
pub fn find(s: &[u8], at: usize, b: u8) -> usize
    ensures { result ≡ at + until b (drop at s.now) }
{
    let rest = &s[at.min(s.len())..];
    at + rest.iter().position(|x| *x == b).unwrap_or(rest.len())
}

// The end of the field that begins at `at`, where it is not empty and another one follows.
pub fn end_of_field(l: &[u8], at: usize) -> Option<usize>
    ensures { result ≡ end_at l.now at }
{
    let end = find(l, at, SPACE);
    if at < end && end < l.len() {
        Some(end)
    } else {
        None
    }
}

// Cuts a line into four fields, none empty.
pub fn cut_four(l: &[u8]) -> Option<Cut>
    ensures { CutsFour l.now result }
{
    let first = end_of_field(l, 0)?;
    let second = end_of_field(l, first + 1)?;
    let third = end_of_field(l, second + 1)?;
    let last = third + 1;
    let end = find(l, last, SPACE);
    if last == l.len() || end < l.len() {
        return None;
    }
    Some(Cut {
        first,
        second,
        third,
    })
}

#[tactic(auto, using(std::proofs::lemmas::Bool::Decides::nat_tests), unfolding(sheet_format::specs::Fields::is_name_byte, sheet_format::specs::Fields::is_digit))]
fn is_name_byte(b: u8) -> bool
    ensures { result ≡ is_name_byte b }
{
    matches!(b, b'a'..=b'z' | b'0'..=b'9' | b'_')
}

fn is_name(f: &[u8]) -> bool
    ensures { result ≡ is_name f.now }
{
    !f.is_empty() && f.len() <= NAME_BYTES && f.iter().all(|b| is_name_byte(*b))
}

// The number n with one more digit behind it, where b is a digit and the number not too large.
#[tactic(auto, using(std::proofs::lemmas::Bool::Decides::nat_tests), unfolding(crate::specs::Inner::Forms::more_digits, sheet_format::specs::Fields::is_digit))]
fn with_digit(n: u64, b: u8) -> Option<u64>
    requires { n ≤ largest }
    ensures { result ≡ more_digits n (b ∷ []) }
{
    if !b.is_ascii_digit() {
        return None;
    }
    let next = n * 10 + u64::from(b - b'0');
    if next <= MAX_VALUE { Some(next) } else { None }
}

// The number that a field states, where it is one and not too large. The field may have any length:
// the first digit too many ends the reading, and nothing overflows.
pub fn read_number(f: &[u8]) -> Option<u64>
    ensures { result ≡ read_if (is_number_to largest f.now) (number_of f.now) }
{
    if f.is_empty() {
        return None;
    }
    if f[0] == b'0' && f.len() != 1 {
        return None;
    }
    let mut n = 0;
    for b in f {
        n = with_digit(n, *b)?;
    }
    Some(n)
}

// A kind: `c` for a credential, `a` for an account.
pub fn read_kind(f: &[u8]) -> Option<Kind>
    ensures { result ≡ read_if (is_kind f.now) (kind_of f.now) }
{
    match f {
        b"c" => Some(Kind::Credential),
        b"a" => Some(Kind::Account),
        _ => None,
    }
}

// A start or loss value: `-`, or a number up to the largest.
pub fn read_value(f: &[u8]) -> Option<Option<u64>>
    ensures { result ≡ read_if (is_value f.now) (field_value f.now) }
{
    if f == b"-".as_slice() {
        return Some(None);
    }
    let n = read_number(f)?;
    Some(Some(n))
}

// At most eight bytes as one number, the first byte lowest.
fn pack(f: &[u8]) -> u64
    requires { length f.now ≤ 8 }
    ensures { result ≡ packed_bytes f.now }
{
    let mut n: u64 = 0;
    // By index, from the last byte down: an array of eight bytes would be one more place in which the crates
    // that write rows could build a row.
    for i in (0..f.len()).rev() {
        n = n * 256 + u64::from(f[i]);
    }
    n
}

fn key_of(name: &[u8]) -> Key
    requires { length name.now ≤ 16 }
    ensures { result ≡ key_of name.now }
{
    let (low, high) = name.split_at(name.len().min(WORD_BYTES));
    Key {
        low: pack(low),
        high: pack(high),
    }
}

// A name: 1 to 16 bytes of a-z, 0-9 and `_`.
pub fn read_name(f: &[u8]) -> Option<Key>
    ensures { result ≡ read_if (is_name f.now) (key_of f.now) }
{
    if is_name(f) { Some(key_of(f)) } else { None }
}
