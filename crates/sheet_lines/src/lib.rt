// The lines of a sheet: the test of the whole text, and the headers; in `names`, where an item's name
// stands; in `item_keys`, the keys of all names.

#![tactic(auto)]

pub mod item_keys;
pub mod names;

ghost use Rattle.std.specs.Prelude.{◌≡◌};
ghost use Rattle.sheet_format.specs.Text.{same_text};
ghost use Rattle.sheet_format.specs.Rows.{first_header, second_header};
ghost use Rattle.sheet_format.specs.Questions.{is_text_byte, question2, question3};

use sheet_fields::LF;

// Beside LF a text has the bytes from the first to the last of these.
const FIRST_BYTE: u8 = 32;

const LAST_BYTE: u8 = 126;

#[tactic(auto, using(std::proofs::lemmas::Bool::Decides::nat_tests), unfolding(sheet_format::specs::Questions::is_text_byte))]
fn is_text_byte(b: u8) -> bool
    ensures { result ≡ is_text_byte b }
{
    b == LF || (FIRST_BYTE..=LAST_BYTE).contains(&b)
}

// Question 2: has the text a byte, only LF and bytes 32 to 126, and LF last?
pub fn is_text(s: &[u8]) -> bool
    ensures { result ≡ question2 s.now }
{
    let Some(last) = s.last() else {
        return false;
    };
    *last == LF && s.iter().all(|b| is_text_byte(*b))
}

// Are the two texts the same? This is `==` of slices, in the words that the definitions use.
pub fn same_text(s: &[u8], t: &[u8]) -> bool
    ensures { result ≡ same_text s.now t.now }
{
    s == t
}

pub fn is_first_header(l: &[u8]) -> bool
    ensures { result ≡ question3 first_header l.now }
{
    same_text(l, b"name kind start loss rank")
}

pub fn is_second_header(l: &[u8]) -> bool
    ensures { result ≡ question3 second_header l.now }
{
    same_text(l, b"from to colour rec")
}
