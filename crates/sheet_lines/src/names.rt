// Where the names of a sheet's items stand, for callers that know the sheet to be accepted: a name
// is then found without a second reading.
ghost use Rattle.std.specs.Prelude.{◌≡◌, ◌≤◌, ◌<◌};
ghost use Rattle.sheet_format.specs.Text.{lines_of};
ghost use Rattle.sheet_format.specs.Names.{line_start};
ghost use Rattle.sheet_lines.specs.Inner.Span.{span_of};

use sheet_fields::{LF, SPACE};

// The part of a sheet from `from` up to, not including, `to`.
#[derive(Drop)]
pub struct Span {
    pub from: usize,
    pub to: usize,
}

// Where line k begins, counted from 0.
fn line_start(s: &[u8], k: usize) -> usize
    requires { k ≤ 64 }
    ensures { result ≡ line_start (lines_of s.now) k }
{
    let mut at = 0;
    for _line in 0..k {
        if s.len() <= at {
            return at;
        }
        at = sheet_fields::find(s, at, LF) + 1;
    }
    at
}

// The first field of the item's row. The item's bound stays a clause: it is the number of a line at once.
pub fn name_span(s: &[u8], item: usize) -> Span
    requires { item < 64 }
    ensures { result ≡ span_of s.now item }
{
    let from = line_start(s, item + 1);
    if s.len() <= from {
        return Span { from, to: from };
    }
    let end = sheet_fields::find(s, from, LF);
    let size = sheet_fields::find(&s[from..end], 0, SPACE);
    Span {
        from,
        to: from + size,
    }
}
