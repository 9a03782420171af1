// The keys of the names of a sheet's items, for callers that know the sheet to be accepted: a name is
// then looked up without a second reading.
ghost use Rattle.std.specs.Prelude.{◌≡◌, IfOk};
ghost use Rattle.sheet_format.specs.Text.{fields_of};
ghost use Rattle.sheet_format.specs.Questions.{question4, question5_item};
ghost use Rattle.sheet_rows.specs.Inner.Lines.{read_line, item_line};
ghost use Rattle.sheet_lines.specs.Inner.Keys.{HasLines, SheetKeys};

use sheet_fields::{Key, LF};
use sheet_rows::{ItemKeys, NO_KEYS};

// The keys of the names of a sheet's items, and where each item's row begins; behind the last of
// them the place of the empty line.
#[derive(Clone, Copy)]
pub struct Keys {
    pub keys: ItemKeys,
    pub from: [usize; 65],
}

// The key of an item row's name. An accepted sheet has no other row there: of such a row the key says
// nothing.
fn row_key(l: &[u8]) -> Key
    ensures { IfOk (read_line (question4 5 (fields_of l.now)) (question5_item (fields_of l.now)) (item_line (fields_of l.now))) (λ item. result ≡ item.key) }
{
    match sheet_rows::read_item(l) {
        Ok(item) => item.key,
        Err(_) => Key { low: 0, high: 0 },
    }
}

// The keys of the first `count` items: each row is a line below the header.
pub fn keys_of(s: &[u8], count: usize) -> Keys
    requires { HasLines s.now count }
    ensures { SheetKeys s.now count result }
{
    let mut keys = NO_KEYS;
    let mut from = [0usize; 65];
    let mut at = sheet_fields::find(s, 0, LF) + 1;
    // By place: where each row begins is handed out too.
    for v in 0..count {
        let end = sheet_fields::find(s, at, LF);
        let key = row_key(&s[at..end]);
        keys.push(key);
        from[v] = at;
        at = end + 1;
    }
    from[count] = at;
    Keys { keys, from }
}
