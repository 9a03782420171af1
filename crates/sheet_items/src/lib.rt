// All item rows of a sheet.

#![tactic(auto)]

ghost use Rattle.sheet_items.specs.Inner.Items.{ReadsItems};

use questions::Refusal;
use setup::Vertex;
use sheet_fields::LF;
use sheet_format::SheetRefusal;
use sheet_rows::{ItemKeys, NO_KEYS};

// The item rows up to the empty line: their vertices, and the keys of their names. The empty line is
// the line `line`, and behind it the reading goes on at the place `at`.
#[derive(Clone, Copy)]
pub struct Items {
    pub line: u64,
    pub at: usize,
    pub vertices: [Vertex; 64],
    pub keys: ItemKeys,
}

// Reads the item rows, from `start` to the empty line. Each turn takes one line, and where the next
// one begins is known only then: so this is no `for`. What is read is kept where it goes out, since a
// move copies some kilobytes; and the frame is given back before the edge rows are read.
#[inline(never)]
pub fn read_items(s: &[u8], start: usize) -> Result<Items, SheetRefusal>
    ensures { ReadsItems s.now start result }
{
    let mut items = Items {
        line: 2,
        at: start,
        vertices: [setup::UNUSED; 64],
        keys: NO_KEYS,
    };
    let mut starts: usize = 0;
    let mut losses: usize = 0;
    while items.at < s.len() {
        let at = items.at;
        let line = items.keys.count as u64 + 2;
        let end = sheet_fields::find(s, at, LF);
        if end == at {
            if items.keys.count == 0 {
                let refusal = Refusal::NoRows;
                return Err(SheetRefusal { refusal, line });
            }
            items.line = line;
            items.at = end + 1;
            return Ok(items);
        }
        let item = sheet_rows::take_item(&s[at..end], &items.keys, starts, losses).map_err(
            |refusal| SheetRefusal { refusal, line },
        )?;
        items.vertices[items.keys.count] = item.vertex;
        items.keys.push(item.key);
        starts = item.starts;
        losses = item.losses;
        items.at = end + 1;
    }
    let refusal = Refusal::NoEdgePart;
    let line = items.keys.count as u64 + 2;
    Err(SheetRefusal { refusal, line })
}
