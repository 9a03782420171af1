// A sheet (document 01): what it says, or the first question whose answer is no; and item names.

#![tactic(auto)]

ghost use Rattle.std.specs.Prelude.{◌≡◌, ◌+◌, ◌≤◌};
ghost use Rattle.sheet_format.specs.Read.{reading, read_sheet};
ghost use Rattle.sheet_format.specs.Names.{name_of, name_start};
ghost use Rattle.sheet.specs.Inner.Rest.{ReadsRest};

use questions::Refusal;
use setup::Setup;
use sheet_fields::LF;
use sheet_format::SheetRefusal;
use sheet_items::Items;
use vertex_set::VertexSet;

// One byte more than a sheet may have tells that it is too long.
pub const READ_ROOM: usize = setup::MAX_BYTES + 1;

// The second header and the edge rows.
fn read_rest(s: &[u8], items: &Items) -> Result<Setup, SheetRefusal>
    requires { items.now.line ≤ 66 }
    ensures { ReadsRest s.now items.now (reading result) }
{
    let line = items.line + 1;
    if s.len() <= items.at {
        return Err(SheetRefusal {
            refusal: Refusal::NoEdgePart,
            line,
        });
    }
    let end = sheet_fields::find(s, items.at, LF);
    if !sheet_lines::is_second_header(&s[items.at..end]) {
        return Err(SheetRefusal {
            refusal: Refusal::Header,
            line,
        });
    }
    let edges = sheet_edges::read_edges(s, end + 1, line + 1, &items.keys)?;
    Ok(Setup {
        count: items.keys.count,
        vertices: items.vertices,
        graph: edges.graph,
        recovery: edges.recovery,
        held: VertexSet(0),
        opened: VertexSet(0),
    })
}

// What a sheet says, or the first question whose answer is no, and its line.
pub fn read_sheet(sheet: &[u8]) -> Result<Setup, SheetRefusal>
    ensures { reading result ≡ read_sheet sheet.now }
{
    if setup::MAX_BYTES < sheet.len() {
        return Err(SheetRefusal {
            refusal: Refusal::TooLong,
            line: 0,
        });
    }
    if !sheet_lines::is_text(sheet) {
        return Err(SheetRefusal {
            refusal: Refusal::NoText,
            line: 0,
        });
    }
    let end = sheet_fields::find(sheet, 0, LF);
    if !sheet_lines::is_first_header(&sheet[..end]) {
        return Err(SheetRefusal {
            refusal: Refusal::Header,
            line: 1,
        });
    }
    let items = sheet_items::read_items(sheet, end + 1)?;
    read_rest(sheet, &items)
}

// An item's name, as the part of the sheet's own bytes that holds it; for a refused sheet or an
// item that isn't there, the empty part at the sheet's start.
pub fn name_of(sheet: &[u8], item: usize) -> &[u8]
    ensures name { result.now ≡ name_of sheet.now item }
    ensures within { result.ref_ptr.0 ≡ sheet.entry.ref_ptr.0 }
    ensures place { result.ref_ptr.1 ≡ sheet.entry.ref_ptr.1 + name_start sheet.now item }
{
    let Ok(setup) = read_sheet(sheet) else {
        return &sheet[..0];
    };
    if setup.count <= item {
        return &sheet[..0];
    }
    let span = sheet_lines::names::name_span(sheet, item);
    &sheet[span.from..span.to]
}
