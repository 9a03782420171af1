// Where the names of a sheet's items stand in it.
ghost use Rattle.report_facts.specs.Inner.Places.{HasItems, NamesPlaced};

// The name of the vertex v stands from from[v] up to to[v].
#[derive(Drop)]
pub struct Names {
    pub from: [usize; 64],
    pub to: [usize; 64],
}

// The names of the first `count` items: each is the first field of a line below the header.
pub fn name_places(sheet: &[u8], count: usize) -> Names
    requires { HasItems sheet.now count }
    ensures { NamesPlaced sheet.now count result }
{
    let mut from = [0usize; 64];
    let mut to = [0usize; 64];
    let mut at = sheet_fields::find(sheet, 0, sheet_fields::LF) + 1;
    // By index: the two lists are filled side by side, from one place in the sheet to the next.
    for v in 0..count {
        let stop = sheet_fields::find(sheet, at, sheet_fields::LF);
        from[v] = at;
        to[v] = at + sheet_fields::find(&sheet[at..stop], 0, sheet_fields::SPACE);
        at = stop + 1;
    }
    Names { from, to }
}
