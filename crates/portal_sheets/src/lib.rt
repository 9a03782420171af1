// The portal's calls on sheets, for C: reading a sheet into a buffer, an item's name, pooling, and
// the sheet of a setup. Beside them the version of the portal's calls. Their parameters are what C hands over.

#![tactic(auto)]

ghost use Rattle.std.specs.Prelude.{◌≡◌, [], ◌∷◌};
ghost use Rattle.questions.specs.Told.{Told};
ghost use Rattle.questions.specs.Refusals.{number};
ghost use Rattle.pool_format.specs.Call.{PoolCall};
ghost use Rattle.save_format.specs.Call.{save_call};
ghost use Rattle.portal_words.specs.Words.{setup_in};
ghost use Rattle.portal_sheets.specs.Reading.{version, ReadingCall, name_call};

use portal_words::SETUP_WORDS;
use questions::Refusal;
use sheet_format::SheetRefusal;

#[repr(C)]
#[derive(Drop)]
pub struct ReadResult {
    pub number: u64,
    pub line: u64,
}

#[repr(C)]
#[derive(Drop)]
pub struct NameResult {
    pub number: u64,
    pub start: u64,
    pub length: u64,
}

// What pooling answers. Number 0: the pooled sheet has `length` bytes. Else a refusal: the sheet that
// was refused, 1 or 2, with its line, or 0 and 0 where neither was; and length 0.
#[repr(C)]
#[derive(Drop)]
pub struct PoolResult {
    pub number: u64,
    pub sheet: u64,
    pub line: u64,
    pub length: u64,
}

// What saving answers. Number 0: the sheet of the setup has `length` bytes. Else a refusal, and
// length 0.
#[repr(C)]
#[derive(Drop)]
pub struct WriteSheetResult {
    pub number: u64,
    pub length: u64,
}

// Version 4.1.0.
const VERSION: u64 = 40100;

// The version of the calls that this library has.
#[unsafe(no_mangle)]
pub extern "C" fn portal_version() -> u64
    ensures { result ≡ version }
{
    VERSION
}

impl From<SheetRefusal> for ReadResult {
    ghost from_gives = { λ refused r. (r.number ≡ number refused.refusal) × (r.line ≡ refused.line) };

    fn from(refused: SheetRefusal) -> ReadResult {
        ReadResult {
            number: refused.refusal.number(),
            line: refused.line,
        }
    }
}

// Reads a sheet: its number and line; the setup's words go to the front of the lent buffer. The
// sheet's own questions come before question 15, which asks for the buffer's room. The words behind a
// refused sheet are those of no items.
#[unsafe(no_mangle)]
pub extern "C" fn portal_read(sheet: &[u8], setup: &mut [u64]) -> ReadResult
    ensures { ReadingCall sheet.now result.number result.line setup.old setup.new }
{
    let reading = sheet::read_sheet(sheet);
    if setup.len() < SETUP_WORDS {
        return match reading {
            Ok(_) => ReadResult {
                number: Refusal::Short.number(),
                line: 0,
            },
            Err(refused) => ReadResult::from(refused),
        };
    }
    match reading {
        Ok(s) => {
            portal_words::put_setup(s, setup, 0);
            ReadResult { number: 0, line: 0 }
        }
        Err(refused) => {
            portal_words::put_setup(portal_words::no_items(), setup, 0);
            ReadResult::from(refused)
        }
    }
}

impl NameResult {
    // Why there is no name.
    fn refused(refusal: Refusal) -> NameResult
        ensures { result ≡ record { number = number refusal; start = 0; length = 0 } }
    {
        NameResult {
            number: refusal.number(),
            start: 0,
            length: 0,
        }
    }
}

// An item's name, as the part of the sheet's own bytes that holds it.
#[unsafe(no_mangle)]
pub extern "C" fn portal_name(sheet: &[u8], item: u64) -> NameResult
    ensures { Told (name_call sheet.now item) result.number (result.start ∷ result.length ∷ []) [] }
{
    match sheet::read_sheet(sheet) {
        Ok(s) => {
            if s.count <= item as usize {
                return NameResult::refused(Refusal::NoItem);
            }
            let span = sheet_lines::names::name_span(sheet, item as usize);
            NameResult {
                number: 0,
                start: span.from as u64,
                length: (span.to - span.from) as u64,
            }
        }
        Err(refused) => NameResult::refused(refused.refusal),
    }
}

// Writes the pooled sheet of two sheets to the start of the lent buffer.
#[unsafe(no_mangle)]
pub extern "C" fn portal_pool(first: &[u8], second: &[u8], out: &mut [u8]) -> PoolResult
    ensures { PoolCall first.now second.now (record { number = result.number; sheet = result.sheet; line = result.line; size = result.length }) out.old out.new }
{
    let pooled = pooling::pool_sheets(first, second, out);
    match pooled {
        Ok(size) => PoolResult {
            number: 0,
            sheet: 0,
            line: 0,
            length: size as u64,
        },
        Err(no) => PoolResult {
            number: no.refusal.number(),
            sheet: no.sheet,
            line: no.line,
            length: 0,
        },
    }
}

// Writes the sheet of a setup, under the names of a sheet, to the start of the lent buffer.
#[unsafe(no_mangle)]
pub extern "C" fn portal_write_sheet(
    sheet: &[u8],
    setup: &[u64],
    out: &mut [u8],
) -> WriteSheetResult
    ensures { Told (save_call sheet.now (setup_in setup.now) out.old) result.number (result.length ∷ []) (out.new ∷ []) }
{
    let s = portal_words::setup_in(setup);
    let saved = saving::write_sheet(sheet, s, out);
    match saved {
        Ok(length) => WriteSheetResult {
            number: 0,
            length: length as u64,
        },
        Err(refusal) => WriteSheetResult {
            number: refusal.number(),
            length: 0,
        },
    }
}
