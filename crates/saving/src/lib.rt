// A drawing is saved: the sheet of a setup, under the names of a sheet that has at least its items.

#![tactic(auto)]

ghost use Rattle.std.specs.Prelude.{[], ◌∷◌};
ghost use Rattle.questions.specs.Told.{Told};
ghost use Rattle.sheet_format.specs.Names.{name_of};
ghost use Rattle.save_format.specs.Call.{save_call};
ghost use Rattle.save_format.specs.Inner.{saved_text};
ghost use Rattle.save_format.specs.Call.{saved};
ghost use Rattle.writing.specs.Inner.HandOut.{HandsOut};
ghost use Rattle.saving.specs.Inner.{CanSave};

use questions::Refusal;
use report_facts::names;
use report_rows::fields::ItemNames;
use setup::Setup;

// No sheet is longer.
pub const SAVE_BYTES: usize = 11626;

// Saves a setup all of whose items have names. How long the text is, is known when it stands; so it
// is written elsewhere first, and the lent buffer is not touched where it is too short.
// Its parameters are those of `write_sheet`, which is offered. It is not inlined: reading a sheet and writing one do not need their places on the stack at once.
#[inline(never)]
fn save_named(sheet: &[u8], s: Setup, out: &mut [u8]) -> Option<usize>
    requires { CanSave sheet.now s }
    ensures { HandsOut (saved_text (name_of sheet.now) s) result out.old out.new }
{
    let places = names::name_places(sheet, s.count);
    let names = ItemNames {
        sheet,
        from: &places.from,
        to: &places.to,
    };
    let mut text = [0u8; SAVE_BYTES];
    let size = save_text::put_sheet(names, &s, &mut text);
    writing::hand_out(&text[..size], out)
}

// Writes the sheet of the setup to the start of the lent buffer, and tells how many bytes it has. Held
// items are no part of a sheet. A refused sheet gives its number; else 12; 13 where the setup has more
// items than the sheet; 15 where the buffer is shorter than the text.
pub fn write_sheet(sheet: &[u8], s: Setup, out: &mut [u8]) -> Result<usize, Refusal>
    ensures { Told (save_call sheet.now s out.old) (saved result).number ((saved result).length ∷ []) (out.new ∷ []) }
{
    let names = match sheet::read_sheet(sheet) {
        Ok(setup) => setup.count,
        Err(refused) => return Err(refused.refusal),
    };
    if !formed::well_formed(s) {
        return Err(Refusal::NoSetup);
    }
    let count = s.count;
    if names < count {
        return Err(Refusal::NoItem);
    }
    save_named(sheet, s, out).ok_or(Refusal::Short)
}
