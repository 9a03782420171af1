// The sets of a hand-in line: each field from a place on is one. There are none where the place is behind
// the line's end.
ghost use Rattle.std.specs.Prelude.{◌≤◌, length};
ghost use Rattle.handin_lines.specs.Inner.Splitting.{split_from};
ghost use Rattle.handin_lines.specs.Inner.Sets.{checked, ChecksSets, ChecksHanded, PutsSets};

use super::by_name;
use handin_format::FieldRefusal;
use questions::Refusal;
use sheet_fields::SPACE;
use sheet_rows::ItemKeys;

// The field that the first set of a line stands in.
const FIRST_SET: u64 = 4;

// The most sets of one line: as many as 14 items have subsets.
pub const MAX_HANDED: usize = 16384;

// Are all the fields sets? How many they are. Here and below line, place and keys are no struct: the keys are the
// sheet's, and the place is of one line.
fn check_sets(
    l: &[u8],
    start: usize,
    low: &[u64],
    high: &[u64],
    count: usize,
) -> Result<usize, FieldRefusal>
    requires { (count ≤ length low.now) × (count ≤ length high.now) × (count ≤ 64) }
    ensures { ChecksSets low.now high.now count l.now start (checked result) }
{
    let Some(rest) = l.get(start..) else {
        return Ok(0);
    };
    let mut n: usize = 0;
    for field in rest.split(|b| *b == SPACE) {
        if let Err(refusal) = by_name::set_among(field, low, high, count) {
            return Err(FieldRefusal {
                refusal,
                place: FIRST_SET + n as u64,
            });
        }
        n += 1;
    }
    Ok(n)
}

// The same, and last 7: are there at most as many as a line may have?
pub fn check_handed(
    l: &[u8],
    start: usize,
    low: &[u64],
    high: &[u64],
    count: usize,
) -> Result<usize, FieldRefusal>
    requires { (count ≤ length low.now) × (count ≤ length high.now) × (count ≤ 64) }
    ensures { ChecksHanded low.now high.now count l.now start (checked result) }
{
    let handed = check_sets(l, start, low, high, count)?;
    if MAX_HANDED < handed {
        return Err(FieldRefusal {
            refusal: Refusal::Bound,
            place: 0,
        });
    }
    Ok(handed)
}

// Writes the sets to the start of the lent list, and tells how many they are. All of them have been
// checked; of a field that names no set 0 is written.
pub fn put_sets(l: &[u8], start: usize, keys: &ItemKeys, out: &mut [u64]) -> usize
    requires { length (split_from 32 start l.now) ≤ length out.old }
    ensures { PutsSets keys.now.low keys.now.high keys.now.count l.now start result out.old out.new }
{
    let Some(rest) = l.get(start..) else {
        return 0;
    };
    let mut n: usize = 0;
    for field in rest.split(|b| *b == SPACE) {
        out[n] = by_name::set_of(field, keys).unwrap_or(0);
        n += 1;
    }
    n
}
