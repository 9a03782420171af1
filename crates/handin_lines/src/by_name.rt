// Items and sets by their names: an item's name, and a set as names joined by `+`. A name is looked up
// among the keys of a sheet's item names: the first `count` of two lists, of lower and of higher halves.
ghost use Rattle.std.specs.Prelude.{◌≡◌, ◌≤◌, length};
ghost use Rattle.sheet_rows.specs.Inner.NameKeys.{place_in};
ghost use Rattle.handin_lines.specs.Inner.Naming.{NamesItem, set_field, TakesName, ReadsNames};

use questions::Refusal;
use sheet_fields::Key;
use sheet_rows::ItemKeys;

// The item that has a name with this key.
fn find_name(low: &[u64], high: &[u64], count: usize, key: Key) -> Option<usize>
    requires { (count ≤ length low.now) × (count ≤ length high.now) }
    ensures { result ≡ place_in low.now high.now count key }
{
    low[..count]
        .iter()
        .zip(&high[..count])
        .position(|(a, b)| *a == key.low && *b == key.high)
}

// The item with this name.
pub fn item_of(l: &[u8], low: &[u64], high: &[u64], count: usize) -> Result<usize, Refusal>
    requires { (count ≤ length low.now) × (count ≤ length high.now) }
    ensures { NamesItem low.now high.now count l.now result }
{
    let key = sheet_fields::read_name(l).ok_or(Refusal::Form)?;
    let item = find_name(low, high, count, key).ok_or(Refusal::NameUnknown)?;
    Ok(item)
}

// The set x with the item of this name.
fn take_name(x: u64, l: &[u8], low: &[u64], high: &[u64], count: usize) -> Result<u64, Refusal>
    requires { (count ≤ length low.now) × (count ≤ length high.now) × (count ≤ 64) }
    ensures { TakesName low.now high.now count x l.now (set_field result) }
{
    let v = item_of(l, low, high, count)?;
    if (x >> v) % 2 == 1 {
        return Err(Refusal::NameUsed);
    }
    Ok(x | (1 << v))
}

// The set that the text names: `-` is the empty one.
pub(crate) fn set_among(l: &[u8], low: &[u64], high: &[u64], count: usize) -> Result<u64, Refusal>
    requires { (count ≤ length low.now) × (count ≤ length high.now) × (count ≤ 64) }
    ensures { ReadsNames low.now high.now count l.now (set_field result) }
{
    if sheet_lines::same_text(l, b"-") {
        return Ok(0);
    }
    let mut x: u64 = 0;
    for name in l.split(|b| *b == b'+') {
        x = take_name(x, name, low, high, count)?;
    }
    Ok(x)
}

// The same, among a sheet's keys.
pub fn set_of(l: &[u8], keys: &ItemKeys) -> Result<u64, Refusal>
    ensures { ReadsNames keys.now.low keys.now.high keys.now.count l.now (set_field result) }
{
    set_among(l, &keys.low, &keys.high, keys.count)
}
