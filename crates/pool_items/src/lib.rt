// The item rows of two accepted sheets that are pooled: which items are in both, whether these agree, and
// what remains of the second sheet.

#![tactic(auto)]

ghost use Rattle.std.specs.Prelude.{◌≡◌, None, ◌≤◌, replicate};
ghost use Rattle.vertex_set.specs.Set.{Decides};
ghost use Rattle.pool_items.specs.Inner.Keys.{PlacesInside, KeyPlaces};
ghost use Rattle.pool_items.specs.Inner.Items.{AllAgree, Small, WithItem, PlacesRise, CountsRemaining};

use setup::Vertex;
use sheet_fields::Key;
use sheet_rows::ItemKeys;

// Of the items that remain: how many there are, how many of them are starting and losable ones, and
// how many bytes their rows have.
#[derive(Clone, Copy)]
pub struct Remaining {
    pub items: usize,
    pub starts: usize,
    pub losses: usize,
    pub bytes: usize,
}

impl Remaining {
    // The counts with one item more, whose row has `size` bytes.
    fn with(self, x: Vertex, size: usize) -> Remaining
        requires { Small self size }
        ensures { WithItem self x size result }
    {
        Remaining {
            items: self.items + 1,
            starts: self.starts + setup::count_given(x.start),
            losses: self.losses + setup::count_given(x.loss),
            bytes: self.bytes + size,
        }
    }
}

// The second sheet's items, each with its number in the first sheet, if it is there.
#[derive(Clone, Copy)]
pub struct Shared {
    pub count: usize,
    pub places: [Option<usize>; 64],
    pub ghost few: { count ≤ 64 },
    pub ghost inside: { PlacesInside places },
}

impl Shared {
    // The second sheet's items are looked up in the first sheet.
    pub fn of(first: &ItemKeys, second: &ItemKeys) -> Shared
        ensures count { result.count ≡ second.now.count }
        ensures places { KeyPlaces first.now second.now result.places }
    {
        let mut places = [None; 64];
        // By number, since the two halves of a key stand in two lists.
        for j in 0..second.count {
            let key = Key {
                low: second.low[j],
                high: second.high[j],
            };
            places[j] = first.find(key);
        }
        Shared {
            count: second.count,
            places,
        }
    }

    // None of `count` items is in the first sheet.
    pub fn none(count: usize) -> Shared
        requires { count ≤ 64 }
        ensures count { result.count ≡ count }
        ensures places { result.places ≡ replicate 64 None }
    {
        Shared {
            count,
            places: [None; 64],
        }
    }

    // Does each item that is in both sheets agree with the one there?
    pub fn all_agree(&self, first: &[Vertex; 64], second: &[Vertex; 64]) -> bool
        ensures { Decides (AllAgree first.now second.now self.now.count self.now.places) result }
    {
        for (j, place) in self.places[..self.count].iter().enumerate() {
            if let Some(i) = *place {
                if first[i] != second[j] {
                    return false;
                }
            }
        }
        true
    }

    // Counts the items that are not in the first sheet.
    pub fn count_remaining(&self, vertices: &[Vertex; 64], from: &[usize; 65]) -> Remaining
        requires { PlacesRise from.now self.now.count }
        ensures { CountsRemaining vertices.now self.now.count self.now.places from.now result }
    {
        let mut r = Remaining {
            items: 0,
            starts: 0,
            losses: 0,
            bytes: 0,
        };
        for (j, place) in self.places[..self.count].iter().enumerate() {
            let remains = place.is_none();
            if remains {
                r = r.with(vertices[j], from[j + 1] - from[j]);
            }
        }
        r
    }
}
