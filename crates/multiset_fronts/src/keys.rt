// The two keys of a set, by which it is compared at all thresholds.

ghost use Rattle.std.specs.Prelude.{◌≡◌};
ghost use Rattle.multiset_keys.specs.Inner.{CountKey, count_key_prop};

#[derive(Clone, Copy)]
pub struct Keys {
    pub first: u64,
    pub second: u64,
    pub ghost is_first: { CountKey first } by { count_key_prop first },
    pub ghost is_second: { CountKey second } by { count_key_prop second },
}

impl Keys {
    ghost use Rattle.multiset_fronts.specs.Inner.{both_le};

    // Is each at most the other's, in each lane? A derived order would compare the numbers, and not the
    // lanes.
    pub fn at_most(self, other: Keys) -> bool
        ensures { result ≡ both_le self.first self.second other.first other.second }
    {
        multiset_keys::key_at_most(self.first, other.first)
            && multiset_keys::key_at_most(self.second, other.second)
    }
}
