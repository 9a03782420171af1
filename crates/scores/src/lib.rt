// Scores, of two kinds that no code can mix: a score is never added to one of the other kind, nor
// compared with it. Its number is private: outside of this crate a score is made by `of`, compared by
// `below` and `at_most`, and told by `number`.

#![tactic(auto)]

ghost use Rattle.std.specs.Prelude.{◌≡◌, ◌≤◌, ◌<◌};
ghost use Rattle.vertex_set.specs.Set.{Decides};

use std::marker::PhantomData;

// Never, the score of an account that no set opens: 2^62, above every sum. It is a number, since C gets
// it as one, and since it is compared with every sum.
pub const NEVER: u64 = 0x4000_0000_0000_0000;

// The kind of a score that is about sets which open an account.
#[derive(Clone, Copy)]
pub struct Security;

// The kind of a score that is about losses which shut an account.
#[derive(Clone, Copy)]
pub struct Recoverability;

// A score of one kind.
#[derive(Clone, Copy)]
pub struct Score<K>(u64, PhantomData<K>);

// Document 01's score, document 003's security score.
pub type SecurityScore = Score<Security>;

// Document 01's risk, document 003's recoverability score.
pub type RecoverabilityScore = Score<Recoverability>;

impl<K> Score<K> {
    pub fn of(number: u64) -> Score<K>
        ensures { result.0 ≡ number }
    {
        Score(number, PhantomData)
    }

    pub fn number(self) -> u64
        ensures { result ≡ self.0 }
    {
        self.0
    }
}

// The two comparisons are methods and no derives: a derive would offer equality and every other
// comparison too, and has no line that an edit could make wrong. Each kind has its own: an edit makes those of
// one kind wrong, and not those of the other.
impl Score<Security> {
    pub fn below(self, other: SecurityScore) -> bool
        ensures { Decides (self.0 < other.0) result }
    {
        self.0 < other.0
    }

    pub fn at_most(self, other: SecurityScore) -> bool
        ensures { Decides (self.0 ≤ other.0) result }
    {
        self.0 <= other.0
    }
}

impl Score<Recoverability> {
    pub fn below(self, than: RecoverabilityScore) -> bool
        ensures { Decides (self.0 < than.0) result }
    {
        self.0 < than.0
    }

    pub fn at_most(self, than: RecoverabilityScore) -> bool
        ensures { Decides (self.0 ≤ than.0) result }
    {
        self.0 <= than.0
    }
}
