//! What the tables tell.
ghost use Rattle.std.specs.Prelude.{◌≡◌, ℕ, ◌+◌, ◌<◌, ◌≤◌};
ghost use Rattle.rules.specs.Next.{LowestFrom};
ghost use Rattle.sheets.specs.Classes.{states, class, class_at, member};
ghost use Rattle.sheets.specs.Members.{partition};

use super::Members;

impl Members {
    /// How many states there are.
    pub fn states(&self) -> u16
        ensures tells { result ≡ states (partition self.now) }
        ensures held { states (partition self.now) ≤ 4096 }
        ensures few { (partition self.now).count ≤ states (partition self.now) }
        ensures below { (s : ℕ) → s < states (partition self.now) → class (partition self.now) s < (partition self.now).count }
    {
        self.states
    }

    /// How many classes there are.
    pub fn count(&self) -> u16
        ensures { result ≡ (partition self.now).count }
    {
        self.count
    }

    /// The class of a number, or absence if it is no state.
    pub fn class(&self, s: u16) -> Option<u16>
        ensures { result ≡ class_at (partition self.now) s }
    {
        self.table[..self.states as usize].get(s as usize).copied()
    }

    /// The lowest member of the class `k` that is not below `from`. Asked for the first member, or for the one after a member, it looks
    /// the answer up; else it searches.
    pub fn next_member(&self, k: u16, from: u16) -> Option<u16>
        ensures { LowestFrom (member (partition self.now) k) from result }
    {
        if from == 0 {
            return self.first_member(k);
        }
        if self.has_member(k, from - 1) {
            return self.member_after(from - 1);
        }
        (from..self.states).find(|s| self.has_member(k, *s))
    }

    /// Whether `s` is a state of the class `k`.
    pub fn has_member(&self, k: u16, s: u16) -> bool
        ensures { result ≡ member (partition self.now) k s }
    {
        self.class(s) == Some(k)
    }

    /// The lowest member of the class `k`.
    pub(super) fn first_member(&self, k: u16) -> Option<u16>
        ensures { LowestFrom (member (partition self.now) k) 0 result }
    {
        if k < self.count {
            self.first[k as usize].get()
        } else {
            None
        }
    }

    /// The next higher member of the class of `s`.
    pub(super) fn member_after(&self, s: u16) -> Option<u16>
        requires { s < states (partition self.now) }
        ensures { LowestFrom (member (partition self.now) (class (partition self.now) s)) (s + 1) result }
    {
        self.after[s as usize].get()
    }
}
