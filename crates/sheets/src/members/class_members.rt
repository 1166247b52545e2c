//! The members of a class, one by one.
ghost use Rattle.std.specs.Prelude.{◌≡◌, ◌-◌, true, None};
ghost use Rattle.std.specs.Option.{ForSome};
ghost use Rattle.std.specs.Iterator.{at_most};
ghost use Rattle.rules.specs.Walks.{GoesOn};
ghost use Rattle.sheets.specs.Classes.{member};
ghost use Rattle.sheets.specs.Members.{partition};
ghost use Rattle.sheets.specs.Walks.{behind};

use super::Members;

/// What is left of the members of a class, in rising order.
#[derive(Drop)]
pub struct ClassMembers<'a> {
    members: &'a Members,
    class: u16,
    /// The member that was handed out last.
    last: Option<u16>,
    ghost handed: { ForSome last (λ s. member (partition members.now) class s ≡ true) },
}

impl Members {
    /// The members of the class `k`, in rising order.
    pub fn of_class(&self, k: u16) -> ClassMembers<'_>
        ensures members { result.members.now ≡ self.now }
        ensures class { result.class ≡ k }
        ensures all { result.last ≡ None }
    {
        ClassMembers {
            members: self,
            class: k,
            last: None,
        }
    }
}

impl Iterator for ClassMembers<'_> {
    type Item = u16;

    ghost next_gives = { λ a r b. GoesOn (λ x. member (partition x.members.now) x.class) (λ x. behind x.last) a r b };

    ghost remaining = { λ x. at_most (4096 - behind x.last) };

    fn next(&mut self) -> Option<u16> {
        let next = match self.last {
            None => self.members.first_member(self.class)?,
            Some(s) => self.members.member_after(s)?,
        };
        self.last = Some(next);
        Some(next)
    }
}
