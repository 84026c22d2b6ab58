//! Which options stand, and in what order.
ghost use Rattle.std.specs.Prelude.{◌≡◌, true, map};
ghost use Rattle.std.specs.List.{list_all, list_any};
ghost use Rattle.scl_catalogue.specs.Found.{in_group, is_before, is_last, is_unfollowed, relates};
ghost use Rattle.scl_catalogue.specs.Keyed.{first_group, is_keyed};
ghost use Rattle.scl_catalogue.specs.Views.{group_of, relation_of, seen_of};

use crate::keys::Keys;
use crate::seen::Seen;
use crate::test::Group;

/// Which options stand, and in what order.
#[derive(Debug, Drop)]
pub enum Relation {
    /// One of the group stands.
    Any(Group),
    /// Two of the group stand, or more.
    Two(Group),
    /// One of the first group stands before one of the second.
    Before(Group, Group),
    /// One of the first group stands last, or right before one that is not of the second.
    Unfollowed(Group, Group),
    /// The last option that is of either group is of the first.
    Last(Group, Group),
}

fn is_any(options: &[Seen<'_>], group: &Group) -> bool
    ensures { result ≡ list_any (in_group (group_of group.now)) (map seen_of options.now) }
{
    for option in options {
        if group.has(option) {
            return true;
        }
    }
    false
}

fn is_before(options: &[Seen<'_>], first: &Group, second: &Group) -> bool
    ensures { result ≡ is_before (in_group (group_of first.now)) (in_group (group_of second.now)) (map seen_of options.now) }
{
    let mut is_behind = false;
    for option in options {
        if is_behind && second.has(option) {
            return true;
        }
        is_behind = is_behind || first.has(option);
    }
    false
}

fn is_unfollowed(options: &[Seen<'_>], first: &Group, second: &Group) -> bool
    ensures { result ≡ is_unfollowed (in_group (group_of first.now)) (in_group (group_of second.now)) (map seen_of options.now) }
{
    let mut is_open = false;
    for option in options {
        if is_open && !second.has(option) {
            return true;
        }
        is_open = first.has(option);
    }
    is_open
}

fn is_last(options: &[Seen<'_>], first: &Group, second: &Group) -> bool
    ensures { result ≡ is_last (in_group (group_of first.now)) (in_group (group_of second.now)) (map seen_of options.now) }
{
    let mut is_first = false;
    for option in options {
        if first.has(option) {
            is_first = true;
        } else if second.has(option) {
            is_first = false;
        }
    }
    is_first
}

impl Relation {
    /// The group of which an option must stand.
    pub(crate) fn first(&self) -> &Group
        ensures { group_of result.now ≡ first_group (relation_of self.now) }
    {
        match self {
            Relation::Any(first)
            | Relation::Two(first)
            | Relation::Before(first, _)
            | Relation::Unfollowed(first, _)
            | Relation::Last(first, _) => first,
        }
    }

    fn relates(&self, options: &[Seen<'_>]) -> bool
        ensures { result ≡ relates (relation_of self.now) (map seen_of options.now) }
    {
        match self {
            Relation::Any(group) => is_any(options, group),
            Relation::Two(group) => is_before(options, group, group),
            Relation::Before(first, second) => is_before(options, first, second),
            Relation::Unfollowed(first, second) => is_unfollowed(options, first, second),
            Relation::Last(first, second) => is_last(options, first, second),
        }
    }

    /// Whether it holds of options that have these numbers.
    #[tactic(auto, using(crate::proofs::KeyLemmas::relates_none))]
    pub(crate) fn holds(&self, options: &[Seen<'_>], keys: &Keys) -> bool
        requires { list_all (is_keyed keys.now) (map seen_of options.now) ≡ true }
        ensures { result ≡ relates (relation_of self.now) (map seen_of options.now) }
    {
        if !self.first().may_have_one(keys, options) {
            return false;
        }
        self.relates(options)
    }
}
