//! The compilers that are meant, and what must hold.
ghost use Rattle.std.specs.Prelude.{◌≡◌, true, map};
ghost use Rattle.std.specs.List.{list_all, list_any};
ghost use Rattle.scl_catalogue.specs.Found.{case_holds, condition_holds, is_lower, is_version, serves};
ghost use Rattle.scl_catalogue.specs.Keyed.{is_keyed};
ghost use Rattle.scl_catalogue.specs.Views.{case_of, condition_of, line_of, seen_of};

use crate::condition::{Condition, LineKeys};
use crate::line::Line;

/// A compiler of which something is known.
#[derive(Clone, Copy, Debug, PartialEq, Eq)]
pub enum Compiler {
    /// gcc and g++.
    Gcc,
    /// clang and clang++.
    Clang,
    /// clang-cl.
    ClangCl,
    /// Microsoft's cl.
    Cl,
    /// Diab.
    Diab,
    /// TaskingVX.
    Tasking,
}

/// A version of a compiler: the numbers before and after its first dot.
#[derive(Clone, Copy, Debug, PartialEq, Eq)]
pub struct Version {
    /// The number before the dot.
    pub major: u32,
    /// The number after the dot.
    pub minor: u32,
}

/// A compiler, and the versions of it that are meant.
#[derive(Clone, Copy, Debug, PartialEq, Eq)]
pub struct Served {
    /// The compiler.
    pub compiler: Compiler,
    /// The first version that is meant, if there is one.
    pub since: Option<Version>,
    /// The first version after it that is not, if there is one.
    pub until: Option<Version>,
}

/// A case in which an entry is there: the compiler is served, and each condition holds.
#[derive(Debug, Drop)]
pub struct Case {
    /// The compilers that are meant.
    pub served: Vec<Served>,
    /// What must hold.
    pub conditions: Vec<Condition>,
}

fn is_lower(one: Version, other: Version) -> bool
    ensures { result ≡ is_lower one other }
{
    one.major < other.major || one.major == other.major && one.minor < other.minor
}

impl Served {
    /// Whether the version is meant; where none is known, each is.
    fn is_version(&self, version: Option<Version>) -> bool
        ensures { result ≡ is_version self.now version }
    {
        let Some(version) = version else {
            return true;
        };
        let since = match self.since {
            Some(since) => !is_lower(version, since),
            None => true,
        };
        let until = match self.until {
            Some(until) => is_lower(version, until),
            None => true,
        };
        since && until
    }
}

/// Whether one of these is this version of the compiler.
pub fn serves(served: &[Served], compiler: Compiler, version: Option<Version>) -> bool
    ensures { result ≡ list_any (serves compiler version) served.now }
{
    for one in served {
        if one.compiler == compiler && one.is_version(version) {
            return true;
        }
    }
    false
}

/// Whether each condition holds.
fn all_hold(conditions: &[Condition], line: &Line<'_>, keys: &LineKeys) -> bool
    requires options { list_all (is_keyed keys.now.options) (map seen_of line.now.options.now) ≡ true }
    requires inner { list_all (is_keyed keys.now.inner) (map seen_of line.now.inner.now) ≡ true }
    ensures { result ≡ list_all (condition_holds (line_of line.now)) (map condition_of conditions.now) }
{
    for condition in conditions {
        if !condition.holds(line, keys) {
            return false;
        }
    }
    true
}

impl Case {
    /// Whether the case is there in a line whose options have these numbers.
    pub(crate) fn holds(&self, line: &Line<'_>, keys: &LineKeys) -> bool
        requires options { list_all (is_keyed keys.now.options) (map seen_of line.now.options.now) ≡ true }
        requires inner { list_all (is_keyed keys.now.inner) (map seen_of line.now.inner.now) ≡ true }
        ensures { result ≡ case_holds (line_of line.now) (case_of self.now) }
    {
        serves(&self.served, line.compiler, line.version) && all_hold(&self.conditions, line, keys)
    }
}
