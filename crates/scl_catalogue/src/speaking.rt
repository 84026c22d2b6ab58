//! Of which options an entry speaks, whether it is there or not.
ghost use Rattle.std.specs.Prelude.{◌≡◌, map};
ghost use Rattle.std.specs.List.{list_any};
ghost use Rattle.scl_catalogue.specs.Speaking.{asks_for, begins_with, case_speaks_of, relation_at, speaks_of};
ghost use Rattle.scl_catalogue.specs.Views.{case_of, condition_of, entry_of, question_of, seen_of};

use crate::case::{Case, Compiler, Version, serves};
use crate::condition::{Condition, Question};
use crate::entry::Entry;
use crate::numbers::Numbers;
use crate::relation::Relation;
use crate::seen::Seen;

/// Whose options are meant.
#[derive(Clone, Copy, Debug, PartialEq, Eq)]
pub enum Level {
    /// Those of the command line.
    Outer,
    /// Those of the inner one.
    Inner,
}

impl Question {
    /// Whether it begins with a group that has the option.
    fn begins_with(&self, level: Level, option: &Seen<'_>) -> bool
        ensures { result ≡ begins_with (seen_of option.now) (relation_at level (question_of self.now)) }
    {
        match (level, self) {
            (Level::Outer, Question::Given(relation)) | (Level::Inner, Question::Inner(relation)) =>
                { relation.first().has(option) }
            _ => false,
        }
    }
}

fn one_asks_for(conditions: &[Condition], level: Level, option: &Seen<'_>) -> bool
    ensures { result ≡ list_any (asks_for level (seen_of option.now)) (map condition_of conditions.now) }
{
    for condition in conditions {
        if !condition.is_denied && condition.question.begins_with(level, option) {
            return true;
        }
    }
    false
}

impl Case {
    fn speaks_of(
        &self,
        compiler: Compiler,
        version: Option<Version>,
        level: Level,
        option: &Seen<'_>,
    ) -> bool
        ensures { result ≡ case_speaks_of compiler version level (seen_of option.now) (case_of self.now) }
    {
        serves(&self.served, compiler, version) && one_asks_for(&self.conditions, level, option)
    }
}

fn one_speaks(
    cases: &[Case],
    compiler: Compiler,
    version: Option<Version>,
    level: Level,
    option: &Seen<'_>,
) -> bool
    ensures { result ≡ list_any (case_speaks_of compiler version level (seen_of option.now)) (map case_of cases.now) }
{
    for case in cases {
        if case.speaks_of(compiler, version, level, option) {
            return true;
        }
    }
    false
}

impl Entry {
    /// Whether a case that serves this version of the compiler asks that an option stand, and this one is such. So also of an
    /// entry that is not there since another condition does not hold.
    #[tactic(auto, unfolding(crate::specs::Speaking::speaks_of))]
    pub fn speaks_of(
        &self,
        compiler: Compiler,
        version: Option<Version>,
        level: Level,
        option: &Seen<'_>,
    ) -> bool
        ensures { result ≡ speaks_of compiler version level (seen_of option.now) (entry_of self.now) }
    {
        self.may_speak(&Numbers::of(option))
            && one_speaks(&self.cases, compiler, version, level, option)
    }
}
