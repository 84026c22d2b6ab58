//! Tests that options pass.
ghost use Rattle.std.specs.Prelude.{◌≡◌, map};
ghost use Rattle.std.specs.List.{list_all, list_any, slice_split};
ghost use Rattle.scl_catalogue.specs.Found.{in_group, is_comma, is_met, is_of, name_by, passes, test_passes};
ghost use Rattle.scl_catalogue.specs.Views.{demand_of, group_of, seen_of, test_of, text_of};

use crate::seen::{Mark, Seen, Standing};
use crate::text::Text;

/// Which options a test asks for, and by what name.
#[derive(Clone, Copy, Debug, PartialEq, Eq)]
pub enum Class {
    /// All, by their words or flags.
    Option,
    /// Words that are no options.
    Raw,
    /// Options that no row fits, by their words.
    Unknown,
    /// Options that a row fits, by its flag.
    Flag,
    /// Options that a row fits, by the name of its kind.
    Kind,
}

/// What is asked of an option beside its name.
#[derive(Debug, Drop)]
pub enum Demand {
    /// It has the mark.
    Marked(Mark),
    /// Its value passes.
    Value(Text),
    /// A part of its value between commas passes.
    Part(Text),
}

/// The options of a class with one of the names that meet each demand.
#[derive(Debug, Drop)]
pub struct Test {
    /// Which options are asked for.
    pub class: Class,
    /// Their names.
    pub names: Text,
    /// What else is asked.
    pub demands: Vec<Demand>,
}

/// The options that pass one of the tests.
#[derive(Debug, Drop)]
pub struct Group {
    /// Its name; empty where the group stands in a condition.
    pub name: Vec<u8>,
    /// The tests.
    pub tests: Vec<Test>,
}

impl Class {
    pub(crate) fn is_of(self, standing: Standing) -> bool
        ensures { result ≡ is_of self standing }
    {
        match self {
            Class::Option => true,
            Class::Raw => standing == Standing::Raw,
            Class::Unknown => standing == Standing::Unknown,
            Class::Flag | Class::Kind => standing == Standing::Known,
        }
    }

    fn name_of<'a>(self, option: &Seen<'a>) -> &'a [u8]
        ensures { result.now ≡ name_by self (seen_of option.now) }
    {
        match self {
            Class::Option | Class::Raw | Class::Unknown | Class::Flag => option.name,
            Class::Kind => option.kind,
        }
    }
}

/// Whether a part between commas passes.
fn any_part(text: &Text, value: &[u8]) -> bool
    ensures { result ≡ list_any (passes (text_of text.now)) (slice_split is_comma value.now) }
{
    value
        .split(|byte| *byte == b',')
        .any(|part| text.passes(part))
}

impl Demand {
    fn is_met(&self, option: &Seen<'_>) -> bool
        ensures { result ≡ is_met (seen_of option.now) (demand_of self.now) }
    {
        match self {
            Demand::Marked(mark) => option.marks.has(*mark),
            Demand::Value(text) => text.passes(option.value),
            Demand::Part(text) => any_part(text, option.value),
        }
    }
}

fn all_met(demands: &[Demand], option: &Seen<'_>) -> bool
    ensures { result ≡ list_all (is_met (seen_of option.now)) (map demand_of demands.now) }
{
    for demand in demands {
        if !demand.is_met(option) {
            return false;
        }
    }
    true
}

impl Test {
    #[tactic(auto, unfolding(crate::specs::Found::test_passes))]
    fn passes(&self, option: &Seen<'_>) -> bool
        ensures { result ≡ test_passes (test_of self.now) (seen_of option.now) }
    {
        self.class.is_of(option.standing)
            && self.names.passes(self.class.name_of(option))
            && all_met(&self.demands, option)
    }
}

impl Group {
    /// Whether the option passes one of the tests.
    #[tactic(auto, unfolding(crate::specs::Found::in_group))]
    pub(crate) fn has(&self, option: &Seen<'_>) -> bool
        ensures { result ≡ in_group (group_of self.now) (seen_of option.now) }
    {
        for test in &self.tests {
            if test.passes(option) {
                return true;
            }
        }
        false
    }
}
