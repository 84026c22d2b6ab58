//! Numbers of the options of which an entry speaks, by which most entries are known to say nothing of an option.
ghost use Rattle.std.specs.Prelude.{◌≡◌, map};
ghost use Rattle.scl_catalogue.specs.Numbered.{any_number, may_have, no_numbers, numbers_in, numbers_of, with_case, with_condition, with_number, with_patterns, with_test, with_tests};
ghost use Rattle.scl_catalogue.specs.Views.{case_of, condition_of, patterns_of, seen_of, test_of};

use crate::case::Case;
use crate::condition::{Condition, Question};
use crate::keys::{key_of, number};
use crate::seen::Seen;
use crate::test::{Class, Test};
use crate::text::{Patterns, cut_off};

/// The numbers of an option.
#[derive(Clone, Copy, Debug)]
pub struct Numbers {
    /// That of its word or flag.
    name: usize,
    /// That of its kind.
    kind: usize,
}

/// Which numbers options may have.
#[derive(Clone, Copy, Debug)]
pub(crate) struct NumberSet {
    names: [bool; 64],
    kinds: [bool; 64],
}

impl Numbers {
    /// Those of this option.
    pub fn of(option: &Seen<'_>) -> Numbers
        ensures { result ≡ numbers_of (seen_of option.now) }
    {
        Numbers {
            name: number(option.name),
            kind: number(option.kind),
        }
    }
}

/// Adds the number of the words that a pattern fits; where they have none, each number.
#[tactic(auto, using(std::proofs::lemmas::List::set_past))]
fn add_number(numbers: &mut [bool; 64], number: Option<usize>)
    ensures { numbers.new ≡ with_number numbers.old number }
{
    match number {
        Some(number) => {
            if number < numbers.len() {
                numbers[number] = true;
            }
        }
        None => *numbers = [true; 64],
    }
}

/// Adds the numbers of the words that patterns fit.
fn add_patterns(numbers: &mut [bool; 64], patterns: &Patterns)
    ensures { numbers.new ≡ with_patterns numbers.old (patterns_of patterns.now) }
{
    let mut left = patterns.texts.as_slice();
    for cut in &patterns.cuts {
        let (text, others) = cut_off(left, cut.length);
        add_number(numbers, key_of(cut.how, text));
        left = others;
    }
}

fn has(numbers: &[bool; 64], number: usize) -> bool
    ensures { result ≡ any_number numbers.now number }
{
    match numbers.get(number) {
        Some(is_there) => *is_there,
        None => true,
    }
}

impl NumberSet {
    fn none() -> NumberSet
        ensures { result ≡ no_numbers }
    {
        NumberSet {
            names: [false; 64],
            kinds: [false; 64],
        }
    }

    /// Whether the numbers of an option may be among these.
    pub(crate) fn may_have(&self, numbers: &Numbers) -> bool
        ensures { result ≡ may_have self.now numbers.now }
    {
        has(&self.names, numbers.name) || has(&self.kinds, numbers.kind)
    }

    /// Adds those of the options that may pass the test.
    fn add_test(&mut self, test: &Test)
        ensures { self.new ≡ with_test self.old (test_of test.now) }
    {
        match test.class {
            Class::Kind => add_patterns(&mut self.kinds, &test.names.any),
            Class::Option | Class::Raw | Class::Unknown | Class::Flag => {
                add_patterns(&mut self.names, &test.names.any);
            }
        }
    }

    fn add_tests(&mut self, tests: &[Test])
        ensures { self.new ≡ with_tests self.old (map test_of tests.now) }
    {
        for test in tests {
            self.add_test(test);
        }
    }

    /// Adds those of the options for which the condition asks.
    fn add_condition(&mut self, condition: &Condition)
        ensures { self.new ≡ with_condition self.old (condition_of condition.now) }
    {
        if condition.is_denied {
            return;
        }
        match &condition.question {
            Question::Given(relation) | Question::Inner(relation) => {
                self.add_tests(&relation.first().tests);
            }
            Question::Is(_) | Question::At(_, _) => {}
        }
    }

    fn add_case(&mut self, case: &Case)
        ensures { self.new ≡ with_case self.old (case_of case.now) }
    {
        for condition in &case.conditions {
            self.add_condition(condition);
        }
    }

    /// Those of the options of which one of the cases speaks.
    pub(crate) fn of(cases: &[Case]) -> NumberSet
        ensures { result ≡ numbers_in (map case_of cases.now) }
    {
        let mut numbers = NumberSet::none();
        for case in cases {
            numbers.add_case(case);
        }
        numbers
    }
}
