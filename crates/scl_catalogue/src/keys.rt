//! Numbers that the options of a line have, by which most groups are known to have none of them.
ghost use Rattle.std.specs.Prelude.{◌≡◌, true, false, map, unwrap_or, slice_index, slice_get};
ghost use Rattle.std.specs.List.{list_all, list_any};
ghost use Rattle.scl_catalogue.specs.Found.{in_group};
ghost use Rattle.scl_catalogue.specs.Keyed.{added, is_keyed, key_by, may_be, may_have, may_pass, number};
ghost use Rattle.scl_catalogue.specs.Views.{group_of, seen_of, test_of, text_of};

use crate::seen::{Seen, Standing};
use crate::test::{Class, Group, Test};
use crate::text::{How, Text, cut_off};

/// How many numbers there are.
const NUMBERS: usize = 64;

/// Which numbers the options of a line have.
#[derive(Clone, Copy)]
pub(crate) struct Keys {
    has_raw: bool,
    has_unknown: bool,
    has_known: bool,
    unknown: [bool; 64],
    flags: [bool; 64],
    kinds: [bool; 64],
}

fn byte_at(word: &[u8], index: usize) -> usize
    ensures { result ≡ slice_index word.now index }
{
    match word.get(index) {
        Some(byte) => usize::from(*byte),
        None => 0,
    }
}

/// The number of a word, by its second and third byte.
pub(crate) fn number(word: &[u8]) -> usize
    ensures { result ≡ number word.now }
{
    (byte_at(word, 1) * 5 + byte_at(word, 2)) % NUMBERS
}

impl Keys {
    fn none() -> Keys {
        Keys {
            has_raw: false,
            has_unknown: false,
            has_known: false,
            unknown: [false; 64],
            flags: [false; 64],
            kinds: [false; 64],
        }
    }

    fn add(&mut self, option: &Seen<'_>)
        ensures { self.new ≡ added self.old (seen_of option.now) }
    {
        match option.standing {
            Standing::Raw => self.has_raw = true,
            Standing::Unknown => {
                self.has_unknown = true;
                self.unknown[number(option.name)] = true;
            }
            Standing::Known => {
                self.has_known = true;
                self.flags[number(option.name)] = true;
                self.kinds[number(option.kind)] = true;
            }
        }
    }

    /// The numbers of these options.
    #[tactic(auto, using(crate::proofs::KeyLemmas::all_keyed))]
    pub(crate) fn of(options: &[Seen<'_>]) -> Keys
        ensures { list_all (is_keyed result) (map seen_of options.now) ≡ true }
    {
        let mut keys = Keys::none();
        for option in options {
            keys.add(option);
        }
        keys
    }
}

/// The number of each word that a pattern of this text fits, where they have one.
pub(crate) fn key_of(how: How, text: &[u8]) -> Option<usize>
    ensures { result ≡ key_by how text.now }
{
    match how {
        How::Is => Some(number(text)),
        How::Begins => {
            if text.len() < 3 {
                None
            } else {
                Some(number(text))
            }
        }
        How::Ends | How::Holds => None,
    }
}

/// Whether a pattern of this text may fit a word that has one of these numbers.
fn may_fit(how: How, text: &[u8], numbers: &[bool; 64]) -> bool
    ensures { result ≡ may_be numbers.now (key_by how text.now) }
{
    match key_of(how, text) {
        Some(number) => match numbers.get(number) {
            Some(is_there) => *is_there,
            None => true,
        },
        None => true,
    }
}

fn may_have(text: &Text, numbers: &[bool; 64]) -> bool
    ensures { result ≡ may_have numbers.now (text_of text.now) }
{
    let mut left = text.any.texts.as_slice();
    for cut in &text.any.cuts {
        let (text, others) = cut_off(left, cut.length);
        if may_fit(cut.how, text, numbers) {
            return true;
        }
        left = others;
    }
    false
}

#[tactic(auto, unfolding(crate::specs::Keyed::may_pass))]
fn may_pass(test: &Test, keys: &Keys) -> bool
    ensures { result ≡ may_pass keys.now (test_of test.now) }
{
    match test.class {
        Class::Option => true,
        Class::Raw => keys.has_raw,
        Class::Unknown => keys.has_unknown && may_have(&test.names, &keys.unknown),
        Class::Flag => keys.has_known && may_have(&test.names, &keys.flags),
        Class::Kind => keys.has_known && may_have(&test.names, &keys.kinds),
    }
}

fn one_may_pass(tests: &[Test], keys: &Keys) -> bool
    ensures { result ≡ list_any (may_pass keys.now) (map test_of tests.now) }
{
    for test in tests {
        if may_pass(test, keys) {
            return true;
        }
    }
    false
}

impl Group {
    /// Whether an option may be in the group; where not, none of the options that have these numbers is.
    #[tactic(auto, using(crate::proofs::KeyLemmas::none_in))]
    pub(crate) fn may_have_one(&self, keys: &Keys, options: &[Seen<'_>]) -> bool
        requires { list_all (is_keyed keys.now) (map seen_of options.now) ≡ true }
        ensures { result ≡ false → list_any (in_group (group_of self.now)) (map seen_of options.now) ≡ false }
    {
        let _options = options;
        one_may_pass(&self.tests, keys)
    }
}
