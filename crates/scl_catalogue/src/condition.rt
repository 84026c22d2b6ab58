//! What is asked of a command line.
ghost use Rattle.std.specs.Prelude.{◌≡◌, true, map};
ghost use Rattle.std.specs.List.{list_all, list_any};
ghost use Rattle.scl_values.specs.Words.{words_of};
ghost use Rattle.scl_catalogue.specs.Found.{condition_holds, is_so, passes, words_at};
ghost use Rattle.scl_catalogue.specs.Keyed.{is_keyed};
ghost use Rattle.scl_catalogue.specs.Lookup.{tests_asked};
ghost use Rattle.scl_catalogue.specs.Views.{condition_of, line_of, question_of, seen_of, test_of, text_of};

use crate::keys::Keys;
use crate::line::Line;
use crate::relation::Relation;
use crate::test::Test;
use crate::text::Text;

/// What is known of a line besides its words and options.
#[derive(Clone, Copy, Debug, PartialEq, Eq)]
pub enum Fact {
    /// It is one of the driver for C++.
    Plusplus,
    /// It is one of Apple's clang.
    Apple,
    /// The preprocessor runs.
    Preprocessed,
    /// The given command compiles the input in another language than the built command does.
    OtherLanguage,
    /// A text that was put in place is split differently by the compiler.
    SplitOtherwise,
    /// A text of the environment is split differently by the compiler.
    EnvironmentSplitOtherwise,
    /// The first byte of the input's file name is its only dot.
    HiddenInput,
    /// The first byte of the object's file name is its only dot.
    HiddenObject,
    /// A target of dependencies is named that is not the object.
    OtherTarget,
    /// The object is not named after the input.
    RenamedObject,
    /// A precompiled header lies beside a file that the line includes, in a folder where it is searched for.
    PrecompiledHeader,
}

/// Where words of a line stand.
#[derive(Clone, Copy, Debug, PartialEq, Eq)]
pub enum Place {
    /// The words of the line, with response files put in place.
    Word,
    /// The texts of response files that were put in place.
    File,
    /// The words that the environment gives.
    Environment,
    /// The name of the record's language.
    Language,
    /// The path of the input.
    Input,
    /// The input's extension, if it has one.
    Extension,
    /// The path of the object.
    Object,
}

/// What is asked of a line.
#[derive(Debug, Drop)]
pub enum Question {
    /// The line has the fact.
    Is(Fact),
    /// A word at the place passes.
    At(Place, Text),
    /// The options stand so.
    Given(Relation),
    /// The inner options stand so.
    Inner(Relation),
}

/// A question, and whether the answer is to be no.
#[derive(Debug, Drop)]
pub struct Condition {
    /// Whether the answer is to be no.
    pub is_denied: bool,
    /// What is asked.
    pub question: Question,
}

/// The numbers of a line's options.
#[derive(Clone, Copy)]
pub(crate) struct LineKeys {
    pub(crate) options: Keys,
    pub(crate) inner: Keys,
}

impl LineKeys {
    /// The numbers that the options of the line have.
    pub(crate) fn of(line: &Line<'_>) -> LineKeys
        ensures options { list_all (is_keyed result.options) (map seen_of line.now.options.now) ≡ true }
        ensures inner { list_all (is_keyed result.inner) (map seen_of line.now.inner.now) ≡ true }
    {
        LineKeys {
            options: Keys::of(line.options),
            inner: Keys::of(line.inner),
        }
    }
}

/// Whether one of the words passes.
fn any_passes(words: &[Vec<u8>], text: &Text) -> bool
    ensures { result ≡ list_any (passes (text_of text.now)) (words_of words.now) }
{
    for word in words {
        if text.passes(word) {
            return true;
        }
    }
    false
}

impl Place {
    /// Whether a word at the place passes.
    fn has(self, text: &Text, line: &Line<'_>) -> bool
        ensures { result ≡ list_any (passes (text_of text.now)) (words_at self (line_of line.now)) }
    {
        match self {
            Place::Word => any_passes(line.words, text),
            Place::File => any_passes(line.files, text),
            Place::Environment => any_passes(line.environment, text),
            Place::Language => text.passes(line.language),
            Place::Input => text.passes(line.input),
            Place::Extension => match line.extension {
                Some(extension) => text.passes(extension),
                None => false,
            },
            Place::Object => text.passes(line.object),
        }
    }
}

impl Question {
    fn is_so(&self, line: &Line<'_>, keys: &LineKeys) -> bool
        requires options { list_all (is_keyed keys.now.options) (map seen_of line.now.options.now) ≡ true }
        requires inner { list_all (is_keyed keys.now.inner) (map seen_of line.now.inner.now) ≡ true }
        ensures { result ≡ is_so (line_of line.now) (question_of self.now) }
    {
        match self {
            Question::Is(fact) => line.facts.has(*fact),
            Question::At(place, text) => place.has(text, line),
            Question::Given(relation) => relation.holds(line.options, &keys.options),
            Question::Inner(relation) => relation.holds(line.inner, &keys.inner),
        }
    }
}

impl Condition {
    /// The tests of which an option of the line has to pass one, if the condition asks for an option.
    pub(crate) fn tests_asked(&self) -> &[Test]
        ensures { map test_of result.now ≡ tests_asked (condition_of self.now) }
    {
        if self.is_denied {
            return &[];
        }
        match &self.question {
            Question::Given(relation) => &relation.first().tests,
            Question::Inner(_) | Question::Is(_) | Question::At(_, _) => &[],
        }
    }

    /// Whether it holds of the line, whose options have these numbers.
    pub(crate) fn holds(&self, line: &Line<'_>, keys: &LineKeys) -> bool
        requires options { list_all (is_keyed keys.now.options) (map seen_of line.now.options.now) ≡ true }
        requires inner { list_all (is_keyed keys.now.inner) (map seen_of line.now.inner.now) ≡ true }
        ensures { result ≡ condition_holds (line_of line.now) (condition_of self.now) }
    {
        if self.is_denied {
            !self.question.is_so(line, keys)
        } else {
            self.question.is_so(line, keys)
        }
    }
}
