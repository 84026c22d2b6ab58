//! What a caller is asked about its machine.
ghost use Rattle.std.specs.Prelude.{◌≡◌, ◌∷◌, []};
ghost use Rattle.std.specs.Str.{bytes_eq};
ghost use Rattle.scl_values.specs.Words.{words_of};
ghost use lib.Pointwise.{pointwise};
ghost use Rattle.scl_questions.specs.Same.{same};
ghost use Rattle.scl_questions.specs.Views.{language_of, question_of};

/// The language of a compiler's messages.
#[derive(Debug, Clone, Copy, PartialEq, Eq)]
pub enum Language {
    /// That of `LC_ALL=C`, for what is read.
    C,
    /// That of the environment.
    Own,
}

/// A question about a machine.
#[derive(Debug, PartialEq, Eq, Drop)]
pub enum Question {
    /// The value of a variable.
    Env(Vec<u8>),
    /// A program, found as the shell finds it; the empty name is the compiler.
    Program(Vec<u8>),
    /// What stands at a path.
    File(Vec<u8>),
    /// The bytes of a file.
    Bytes(Vec<u8>),
    /// The names in a folder.
    Names(Vec<u8>),
    /// A path without links.
    Real(Vec<u8>),
    /// Size and time of a file.
    Times(Vec<u8>),
    /// What the compiler writes for these words. A word NUL stands for a file of the run's own.
    Run(Language, Vec<Vec<u8>>),
}

fn is_same(name: &[u8], other: &[u8]) -> bool
    ensures { result ≡ pointwise bytes_eq (name.now ∷ []) (other.now ∷ []) }
{
    name == other
}

fn are_same(words: &[Vec<u8>], others: &[Vec<u8>]) -> bool
    ensures { result ≡ pointwise bytes_eq (words_of words.now) (words_of others.now) }
{
    words == others
}

fn is_same_run(language: Language, words: &[Vec<u8>], other: Language, others: &[Vec<u8>]) -> bool
    ensures { result ≡ pointwise bytes_eq (language_of language ∷ words_of words.now) (language_of other ∷ words_of others.now) }
{
    match (language, other) {
        (Language::C, Language::C) | (Language::Own, Language::Own) => are_same(words, others),
        (Language::C, Language::Own) | (Language::Own, Language::C) => false,
    }
}

impl Question {
    /// Whether it is the other.
    pub fn is(&self, other: &Question) -> bool
        ensures { result ≡ same (question_of self.now) (question_of other.now) }
    {
        match self {
            Question::Env(name) => matches!(other, Question::Env(it) if is_same(name, it)),
            Question::Program(name) => matches!(other, Question::Program(it) if is_same(name, it)),
            Question::File(path) => matches!(other, Question::File(it) if is_same(path, it)),
            Question::Bytes(path) => matches!(other, Question::Bytes(it) if is_same(path, it)),
            Question::Names(path) => matches!(other, Question::Names(it) if is_same(path, it)),
            Question::Real(path) => matches!(other, Question::Real(it) if is_same(path, it)),
            Question::Times(path) => matches!(other, Question::Times(it) if is_same(path, it)),
            Question::Run(language, words) => {
                matches!(other, Question::Run(it, others) if is_same_run(*language, words, *it, others))
            }
        }
    }
}
