//! What follows from the definitions of a shell's texts. Each law is a clause of a function with an empty body.
ghost use Rattle.scl_shell.specs.Laws.{EachTextHasOneReading, BrokenTextsHaveNoWords, QuotedWordsAreReadBack, DollarQuotesAreReadBack, ShownIsVisible, ShownWordsAreVisible};

/// Laws of a shell's texts:
///
/// - `each_text_has_one_reading`: no text has two lists of words;
/// - `broken_texts_have_no_words`: a broken text has no words, and is broken in one way.
#[tactic(auto, using(crate::proofs::ShellLaws::shell_laws))]
pub fn of_texts()
    ensures each_text_has_one_reading { EachTextHasOneReading }
    ensures broken_texts_have_no_words { BrokenTextsHaveNoWords }
{}

/// The law of quoted words: the words of their text are these words, whatever their bytes are.
#[tactic(auto, using(crate::proofs::ShellLaws::shell_laws))]
pub fn of_quoted_words()
    ensures { QuotedWordsAreReadBack }
{}

/// The law of `$'..'`: bash, zsh and ksh read back the word inside.
#[tactic(auto, using(crate::proofs::ShownLaws::shown_laws))]
pub fn of_dollar_quotes()
    ensures { DollarQuotesAreReadBack }
{}

/// Laws of what is shown: it is UTF-8 without hidden characters, whatever the bytes are:
///
/// - `bytes`: of `shown`;
/// - `words`: of `shown_command`.
#[tactic(auto, using(crate::proofs::ShownLaws::shown_laws))]
pub fn of_shown_bytes()
    ensures bytes { ShownIsVisible }
    ensures words { ShownWordsAreVisible }
{}
