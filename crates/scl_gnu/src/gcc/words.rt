//! What compile commands and runs of the preprocessor share: the language, the lists in order, the input.
ghost use Rattle.std.specs.Prelude.{◌≡◌, ◌++◌, OnOk};
ghost use Rattle.std.specs.Option.{option_copied};
ghost use Rattle.scl_values.specs.Words.{words_of};
ghost use Rattle.scl_text.specs.Records.{parsed_of};
ghost use Rattle.scl_gnu.specs.Building.{language_words, input_words};
ghost use Rattle.scl_gnu.specs.ListsOf.{list_of, lists_of};

use scl_args::Mem;
use scl_text::command::{append_words, push_dashes, push_word, push_words};
use scl_text::records::ParsedArguments;
use std::alloc::Global;
use std::borrow::CowSlice;

/// The lists of a command, owned, or of a run of the preprocessor, mostly borrowed.
#[derive(Drop)]
pub(super) struct Lists<'a> {
    pub preprocessor: CowSlice<'a, Vec<u8>>,
    pub dependency: CowSlice<'a, Vec<u8>>,
    pub unhashed: CowSlice<'a, Vec<u8>>,
    pub common: CowSlice<'a, Vec<u8>>,
    pub arch: CowSlice<'a, Vec<u8>>,
}

/// Appends the flag and the text of a language, if there is a text.
pub(super) fn push_language(alloc: Global, words: &mut Vec<Vec<u8>>, text: Option<&str>) -> Mem<()>
    ensures { OnOk result (words_of words.new.items ≡ words_of words.old.items ++ language_words (option_copied text.entry)) }
{
    if let Some(text) = text {
        push_word(alloc, words, b"-x")?;
        push_word(alloc, words, text.as_bytes())?;
    }
    Ok(())
}

/// Appends a list; if it is borrowed, copies of its words.
fn push_list(alloc: Global, words: &mut Vec<Vec<u8>>, list: CowSlice<Vec<u8>>) -> Mem<()>
    ensures { OnOk result (words_of words.new.items ≡ words_of words.old.items ++ list_of list.entry) }
{
    match list {
        CowSlice::Borrowed(lent) => push_words(alloc, words, lent),
        CowSlice::Owned(list) => append_words(words, list),
    }
}

/// Appends the lists in order.
pub(super) fn push_lists(alloc: Global, words: &mut Vec<Vec<u8>>, lists: Lists) -> Mem<()>
    ensures { OnOk result (words_of words.new.items ≡ words_of words.old.items ++ lists_of lists.entry) }
{
    push_list(alloc, words, lists.preprocessor)?;
    push_list(alloc, words, lists.dependency)?;
    push_list(alloc, words, lists.unhashed)?;
    push_list(alloc, words, lists.common)?;
    push_list(alloc, words, lists.arch)
}

/// Appends the input, with `--` before it if the line has it there.
pub(super) fn push_input(
    alloc: Global,
    words: &mut Vec<Vec<u8>>,
    parsed: &ParsedArguments,
) -> Mem<()>
    ensures { OnOk result (words_of words.new.items ≡ words_of words.old.items ++ input_words (parsed_of parsed.now)) }
{
    push_dashes(alloc, words, parsed.double_dash_input)?;
    push_word(alloc, words, &parsed.input)
}
