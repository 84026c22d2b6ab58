//! What is known of a record, and whether runs show the words of the preprocessor.
ghost use Rattle.std.specs.Prelude.{◌≡◌, IfOk};
ghost use Rattle.std.specs.List.{list_all, list_any};
ghost use Rattle.scl_text.specs.Records.{parsed_of};
ghost use Rattle.scl_catalogue.specs.Views.{lexicon_of};
ghost use Rattle.scl_key.specs.Effects.{keeps_macros};
ghost use Rattle.scl_key.specs.Given.{is_known};
ghost use Rattle.scl_key.specs.Known.{has_macros, is_text, known_in, shows_by};
ghost use Rattle.scl_key.specs.KnownViews.{all_given, all_judged, known_of};

use crate::effect::{Judged, judged_words, keeps_macros};
use crate::family::is_gnu;
use crate::given::{Given, given_in, is_known};
use crate::made::made;
use crate::part::Output;
use scl_catalogue::Lexicon;
use scl_reader::Compiler;
use scl_text::Mem;
use scl_text::language::Language;
use scl_text::records::ParsedArguments;
use std::alloc::Global;

/// What is known of a record.
#[derive(Drop)]
pub(crate) struct Known<'a> {
    /// The words of the preprocessor, each with what it does.
    pub(crate) preprocessor: Vec<Judged<'a>>,
    /// The common words.
    pub(crate) common: Vec<Judged<'a>>,
    /// The words that a compiler's own hash leaves out.
    pub(crate) unhashed: Vec<Judged<'a>>,
    /// The words about dependencies.
    pub(crate) dependency: Vec<Judged<'a>>,
    /// What the words of the preprocessor bring in.
    pub(crate) given: Vec<Given<'a>>,
    /// The files that come out.
    pub(crate) made: Vec<Output>,
}

/// What is known of a record. Each word is judged here, once for each key.
pub(crate) fn known_in<'a>(
    alloc: Global,
    lexicon: &Lexicon<'_>,
    parsed: &'a ParsedArguments,
) -> Mem<Known<'a>>
    ensures { IfOk result (λ known. known_of known ≡ known_in (lexicon_of lexicon.now) (parsed_of parsed.now)) }
{
    Ok(Known {
        preprocessor: judged_words(alloc, lexicon, &parsed.preprocessor_args)?,
        common: judged_words(alloc, lexicon, &parsed.common_args)?,
        unhashed: judged_words(alloc, lexicon, &parsed.unhashed_args)?,
        dependency: judged_words(alloc, lexicon, &parsed.dependency_args)?,
        given: given_in(alloc, lexicon, &parsed.preprocessor_args)?,
        made: made(alloc, parsed)?,
    })
}

/// Whether one of these words brings macros into the outcome.
fn some_keeps_macros(common: &[Judged<'_>]) -> bool
    ensures { result ≡ list_any (λ j. keeps_macros j.doing) (all_judged common.now) }
{
    for one in common {
        if keeps_macros(one.doing) {
            return true;
        }
    }
    false
}

/// Whether macros come into the outcome.
pub(crate) fn has_macros(known: &Known<'_>) -> bool
    ensures { result ≡ has_macros (known_of known.now) }
{
    some_keeps_macros(&known.common)
}

/// Whether what is compiled is a text that a run shows: no header, of which macros are kept, and no assembler.
pub(crate) fn is_text(language: Language) -> bool
    ensures { result ≡ is_text language }
{
    match language {
        Language::C | Language::Cxx | Language::ObjectiveC | Language::ObjectiveCxx => true,
        Language::Assembler
        | Language::AssemblerToPreprocess
        | Language::CHeader
        | Language::GenericHeader
        | Language::CxxHeader
        | Language::CxxModule
        | Language::ObjectiveCHeader
        | Language::ObjectiveCxxHeader
        | Language::Cuda
        | Language::Rust
        | Language::Hip => false,
    }
}

/// Whether the text of a run has all of these.
pub(crate) fn all_known(given: &[Given<'_>]) -> bool
    ensures { result ≡ list_all (λ g. is_known g.brings) (all_given given.now) }
{
    for one in given {
        if !is_known(one.brings) {
            return false;
        }
    }
    true
}

/// Whether each run shows all that the words of the preprocessor bring in, so that they are no part of the key.
pub(crate) fn shows(known: &Known<'_>, compiler: Compiler, language: Language) -> bool
    ensures { result ≡ shows_by (known_of known.now) compiler language }
{
    is_gnu(compiler) && is_text(language) && !has_macros(known) && all_known(&known.given)
}
