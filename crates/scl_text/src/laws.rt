//! What follows from the definitions of languages, records and verdicts. Each law is a clause of a function with an empty
//! body.
ghost use Rattle.std.specs.Prelude.{◌≡◌, true, Some, IfSome};
ghost use Rattle.scl_text.specs.contracts.language.LanguagePartialEq.TheImpl as languages;
ghost use Rattle.scl_text.specs.contracts.records.CCompilerKindPartialEq.TheImpl as compilers;
ghost use Rattle.scl_text.specs.contracts.records.CacheablePartialEq.TheImpl as kept;
ghost use Rattle.scl_text.specs.contracts.records.ColorModePartialEq.TheImpl as colors;
ghost use Rattle.scl_text.specs.contracts.records.ParsedArgumentsPartialEq.TheImpl as records;
ghost use Rattle.scl_text.specs.FirstVerdicts.{FirstVerdictIsFirst};
ghost use Rattle.scl_text.specs.Records.{parsed_of};
ghost use Rattle.scl_text.specs.Languages.{clang_text, gcc_text, language_of_gcc_text};

use crate::language::Language;
use crate::records::{CCompilerKind, Cacheable, ColorMode, ParsedArguments};

/// Laws of `==`, which definitions cite: languages that are equal are the same, and so are compilers, colour modes and
/// `Cacheable`; records that are equal have the same fields.
pub fn of_equality()
    ensures languages_are_told_apart { (a b : Language) → languages.ghosts.eq a b ≡ true → a ≡ b }
    ensures compilers_are_told_apart { (a b : CCompilerKind) → compilers.ghosts.eq a b ≡ true → a ≡ b }
    ensures colors_are_told_apart { (a b : ColorMode) → colors.ghosts.eq a b ≡ true → a ≡ b }
    ensures kept_is_told_apart { (a b : Cacheable) → kept.ghosts.eq a b ≡ true → a ≡ b }
    ensures records_are_told_apart { (a b : ParsedArguments) → records.ghosts.eq a b ≡ true → parsed_of a ≡ parsed_of b }
{}

/// The text of a language for `-x` of gcc or clang is read back as that language (docs/RULES.md, Languages).
pub fn texts_are_read_back(_language: Language)
    ensures gcc { IfSome (gcc_text _language) (λ text. language_of_gcc_text text ≡ Some _language) }
    ensures clang { IfSome (clang_text _language) (λ text. language_of_gcc_text text ≡ Some _language) }
{}

/// Laws of judging (docs/RULES.md, Lists of options, and Readings):
///
/// - `first_verdict_is_first`: the first verdict on a list of options is that of an option which has one, judged given those
///   before it, while none before it has one. There is no first verdict only if no option has one.
pub fn of_verdicts<K, V>()
    ensures first_verdict_is_first { FirstVerdictIsFirst K V }
{}
