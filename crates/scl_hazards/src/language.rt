//! The language in which the given command compiles the input, and that of the built command.
ghost use Rattle.std.specs.Prelude.{◌≡◌, map, None};
ghost use Rattle.std.specs.Option.{option_copied};
ghost use Rattle.scl_catalogue.specs.Views.{seen_of};
ghost use Rattle.scl_gnu_reading.specs.FixedTests.{driven, language_of};
ghost use Rattle.scl_hazards.specs.Languages.{is_input, is_other_language, language_built, language_name, language_text, last_long_text, long_language, long_text, same_language, text_at_input};

use scl_catalogue::{Seen, Standing};
use scl_text::language::Language;

/// The text of a language that the long spelling names.
fn long_text(word: &[u8]) -> Option<&[u8]>
    ensures { option_copied result ≡ long_text word.now }
{
    word.strip_prefix(b"--language=")
}

/// The text of a language that the option names.
fn language_text<'a>(option: &Seen<'a>) -> Option<&'a [u8]>
    ensures { option_copied result ≡ language_text (seen_of option.now) }
{
    match option.standing {
        Standing::Raw => None,
        Standing::Unknown => long_text(option.name),
        Standing::Known => {
            if option.kind == b"language".as_slice() {
                Some(option.value)
            } else {
                None
            }
        }
    }
}

/// The text of a language that the option names in the long spelling.
fn long_language<'a>(option: &Seen<'a>) -> Option<&'a [u8]>
    ensures { option_copied result ≡ long_language (seen_of option.now) }
{
    match option.standing {
        Standing::Unknown => long_text(option.name),
        Standing::Raw | Standing::Known => None,
    }
}

fn is_input(option: &Seen<'_>) -> bool
    ensures { result ≡ is_input (seen_of option.now) }
{
    option.standing == Standing::Raw && option.name != b"--".as_slice()
}

/// The text of the language that was named last before the input.
fn text_at_input<'a>(options: &[Seen<'a>]) -> Option<&'a [u8]>
    ensures { option_copied result ≡ text_at_input None (map seen_of options.now) }
{
    let mut text: Option<&[u8]> = None;
    for option in options {
        if is_input(option) {
            return text;
        }
        text = language_text(option).or(text);
    }
    text
}

/// The text of the language that the long spelling named last.
fn last_long_text<'a>(options: &[Seen<'a>]) -> Option<&'a [u8]>
    ensures { option_copied result ≡ last_long_text None (map seen_of options.now) }
{
    let mut text: Option<&[u8]> = None;
    for option in options {
        text = long_language(option).or(text);
    }
    text
}

/// The language for the driver: a C++ driver takes files of C for C++.
fn driven(plusplus: bool, language: Language) -> Language
    ensures { result ≡ driven plusplus language }
{
    if plusplus && language == Language::C {
        Language::Cxx
    } else {
        language
    }
}

/// The language that was named, else that of the file's name.
fn language_of(plusplus: bool, text: Option<&[u8]>, input: &[u8]) -> Option<Language>
    ensures { result ≡ language_of plusplus (option_copied text.entry) input.now }
{
    match text {
        Some(text) => Language::from_gcc_arg(text),
        None => Some(driven(plusplus, Language::from_file_name(input)?)),
    }
}

/// The language of the built command.
fn language_built(language: Language, text: Option<&[u8]>) -> Option<Language>
    ensures { result ≡ language_built language (option_copied text.entry) }
{
    match text {
        Some(text) => Language::from_gcc_arg(text),
        None => Some(language),
    }
}

fn same_language(one: Option<Language>, other: Option<Language>) -> bool
    ensures { result ≡ same_language one other }
{
    match (one, other) {
        (None, None) => true,
        (Some(one), Some(other)) => one == other,
        (None, Some(_)) | (Some(_), None) => false,
    }
}

/// Whether the given command of gcc or clang compiles the input in another language than the built command does.
pub(crate) fn is_other_language(
    plusplus: bool,
    input: &[u8],
    language: Language,
    options: &[Seen<'_>],
) -> bool
    ensures { result ≡ is_other_language plusplus input.now language (map seen_of options.now) }
{
    let given = language_of(plusplus, text_at_input(options), input);
    let built = language_built(language, last_long_text(options));
    !same_language(given, built)
}

/// The name by which a catalogue calls the language.
pub(crate) fn language_name(language: Language) -> &'static [u8]
    ensures { result.now ≡ language_name language }
{
    match language {
        Language::Assembler => b"assembler",
        Language::AssemblerToPreprocess => b"assembler-with-cpp",
        Language::C => b"c",
        Language::CHeader => b"c-header",
        Language::GenericHeader => b"header",
        Language::Cxx => b"c++",
        Language::CxxHeader => b"c++-header",
        Language::CxxModule => b"c++-module",
        Language::ObjectiveC => b"objective-c",
        Language::ObjectiveCHeader => b"objective-c-header",
        Language::ObjectiveCxx => b"objective-c++",
        Language::ObjectiveCxxHeader => b"objective-c++-header",
        Language::Cuda => b"cuda",
        Language::Rust => b"rs",
        Language::Hip => b"hip",
    }
}
