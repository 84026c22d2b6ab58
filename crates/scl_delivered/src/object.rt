//! The object of a record with a key, and whether runs show what its macros do.
ghost use Rattle.std.specs.Prelude.{◌≡◌, ◌||◌};
ghost use Rattle.std.specs.List.{list_all};
ghost use Rattle.scl_catalogue.specs.Views.{lexicon_of};
ghost use Rattle.scl_text.specs.Records.{parsed_of};
ghost use Rattle.scl_key.specs.Views.{key_of as key_told, part_of, parts_of};
ghost use Rattle.scl_shared_key.specs.Views.{object_of};
ghost use Rattle.scl_delivered.specs.Delivered.{has_path_like_macro, is_c, is_cxx, is_like_macro, is_told_output, object_by, texts_show_macros};

use scl_catalogue::Lexicon;
use scl_key::{Key, Part, is_clang, is_gcc};
use scl_reader::Compiler;
use scl_shared_key::{Object, is_macro};
use scl_text::language::Language;
use scl_text::records::ParsedArguments;

fn is_c_or_cxx(language: Language) -> bool
    ensures { result ≡ (is_c language || is_cxx language) }
{
    language == Language::C || language == Language::Cxx
}

/// Whether a part is no output with names of its own.
fn is_told_output(part: &Part) -> bool
    ensures { result ≡ is_told_output (part_of part.now) }
{
    match part {
        Part::Output(output) => {
            output.name.as_slice() == b"obj".as_slice() || output.name.as_slice() == b"d".as_slice()
        }
        Part::Is(_)
        | Part::Directory
        | Part::Compiler
        | Part::Plan(_)
        | Part::Asked(_, _)
        | Part::Run(_)
        | Part::RunElse(_)
        | Part::Pch(_)
        | Part::Sources
        | Part::Times => true,
    }
}

/// Whether none is.
fn is_alone(parts: &[Part]) -> bool
    ensures { result ≡ list_all is_told_output (parts_of parts.now) }
{
    for part in parts {
        if !is_told_output(part) {
            return false;
        }
    }
    true
}

/// The object of a record with this key.
pub(crate) fn object_by<'a, 'c>(
    lexicon: &'c Lexicon<'c>,
    compiler: Compiler,
    parsed: &'a ParsedArguments,
    key: &Key,
) -> Object<'a, 'c>
    ensures { object_of result ≡ object_by (lexicon_of lexicon.now) compiler (parsed_of parsed.now) (key_told key.now) }
{
    Object {
        is_by_gcc: is_gcc(compiler),
        is_of_c: parsed.language == Language::C,
        is_of_shown_text: key.is_shown
            && parsed.compilation_flag.as_slice() == b"-c".as_slice()
            && is_c_or_cxx(parsed.language),
        is_alone: is_alone(&key.parts),
        lexicon,
        common: &parsed.common_args,
        arch: &parsed.arch_args,
        unhashed: &parsed.unhashed_args,
    }
}

/// Whether a part is an output whose path looks like a word that defines a macro.
fn is_like_macro(part: &Part) -> bool
    ensures { result ≡ is_like_macro (part_of part.now) }
{
    match part {
        Part::Output(output) => is_macro(&output.path),
        Part::Is(_)
        | Part::Directory
        | Part::Compiler
        | Part::Plan(_)
        | Part::Asked(_, _)
        | Part::Run(_)
        | Part::RunElse(_)
        | Part::Pch(_)
        | Part::Sources
        | Part::Times => false,
    }
}

/// Whether the path of the input or of an output looks like a word that defines a macro.
fn has_path_like_macro(parsed: &ParsedArguments, parts: &[Part]) -> bool
    ensures { result ≡ has_path_like_macro (parsed_of parsed.now) (parts_of parts.now) }
{
    for part in parts {
        if is_like_macro(part) {
            return true;
        }
    }
    is_macro(&parsed.input)
}

/// Whether of macros no more counts than the texts of runs show of them (docs/RULES.md, Words that the runs show).
pub(crate) fn texts_show_macros(
    compiler: Compiler,
    parsed: &ParsedArguments,
    parts: &[Part],
    object: &Object<'_, '_>,
) -> bool
    ensures { result ≡ texts_show_macros compiler (parsed_of parsed.now) (parts_of parts.now) (object_of object.now) }
{
    object.is_of_shown_text
        && (is_gcc(compiler) || is_clang(compiler))
        && !(object.may_name_anything() || has_path_like_macro(parsed, parts))
}
