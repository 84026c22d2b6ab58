//! Answers as JSON: an object in one line, made from the rows of the description and from those of the program (docs/PROTOCOL.md, JSON).
ghost use Rattle.std.specs.Prelude.{◌≡◌, ◌++◌, ◌∷◌, [], codes, map, is_some, string_bytes, IfOk, OnOk};
ghost use Rattle.std.specs.Option.{option_copied};
ghost use Rattle.scl_values.specs.Words.{words_of};
ghost use Rattle.scl_text.specs.Runs.{runs_of};
ghost use Rattle.scl_description.specs.RowLists.{held};
ghost use Rattle.scl_description.specs.Rows.{entry_rows, rows_of};
ghost use Rattle.scl_description.specs.Takers.{Adds};
ghost use Rattle.scl_rows.specs.Rows.{told};
ghost use Rattle.scl_json.specs.Json.{IsJson};
ghost use Rattle.scl_json.specs.Objects.{entries_in, json_of};
ghost use Rattle.scl_report.specs.Firsts.{error, firsts_by, texts};
ghost use Rattle.scl_report.specs.Nothing.{why_nothing};
ghost use Rattle.scl_report.specs.Objects.{IsLine, IsObject, all_rows, asked_entries, dangers_entry, is_unrunnable, named_entries, own_entries, read_entries, refused_entries, sentence_entries};

use crate::batch::Named;
use crate::document::{object_with, versioned};
use crate::nothing::why_nothing;
use scl_cl::{CompilerArguments, Mem};
use scl_description::{RowList, TakesRows, tell_maybe, tell_word, tell_words};
use scl_explain::{Answered, Case, unrunnable_text};
use scl_hazards::{Hazard, danger_name};
use scl_json::json_of;
use scl_json::laws::of_json;
use std::alloc::Global;

/// The rows whose members each answer has that is a command.
static COMMAND: [&str; 32] = [
    "version",
    "ok",
    "cacheable",
    "arg",
    "run",
    "input",
    "language",
    "compilation-flag",
    "double-dash-input",
    "output",
    "depfile",
    "dependency",
    "preprocessor",
    "common",
    "arch",
    "unhashed",
    "dist",
    "hash",
    "external-assembler",
    "show-includes",
    "explicit-language",
    "profile-generate",
    "color",
    "no-rewrite-includes-only",
    "too-hard",
    "environment",
    "hazard",
    "danger",
    "option",
    "wants",
    "response-file",
    "missing-file",
];

/// The rows whose members each answer has that is a reason.
static REFUSAL: [&str; 9] = [
    "version",
    "cannot-cache",
    "reason",
    "because",
    "sentence",
    "option",
    "wants",
    "response-file",
    "missing-file",
];

/// The rows whose members each answer has by which nothing is compiled.
static NOTHING: [&str; 7] = [
    "version",
    "not-compilation",
    "nothing",
    "option",
    "wants",
    "response-file",
    "missing-file",
];

/// The rows whose members each entry has that has no answer.
static ERROR: [&str; 3] = ["version", "entry", "error"];

/// The rows whose members the answer has first.
#[tactic(auto, unfolding(crate::specs::Firsts::command, crate::specs::Firsts::refusal, crate::specs::Firsts::nothing))]
fn firsts_of(answered: &Answered<'_>) -> &'static [&'static str]
    ensures { texts result.now ≡ firsts_by answered.now.description.answer }
{
    match answered.description.answer {
        CompilerArguments::Ok(_) => &COMMAND,
        CompilerArguments::CannotCache(_, _) => &REFUSAL,
        CompilerArguments::NotCompilation => &NOTHING,
    }
}

/// Tells the row of a hazard: its name, its danger, what happens, and then words.
pub(crate) fn tell_danger<'t, R: TakesRows>(
    rows: &mut R,
    name: &'t [u8],
    danger: &'t [u8],
    consequence: &'t [u8],
    words: &[Vec<u8>],
) -> Mem<()>
    ensures { OnOk result (Adds R.has rows.old rows.new ((codes "danger" ∷ name.now ∷ danger.now ∷ consequence.now ∷ words_of words.now) ∷ [])) }
{
    rows.take("danger", &[name, danger, consequence], words)
}

/// Tells a row for each hazard.
fn tell_dangers<R: TakesRows>(rows: &mut R, hazards: &[Hazard<'_>]) -> Mem<()>
    ensures { OnOk result (Adds R.has rows.old rows.new (entry_rows (dangers_entry hazards.now))) }
{
    for hazard in hazards {
        let danger = danger_name(hazard.danger()).as_bytes();
        tell_danger(rows, hazard.name(), danger, hazard.consequence(), &[])?;
    }
    Ok(())
}

/// Why no process can be given the command, if there is one and none can.
fn unrunnable_of(alloc: Global, case: &Case, answered: &Answered<'_>) -> Mem<Option<String>>
    ensures { IfOk result (λ why. is_some why ≡ is_unrunnable case.now.program.items answered.now.description.answer) }
{
    match &answered.description.answer {
        CompilerArguments::Ok(compilation) => {
            unrunnable_text(alloc, &case.program, &compilation.command.arguments)
        }
        CompilerArguments::CannotCache(_, _) | CompilerArguments::NotCompilation => Ok(None),
    }
}

/// Tells the sentence for people.
fn tell_sentence<R: TakesRows>(
    rows: &mut R,
    unrunnable: Option<&[u8]>,
    answered: &Answered<'_>,
) -> Mem<()>
    ensures { OnOk result (Adds R.has rows.old rows.new (rows_of (sentence_entries (option_copied unrunnable.entry) (why_nothing (map told answered.now.description.options.items)) answered.now.description.answer))) }
{
    match &answered.description.answer {
        CompilerArguments::Ok(_) => tell_maybe(rows, "unrunnable", unrunnable),
        CompilerArguments::CannotCache(_, _) => Ok(()),
        CompilerArguments::NotCompilation => {
            let why = why_nothing(&answered.description.options);
            tell_word(rows, "nothing", why.as_bytes())
        }
    }
}

/// Tells what was asked.
fn tell_asked<R: TakesRows>(rows: &mut R, case: &Case) -> Mem<()>
    ensures { OnOk result (Adds R.has rows.old rows.new (rows_of (asked_entries case.now))) }
{
    tell_word(rows, "compiler", case.compiler.name().as_bytes())?;
    tell_word(rows, "program", &case.program)?;
    tell_word(rows, "directory", &case.cwd)
}

/// Tells the files that were read, and the hazards.
fn tell_read<R: TakesRows>(rows: &mut R, answered: &Answered<'_>) -> Mem<()>
    ensures { OnOk result (Adds R.has rows.old rows.new (rows_of (read_entries answered.now))) }
{
    tell_words(rows, "response-file", &answered.response_files)?;
    tell_words(rows, "missing-file", &answered.missing_files)?;
    tell_dangers(rows, &answered.description.told.hazards)
}

/// Tells the rows of the program: the request, what was read, and sentences for people.
fn tell_own<R: TakesRows>(
    rows: &mut R,
    unrunnable: Option<&[u8]>,
    case: &Case,
    answered: &Answered<'_>,
) -> Mem<()>
    ensures { OnOk result (Adds R.has rows.old rows.new (rows_of (own_entries (option_copied unrunnable.entry) case.now answered.now))) }
{
    tell_asked(rows, case)?;
    tell_read(rows, answered)?;
    tell_sentence(rows, unrunnable, answered)
}

/// The rows of a description, and after them these and those of the program.
fn rows_with(
    alloc: Global,
    mut front: RowList,
    unrunnable: Option<&[u8]>,
    case: &Case,
    answered: &Answered<'_>,
) -> Mem<Vec<Vec<Vec<u8>>>>
    ensures { IfOk result (λ rows. runs_of rows.items ≡ all_rows (option_copied unrunnable.entry) (held front) case.now answered.now) }
{
    tell_own(&mut front, unrunnable, case, answered)?;
    let mut rows = answered.description.rows(alloc)?;
    rows.append(&mut front.into_rows())?;
    Ok(rows)
}

/// The object of the rows of a description, and after them of these rows and of those of the program.
#[tactic(auto, using(crate::proofs::JsonTexts::written_json))]
fn object_of(alloc: Global, front: RowList, case: &Case, answered: &Answered<'_>) -> Mem<Vec<u8>>
    ensures text { IfOk result (λ json. IsJson json.items) }
    ensures rows { IfOk result (λ json. IsObject (held front) case.now answered.now json.items) }
{
    let unrunnable = unrunnable_of(alloc, case, answered)?;
    let why = unrunnable.as_ref().map(|text| text.as_bytes());
    let rows = rows_with(alloc, front, why, case, answered)?;
    of_json();
    json_of(alloc, firsts_of(answered), &rows)
}

/// The line of an object.
#[tactic(auto, using(crate::proofs::JsonTexts::line_text))]
fn line_of(alloc: Global, mut object: Vec<u8>) -> Mem<String>
    requires { IsJson object.items }
    ensures { IfOk result (λ line. string_bytes line ≡ object.items ++ 10 ∷ []) }
{
    object.push(b'\n')?;
    String::from_utf8_lossy(alloc, &object)
}

/// The answer to a command line.
pub(crate) fn answer_line(alloc: Global, case: &Case, answered: &Answered<'_>) -> Mem<String>
    ensures { IfOk result (λ line. IsLine (IsObject [] case.now answered.now) (string_bytes line)) }
{
    line_of(
        alloc,
        object_of(alloc, RowList::new(alloc), case, answered)?,
    )
}

/// Tells the rows of an entry: its number, and the file that it names, if it names one.
fn tell_entry<R: TakesRows>(alloc: Global, rows: &mut R, named: Named<'_>) -> Mem<()>
    ensures { OnOk result (Adds R.has rows.old rows.new (rows_of (named_entries named.entry.entry named.entry.file.now))) }
{
    let Named { entry, file } = named;
    let number = format!(in alloc; "{entry}")?;
    tell_word(rows, "entry", number.as_bytes())?;
    if file.is_empty() {
        Ok(())
    } else {
        tell_word(rows, "file", file.as_bytes())
    }
}

/// The rows of an entry.
fn rows_of_entry(alloc: Global, named: Named<'_>) -> Mem<RowList>
    ensures { IfOk result (λ rows. held rows ≡ rows_of (named_entries named.entry.entry named.entry.file.now)) }
{
    let mut rows = RowList::new(alloc);
    tell_entry(alloc, &mut rows, named)?;
    Ok(rows)
}

/// The answer to an entry of a database.
pub(crate) fn entry_object(
    alloc: Global,
    named: Named<'_>,
    case: &Case,
    answered: &Answered<'_>,
) -> Mem<Vec<u8>>
    ensures { IfOk result (λ json. IsObject (rows_of (named_entries named.entry.entry named.entry.file.now)) case.now answered.now json.items) }
{
    let front = rows_of_entry(alloc, named)?;
    object_of(alloc, front, case, answered)
}

/// The rows of an entry that has no answer.
fn rows_of_refused(alloc: Global, named: Named<'_>, why: &str) -> Mem<RowList>
    ensures { IfOk result (λ rows. held rows ≡ rows_of (refused_entries named.entry.entry named.entry.file.now why.now)) }
{
    let mut rows = versioned(alloc)?;
    tell_entry(alloc, &mut rows, named)?;
    tell_word(&mut rows, "error", why.as_bytes())?;
    Ok(rows)
}

/// Why an entry of a database has no answer.
pub(crate) fn refused_object(alloc: Global, named: Named<'_>, why: &str) -> Mem<Vec<u8>>
    ensures { IfOk result (λ json. json.items ≡ json_of (entries_in error (rows_of (refused_entries named.entry.entry named.entry.file.now why.now)))) }
{
    let rows = rows_of_refused(alloc, named, why)?;
    object_with(alloc, &ERROR, &rows)
}
