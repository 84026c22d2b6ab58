//! What a key asks of a machine, round by round.
ghost use Rattle.std.specs.Prelude.{◌≡◌, ◌++◌, ◌∷◌, [], map, codes, IfOk, OnOk};
ghost use Rattle.std.specs.List.{flat_map};
ghost use Rattle.std.specs.Option.{option_copied, option_map};
ghost use Rattle.scl_values.specs.Words.{words_of};
ghost use Rattle.scl_key.specs.declared.part.Ask.TheVariants as asks;
ghost use Rattle.scl_key.specs.Views.{part_of};
ghost use Rattle.scl_lookup.specs.Questions.{env, file, program, real};
ghost use Rattle.scl_questions.specs.Views.{question_of, questions_of};
ghost use Rattle.scl_rounds.specs.Headers.{all_inside, named, places};
ghost use Rattle.scl_rounds.specs.Keys.{searches, variables};
ghost use Rattle.scl_rounds.specs.Listings.{candidates, is_searched, naming};
ghost use Rattle.scl_rounds.specs.Plans.{asked_plan, planned_on};
ghost use Rattle.scl_rounds.specs.Rounds.{asked_in, asked_run, behind_said, called, called_by_plan, detail_asked, detail_question, details_asked, fifth, fifth_asked, first, first_asked, fourth, has_detail, listed_files, listed_in, needed, needed_asked, needed_by, read_by, read_in, second, sixth, stage, third};
ghost use Rattle.scl_rounds.specs.Searches.{asked_search};
ghost use Rattle.scl_rounds.specs.Views.{key_in, key_of, machine_of};

use crate::answer::{Told, said_directory};
use crate::file::is_regular;
use crate::header::{all_inside, is_folder, places, push_named};
use crate::key::{Key, is_made};
use crate::listing::{candidates, is_searched, naming};
use crate::plan::{called_in, files_in_plan, plan_question, planned};
use crate::run::{entered_in, has_failed, loaded_in, marked_in};
use crate::search::{folders_named, search_question};
use crate::shown::{all_sources, marked, shown, shown_by, unmarked};
use crate::vain::is_vain;
use scl_key::{Ask, Direct, Part};
use scl_patterns::is_shown;
use scl_questions::{Language, Question};
use scl_text::command::copy_words;
use scl_values::Mem;
use std::alloc::Global;

/// The rounds, in order.
#[derive(Debug, Clone, Copy, PartialEq, Eq)]
pub(crate) enum Phase {
    /// What needs no answer.
    First,
    /// The runs, those that name folders, and where `PWD` leads.
    Runs,
    /// The runs in place of those that failed.
    RunsElse,
    /// The files that the runs name.
    Files,
    /// What is asked of those that are there.
    Details,
    /// What is in folders of precompiled headers.
    Inside,
}

/// What is asked of what stands at a path.
#[derive(Debug, Clone, Copy, PartialEq, Eq)]
pub(crate) enum Detail {
    /// Size and time of a file.
    Times,
    /// The bytes of a file.
    Content,
    /// The names in a folder.
    Names,
}

fn push_env(alloc: Global, questions: &mut Vec<Question>, name: &[u8]) -> Mem<()>
    ensures { OnOk result (questions_of questions.new.items ≡ questions_of questions.old.items ++ env name.now ∷ []) }
{
    questions.push(Question::Env(Vec::from_slice(alloc, name)?))?;
    Ok(())
}

fn push_file(alloc: Global, questions: &mut Vec<Question>, path: &[u8]) -> Mem<()>
    ensures { OnOk result (questions_of questions.new.items ≡ questions_of questions.old.items ++ file path.now ∷ []) }
{
    questions.push(Question::File(Vec::from_slice(alloc, path)?))?;
    Ok(())
}

fn push_program(alloc: Global, questions: &mut Vec<Question>, name: &[u8]) -> Mem<()>
    ensures { OnOk result (questions_of questions.new.items ≡ questions_of questions.old.items ++ program name.now ∷ []) }
{
    questions.push(Question::Program(Vec::from_slice(alloc, name)?))?;
    Ok(())
}

fn push_compiler(alloc: Global, questions: &mut Vec<Question>) -> Mem<()>
    ensures { OnOk result (questions_of questions.new.items ≡ questions_of questions.old.items ++ program [] ∷ []) }
{
    questions.push(Question::Program(Vec::new(alloc)))?;
    Ok(())
}

/// Appends what a run writes. Its messages belong to the key, so they are in the language in which the compilation writes them.
fn push_run(alloc: Global, questions: &mut Vec<Question>, words: &[Vec<u8>]) -> Mem<()>
    ensures { OnOk result (questions_of questions.new.items ≡ questions_of questions.old.items ++ asked_run (words_of words.now)) }
{
    questions.push(Question::Run(Language::Own, copy_words(alloc, words)?))?;
    Ok(())
}

/// Appends what the first round asks of a file that may be there, unless the command writes it.
fn push_maybe(alloc: Global, questions: &mut Vec<Question>, key: &Key<'_>, path: &[u8]) -> Mem<()>
    ensures { OnOk result (questions_of questions.new.items ≡ questions_of questions.old.items ++ first_asked (key_of key.now) asks.Maybe path.now) }
{
    if is_made(alloc, key, path)? {
        return Ok(());
    }
    push_file(alloc, questions, path)
}

/// Appends what the first round asks of a name.
fn push_asked(
    alloc: Global,
    questions: &mut Vec<Question>,
    key: &Key<'_>,
    ask: Ask,
    name: &[u8],
) -> Mem<()>
    ensures { OnOk result (questions_of questions.new.items ≡ questions_of questions.old.items ++ first_asked (key_of key.now) ask name.now) }
{
    match ask {
        Ask::Env | Ask::Unset => push_env(alloc, questions, name),
        Ask::File | Ask::Regular => push_file(alloc, questions, name),
        Ask::Maybe => push_maybe(alloc, questions, key, name),
        Ask::SourcesIfShown | Ask::RefuseIfShown => Ok(()),
    }
}

/// Appends variables.
fn push_envs(alloc: Global, questions: &mut Vec<Question>, names: &[Vec<u8>]) -> Mem<()>
    ensures { OnOk result (questions_of questions.new.items ≡ questions_of questions.old.items ++ map env (words_of names.now)) }
{
    for name in names {
        push_env(alloc, questions, name)?;
    }
    Ok(())
}

/// Appends the variables that name folders of headers.
fn push_variables(alloc: Global, questions: &mut Vec<Question>, searched: &[Vec<u8>]) -> Mem<()>
    ensures { OnOk result (questions_of questions.new.items ≡ questions_of questions.old.items ++ map env (named (codes "variable") (words_of searched.now))) }
{
    let mut names = Vec::new(alloc);
    push_named(alloc, &mut names, b"variable", searched)?;
    push_envs(alloc, questions, &names)
}

/// Appends what the first round asks for a part.
fn push_first(alloc: Global, questions: &mut Vec<Question>, key: &Key<'_>, part: &Part) -> Mem<()>
    ensures { OnOk result (questions_of questions.new.items ≡ questions_of questions.old.items ++ first (key_of key.now) (part_of part.now)) }
{
    match part {
        Part::Directory => push_env(alloc, questions, b"PWD"),
        Part::Compiler => push_compiler(alloc, questions),
        Part::Asked(ask, name) => push_asked(alloc, questions, key, *ask, name),
        Part::Pch(searched) => push_variables(alloc, questions, searched),
        Part::Is(_)
        | Part::Output(_)
        | Part::Plan(_)
        | Part::Run(_)
        | Part::RunElse(_)
        | Part::Sources
        | Part::Times => Ok(()),
    }
}

/// Appends the questions whether a name leads where the place does.
fn push_real(
    alloc: Global,
    questions: &mut Vec<Question>,
    place: &[u8],
    name: Option<&[u8]>,
) -> Mem<()>
    ensures { OnOk result (questions_of questions.new.items ≡ questions_of questions.old.items ++ behind_said place.now (option_copied name.entry)) }
{
    if let Some(name) = name {
        if name.starts_with(b"/") {
            questions.push(Question::Real(Vec::from_slice(alloc, name)?))?;
            questions.push(Question::Real(Vec::from_slice(alloc, place)?))?;
        }
    }
    Ok(())
}

/// Appends a plan.
fn push_plan(alloc: Global, questions: &mut Vec<Question>, words: &[Vec<u8>]) -> Mem<()>
    ensures { OnOk result (questions_of questions.new.items ≡ questions_of questions.old.items ++ asked_plan (words_of words.now) ∷ []) }
{
    questions.push(plan_question(alloc, words)?)?;
    Ok(())
}

/// Appends the runs that name folders.
fn push_searches(alloc: Global, questions: &mut Vec<Question>, key: &Key<'_>) -> Mem<()>
    ensures { OnOk result (questions_of questions.new.items ≡ questions_of questions.old.items ++ map asked_search (searches (key_of key.now))) }
{
    for one in key.direct {
        if let Direct::Search(words) = one {
            questions.push(search_question(alloc, words)?)?;
        }
    }
    Ok(())
}

/// Appends what the second round asks for a part.
fn push_second(questions: &mut Vec<Question>, told: &Told<'_>, part: &Part) -> Mem<()>
    ensures { OnOk result (questions_of questions.new.items ≡ questions_of questions.old.items ++ second (key_in told.now) (machine_of told.now) (part_of part.now)) }
{
    match part {
        Part::Directory => {
            let name = said_directory(told)?;
            push_real(told.alloc, questions, told.key.place, name)
        }
        Part::Plan(words) => push_plan(told.alloc, questions, words),
        Part::Run(words) => push_run(told.alloc, questions, words),
        Part::Pch(_) => push_searches(told.alloc, questions, told.key),
        Part::Is(_)
        | Part::Output(_)
        | Part::Compiler
        | Part::Asked(_, _)
        | Part::RunElse(_)
        | Part::Sources
        | Part::Times => Ok(()),
    }
}

/// Appends what the third round asks for a part.
fn push_third(questions: &mut Vec<Question>, told: &Told<'_>, part: &Part) -> Mem<()>
    ensures { OnOk result (questions_of questions.new.items ≡ questions_of questions.old.items ++ third (key_in told.now) (machine_of told.now) (part_of part.now)) }
{
    if let Part::RunElse(words) = part {
        if has_failed(told)? {
            push_run(told.alloc, questions, words)?;
        }
    }
    Ok(())
}

/// Each file that a text names: the headers that it loads, and all that its markers name.
fn read_in(alloc: Global, text: &[u8]) -> Mem<Vec<Vec<u8>>>
    ensures { IfOk result (λ names. words_of names.items ≡ read_in text.now) }
{
    let mut names = loaded_in(alloc, text)?;
    names.append(&mut marked_in(alloc, text)?)?;
    names.append(&mut entered_in(alloc, text)?)?;
    Ok(names)
}

/// Each file that the text of a run names, if there is a text.
fn read_by(alloc: Global, text: Option<&[u8]>) -> Mem<Vec<Vec<u8>>>
    ensures { IfOk result (λ names. words_of names.items ≡ read_by (option_copied text.entry)) }
{
    match text {
        Some(text) => read_in(alloc, text),
        None => Ok(Vec::new(alloc)),
    }
}

/// The files that a plan names.
fn needed_by_plan(told: &Told<'_>, words: &[Vec<u8>]) -> Mem<Vec<Vec<u8>>>
    ensures { IfOk result (λ names. words_of names.items ≡ needed_by (key_in told.now) (planned_on (machine_of told.now) (words_of words.now))) }
{
    match planned(told, words)? {
        Some(written) => files_in_plan(told.alloc, told.key, &written.messages),
        None => Ok(Vec::new(told.alloc)),
    }
}

/// The programs that a plan calls.
fn called_by_plan(told: &Told<'_>, words: &[Vec<u8>]) -> Mem<Vec<Vec<u8>>>
    ensures { IfOk result (λ names. words_of names.items ≡ called_by_plan (planned_on (machine_of told.now) (words_of words.now))) }
{
    match planned(told, words)? {
        Some(written) => called_in(told.alloc, &written.messages),
        None => Ok(Vec::new(told.alloc)),
    }
}

/// The programs that a part calls.
fn called(told: &Told<'_>, part: &Part) -> Mem<Vec<Vec<u8>>>
    ensures { IfOk result (λ names. words_of names.items ≡ called (machine_of told.now) (part_of part.now)) }
{
    match part {
        Part::Plan(words) => called_by_plan(told, words),
        Part::Is(_)
        | Part::Output(_)
        | Part::Directory
        | Part::Compiler
        | Part::Asked(_, _)
        | Part::Run(_)
        | Part::RunElse(_)
        | Part::Pch(_)
        | Part::Sources
        | Part::Times => Ok(Vec::new(told.alloc)),
    }
}

/// The sources, if a text has the pattern.
fn needed_if_shown(told: &Told<'_>, pattern: &[u8]) -> Mem<Vec<Vec<u8>>>
    ensures { IfOk result (λ names. words_of names.items ≡ needed_asked (key_in told.now) (machine_of told.now) asks.SourcesIfShown pattern.now) }
{
    match is_shown(told.alloc, pattern, &shown(told)?)? {
        Some(true) => all_sources(told),
        Some(false) | None => Ok(Vec::new(told.alloc)),
    }
}

/// The files that are needed by what is asked of a name.
fn needed_asked(told: &Told<'_>, ask: Ask, name: &[u8]) -> Mem<Vec<Vec<u8>>>
    ensures { IfOk result (λ names. words_of names.items ≡ needed_asked (key_in told.now) (machine_of told.now) ask name.now) }
{
    match ask {
        Ask::SourcesIfShown => needed_if_shown(told, name),
        Ask::RefuseIfShown => unmarked(told),
        Ask::Env | Ask::Unset | Ask::File | Ask::Maybe | Ask::Regular => {
            Ok(Vec::new(told.alloc))
        }
    }
}

/// The files that a part needs, by what the runs wrote.
fn needed(told: &Told<'_>, part: &Part) -> Mem<Vec<Vec<u8>>>
    ensures { IfOk result (λ names. words_of names.items ≡ needed (key_in told.now) (machine_of told.now) (part_of part.now)) }
{
    match part {
        Part::Run(_) | Part::RunElse(_) => read_by(told.alloc, shown_by(told, part)?),
        Part::Plan(words) => needed_by_plan(told, words),
        Part::Asked(ask, name) => needed_asked(told, *ask, name),
        Part::Sources => all_sources(told),
        Part::Times => marked(told),
        Part::Pch(searched) => places(told, searched),
        Part::Is(_) | Part::Output(_) | Part::Directory | Part::Compiler => Ok(Vec::new(
            told.alloc,
        )),
    }
}

/// Appends what stands at each of these paths.
fn push_files(alloc: Global, questions: &mut Vec<Question>, paths: &[Vec<u8>]) -> Mem<()>
    ensures { OnOk result (questions_of questions.new.items ≡ questions_of questions.old.items ++ map file (words_of paths.now)) }
{
    for path in paths {
        push_file(alloc, questions, path)?;
    }
    Ok(())
}

/// Appends each of these programs.
fn push_programs(alloc: Global, questions: &mut Vec<Question>, names: &[Vec<u8>]) -> Mem<()>
    ensures { OnOk result (questions_of questions.new.items ≡ questions_of questions.old.items ++ map program (words_of names.now)) }
{
    for name in names {
        push_program(alloc, questions, name)?;
    }
    Ok(())
}

/// Appends what the fourth round asks for a part.
fn push_fourth(questions: &mut Vec<Question>, told: &Told<'_>, part: &Part) -> Mem<()>
    ensures { OnOk result (questions_of questions.new.items ≡ questions_of questions.old.items ++ fourth (key_in told.now) (machine_of told.now) (part_of part.now)) }
{
    push_programs(told.alloc, questions, &called(told, part)?)?;
    push_files(told.alloc, questions, &needed(told, part)?)
}

/// Whether a file stands at a path, or a folder, as the detail wants it.
fn has_detail(told: &Told<'_>, detail: Detail, path: &[u8]) -> Mem<bool>
    ensures { IfOk result (λ it. it ≡ has_detail detail (machine_of told.now (file path.now))) }
{
    match detail {
        Detail::Times | Detail::Content => is_regular(told, path),
        Detail::Names => is_folder(told, path),
    }
}

fn detail_question(alloc: Global, detail: Detail, path: &[u8]) -> Mem<Question>
    ensures { IfOk result (λ question. question_of question ≡ detail_question detail path.now) }
{
    let path = Vec::from_slice(alloc, path)?;
    match detail {
        Detail::Times => Ok(Question::Times(path)),
        Detail::Content => Ok(Question::Bytes(path)),
        Detail::Names => Ok(Question::Names(path)),
    }
}

/// Appends what is asked of what stands at a path, if there is a file, or a folder.
fn push_detail(
    questions: &mut Vec<Question>,
    told: &Told<'_>,
    detail: Detail,
    path: &[u8],
) -> Mem<()>
    ensures { OnOk result (questions_of questions.new.items ≡ questions_of questions.old.items ++ detail_asked detail (machine_of told.now) path.now) }
{
    if has_detail(told, detail, path)? {
        questions.push(detail_question(told.alloc, detail, path)?)?;
    }
    Ok(())
}

/// Appends what is asked of those of these that are files, or folders.
fn push_details(
    questions: &mut Vec<Question>,
    told: &Told<'_>,
    detail: Detail,
    paths: &[Vec<u8>],
) -> Mem<()>
    ensures { OnOk result (questions_of questions.new.items ≡ questions_of questions.old.items ++ details_asked detail (machine_of told.now) (words_of paths.now)) }
{
    for path in paths {
        push_detail(questions, told, detail, path)?;
    }
    Ok(())
}

/// Appends what the fifth round asks for what is asked of a name.
fn push_fifth_asked(questions: &mut Vec<Question>, told: &Told<'_>, ask: Ask) -> Mem<()>
    ensures { OnOk result (questions_of questions.new.items ≡ questions_of questions.old.items ++ fifth_asked (key_in told.now) (machine_of told.now) ask) }
{
    match ask {
        Ask::RefuseIfShown => {
            let inputs = unmarked(told)?;
            push_details(questions, told, Detail::Content, &inputs)
        }
        Ask::Env | Ask::Unset | Ask::File | Ask::Maybe | Ask::Regular | Ask::SourcesIfShown => Ok(
            (),
        ),
    }
}

/// Appends what the fifth round asks for a part.
fn push_fifth(questions: &mut Vec<Question>, told: &Told<'_>, part: &Part) -> Mem<()>
    ensures { OnOk result (questions_of questions.new.items ≡ questions_of questions.old.items ++ fifth (key_in told.now) (machine_of told.now) (part_of part.now)) }
{
    match part {
        Part::Asked(ask, _) => push_fifth_asked(questions, told, *ask),
        Part::Pch(searched) => {
            let paths = places(told, searched)?;
            push_details(questions, told, Detail::Names, &paths)
        }
        Part::Times => {
            let files = marked(told)?;
            push_details(questions, told, Detail::Times, &files)
        }
        Part::Is(_)
        | Part::Output(_)
        | Part::Directory
        | Part::Compiler
        | Part::Plan(_)
        | Part::Run(_)
        | Part::RunElse(_)
        | Part::Sources => Ok(()),
    }
}

/// Appends what the sixth round asks for a part.
fn push_sixth(questions: &mut Vec<Question>, told: &Told<'_>, part: &Part) -> Mem<()>
    ensures { OnOk result (questions_of questions.new.items ≡ questions_of questions.old.items ++ sixth (key_in told.now) (machine_of told.now) (part_of part.now)) }
{
    if let Part::Pch(searched) = part {
        let paths = places(told, searched)?;
        push_files(told.alloc, questions, &all_inside(told, &paths)?)?;
    }
    Ok(())
}

/// Appends the variables whose values decide what a run writes.
fn push_variables_of(alloc: Global, questions: &mut Vec<Question>, key: &Key<'_>) -> Mem<()>
    ensures { OnOk result (questions_of questions.new.items ≡ questions_of questions.old.items ++ map env (variables (key_of key.now))) }
{
    for one in key.direct {
        if let Direct::Env(name) = one {
            push_env(alloc, questions, name.as_bytes())?;
        }
    }
    Ok(())
}

/// Appends where each of these paths leads.
fn push_reals(alloc: Global, questions: &mut Vec<Question>, paths: &[Vec<u8>]) -> Mem<()>
    ensures { OnOk result (questions_of questions.new.items ≡ questions_of questions.old.items ++ map real (words_of paths.now)) }
{
    for path in paths {
        questions.push(Question::Real(Vec::from_slice(alloc, path)?))?;
    }
    Ok(())
}

/// Appends what a round asks of files for a list of answers. Where links lead two folders to one, a compiler searches one of them.
fn push_listed_files(questions: &mut Vec<Question>, told: &Told<'_>, phase: Phase) -> Mem<()>
    ensures { OnOk result (questions_of questions.new.items ≡ questions_of questions.old.items ++ listed_files (key_in told.now) phase (machine_of told.now)) }
{
    match phase {
        Phase::First | Phase::Runs | Phase::RunsElse => Ok(()),
        Phase::Files => {
            push_files(told.alloc, questions, &all_sources(told)?)?;
            push_files(told.alloc, questions, &naming(told)?)
        }
        Phase::Details => {
            let sources = naming(told)?;
            push_details(questions, told, Detail::Content, &sources)
        }
        Phase::Inside => {
            push_reals(told.alloc, questions, &folders_named(told)?)?;
            push_files(told.alloc, questions, &candidates(told)?)
        }
    }
}

/// Appends what a round asks for a list of answers.
fn push_listed(questions: &mut Vec<Question>, told: &Told<'_>, phase: Phase) -> Mem<()>
    ensures { OnOk result (questions_of questions.new.items ≡ questions_of questions.old.items ++ listed_in (key_in told.now) phase (machine_of told.now)) }
{
    match phase {
        Phase::First => push_variables_of(told.alloc, questions, told.key),
        Phase::Runs => push_searches(told.alloc, questions, told.key),
        Phase::RunsElse => Ok(()),
        Phase::Files | Phase::Details | Phase::Inside => {
            if is_searched(told.key) {
                push_listed_files(questions, told, phase)
            } else {
                Ok(())
            }
        }
    }
}

/// Appends what a round asks for the parts of a key.
fn push_asked_in(questions: &mut Vec<Question>, told: &Told<'_>, phase: Phase) -> Mem<()>
    ensures { OnOk result (questions_of questions.new.items ≡ questions_of questions.old.items ++ flat_map (asked_in (key_in told.now) phase (machine_of told.now)) (key_in told.now).parts) }
{
    for part in told.key.parts {
        match phase {
            Phase::First => push_first(told.alloc, questions, told.key, part)?,
            Phase::Runs => push_second(questions, told, part)?,
            Phase::RunsElse => push_third(questions, told, part)?,
            Phase::Files => push_fourth(questions, told, part)?,
            Phase::Details => push_fifth(questions, told, part)?,
            Phase::Inside => push_sixth(questions, told, part)?,
        }
    }
    Ok(())
}

/// What a round asks, by the answers of those before it; none: nothing may be kept.
pub(crate) fn questions(told: &Told<'_>, phase: Phase) -> Mem<Option<Vec<Question>>>
    ensures { IfOk result (λ it. option_map (λ questions. questions_of questions.items) it ≡ stage (key_in told.now) phase (machine_of told.now)) }
{
    if is_vain(told, phase)? {
        return Ok(None);
    }
    let mut questions = Vec::new(told.alloc);
    push_asked_in(&mut questions, told, phase)?;
    push_listed(&mut questions, told, phase)?;
    Ok(Some(questions))
}
