//! The words of the runs of the preprocessor.
ghost use Rattle.std.specs.Prelude.{◌≡◌, ◌++◌, IfOk, OnOk};
ghost use Rattle.scl_values.specs.Words.{words_of};
ghost use Rattle.scl_text.specs.Records.{parsed_of};
ghost use Rattle.scl_text.specs.Runs.{runs_of};
ghost use Rattle.scl_small.specs.Command.{diab_words, diab_runs, input_and_list_words, depfile_runs, tasking_runs};

use scl_text::Mem;
use scl_text::command::{push_word, push_words};
use scl_text::records::ParsedArguments;
use std::alloc::Global;

fn diab_words(alloc: Global, parsed: &ParsedArguments) -> Mem<Vec<Vec<u8>>>
    ensures { IfOk result (λ made. words_of made.items ≡ diab_words (parsed_of parsed.now)) }
{
    let mut words = Vec::new(alloc);
    push_word(alloc, &mut words, b"-E")?;
    push_word(alloc, &mut words, &parsed.input)?;
    push_words(alloc, &mut words, &parsed.dependency_args)?;
    push_words(alloc, &mut words, &parsed.preprocessor_args)?;
    push_words(alloc, &mut words, &parsed.common_args)?;
    Ok(words)
}

/// The words of Diab's only run.
pub(crate) fn diab_runs(alloc: Global, parsed: &ParsedArguments) -> Mem<Vec<Vec<Vec<u8>>>>
    ensures { IfOk result (λ runs. runs_of runs.items ≡ diab_runs (parsed_of parsed.now)) }
{
    let mut runs = Vec::new(alloc);
    runs.push(diab_words(alloc, parsed)?)?;
    Ok(runs)
}

/// Appends the input and the lists.
fn push_input_and_lists(
    alloc: Global,
    words: &mut Vec<Vec<u8>>,
    parsed: &ParsedArguments,
) -> Mem<()>
    ensures { OnOk result (words_of words.new.items ≡ words_of words.old.items ++ input_and_list_words (parsed_of parsed.now)) }
{
    push_word(alloc, words, &parsed.input)?;
    push_words(alloc, words, &parsed.preprocessor_args)?;
    push_words(alloc, words, &parsed.common_args)
}

/// Appends the run that writes the dependency file, if the record has one.
fn push_depfile_run(
    alloc: Global,
    runs: &mut Vec<Vec<Vec<u8>>>,
    parsed: &ParsedArguments,
) -> Mem<()>
    ensures { OnOk result (runs_of runs.new.items ≡ runs_of runs.old.items ++ depfile_runs (parsed_of parsed.now).depfile (parsed_of parsed.now)) }
{
    let Some(depfile) = &parsed.depfile else {
        return Ok(());
    };
    let mut words = Vec::new(alloc);
    push_word(alloc, &mut words, b"-Em")?;
    push_word(alloc, &mut words, b"-o")?;
    push_word(alloc, &mut words, depfile)?;
    push_input_and_lists(alloc, &mut words, parsed)?;
    runs.push(words)?;
    Ok(())
}

/// The words of TaskingVX's runs: the one that writes the dependency file, if there is one, and the one that preprocesses.
pub(crate) fn tasking_runs(alloc: Global, parsed: &ParsedArguments) -> Mem<Vec<Vec<Vec<u8>>>>
    ensures { IfOk result (λ runs. runs_of runs.items ≡ tasking_runs (parsed_of parsed.now)) }
{
    let mut runs = Vec::new(alloc);
    push_depfile_run(alloc, &mut runs, parsed)?;
    let mut words = Vec::new(alloc);
    push_word(alloc, &mut words, b"-E")?;
    push_input_and_lists(alloc, &mut words, parsed)?;
    runs.push(words)?;
    Ok(runs)
}
