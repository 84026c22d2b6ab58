//! What follows for the commands of Gcc and Clang. Each law is a clause of a function with an empty body.
ghost use Rattle.scl_gnu.specs.OutputFiles.{OutputFilesAreLeftOut};
ghost use Rattle.scl_gnu.specs.OwnTables.{OwnCommandsAreReadAgain};
ghost use Rattle.scl_gnu.specs.Preprocess.{OneArchitectureHasOneRun, EachArchitectureHasItsRun};
ghost use Rattle.scl_gnu.specs.ReadAgain.{GccCommandsAreFaithful, ClangCommandsAreFaithful, GccRecordsHaveObjects, ClangRecordsHaveObjects, GccLinesHaveNoEmpty, ClangLinesHaveNoEmpty};

pub use scl_gnu_reading::laws::of_tables;

/// Laws of the records of Gcc and of Clang (docs/RULES.md, Cutting again):
///
/// - `gcc_has_objects`, `clang_has_objects`: a record that was read has an object, and so a command;
/// - `gcc_has_no_empty`, `clang_has_no_empty`: if a command line has a record, none of its options, outer or inner, has an
///   empty value of an either row.
pub fn of_records()
    ensures gcc_has_objects { GccRecordsHaveObjects }
    ensures clang_has_objects { ClangRecordsHaveObjects }
    ensures gcc_has_no_empty { GccLinesHaveNoEmpty }
    ensures clang_has_no_empty { ClangLinesHaveNoEmpty }
{}

/// Laws of the commands of records of Gcc and of Clang (docs/RULES.md, Cutting again, and Words that name response files):
///
/// - `gcc_commands_are_faithful`, `clang_commands_are_faithful`: if words have a record, its command keeps what the calls
///   promise of it. It is read again: cut by the compiler's tables, it gives its own words, the carried and the added options
///   with unchanged values, and the input. Clang's words after `-Xclang`, cut again, give the inner options, list by list.
///   And it names no response file of its own: no word of it begins with `@` unless the object, an option's value, an input
///   or an unknown flag does, outer or inner.
pub fn of_commands()
    ensures gcc_commands_are_faithful { GccCommandsAreFaithful }
    ensures clang_commands_are_faithful { ClangCommandsAreFaithful }
{}

/// Laws of the preprocessor's runs (docs/RULES.md, Preprocessing):
///
/// - `output_files_are_left_out`: of words without those that make the preprocessor write a file, exactly what the rule
///   leaves is left, in order;
/// - `one_architecture_has_one_run`: a record with at most one architecture has one run;
/// - `each_architecture_has_its_run`: the runs of several architectures differ in the words of their architecture, and in
///   what only the last one has.
pub fn of_runs()
    ensures output_files_are_left_out { OutputFilesAreLeftOut }
    ensures one_architecture_has_one_run { OneArchitectureHasOneRun }
    ensures each_architecture_has_its_run { EachArchitectureHasItsRun }
{}

/// The law of commands by a caller's own tables (docs/RULES.md, Cutting again). Suppose that `keep_own_words`, which can be
/// computed, is true of the tables, and words have a record by them. Then its command is read again by them: it gives its own
/// words, the carried and the added options with unchanged values, and the input. The words after `-Xclang`, cut by Clang's
/// tables, give the inner options, list by list.
pub fn of_own_tables()
    ensures own_commands_are_read_again { OwnCommandsAreReadAgain }
{}
