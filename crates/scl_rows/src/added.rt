//! The rows of what the rules add to a command.
ghost use Rattle.std.specs.Prelude.{◌≡◌, ◌∷◌, [], IfOk, OnOk, ◌++◌, is_some, map};
ghost use Rattle.scl_args.specs.Options.{last_flag, last_text};
ghost use Rattle.scl_gnu_reading.specs.Kinds.{of};
ghost use Rattle.scl_text.specs.Records.{outcome_of, parsed_of};
ghost use Rattle.scl_values.specs.Words.{words_of};
ghost use Rattle.scl_rows.specs.GnuRows.{row_added, rows_added, rows_depfile, rows_recorded, rows_split, rows_target, words_added};
ghost use Rattle.scl_rows.specs.Rows.{told};

use crate::destination::Destination;
use crate::origin::Origin;
use crate::row::{Row, append_rows};
use scl_args::{Mem, OfKinds, Options};
use scl_gnu_reading::gcc::{ArgData, Kind, needs_target};
use scl_kinds::NamedKind;
use scl_text::language::Language;
use scl_text::outputs::output_path;
use scl_text::path::with_extension;
use scl_text::records::{CompilerArguments, ParsedArguments};
use scl_values::join_word;
use std::alloc::Global;

/// The words of an added option in this list: two about dependencies, else one.
fn words_added(alloc: Global, there: Destination, flag: &str, value: &[u8]) -> Mem<Vec<Vec<u8>>>
    ensures { IfOk result (λ words. words_of words.items ≡ words_added there flag.now value.now) }
{
    if there != Destination::Dependency {
        return Ok(vec![in alloc; join_word(alloc, flag, None, value)?]?);
    }
    let first = Vec::from_slice(alloc, flag.as_bytes())?;
    Ok(vec![in alloc; first, Vec::from_slice(alloc, value)?]?)
}

/// An added row of a flag of this kind with its value.
fn row_added(
    alloc: Global,
    there: Destination,
    flag: &'static str,
    value: &[u8],
    kind: Kind,
) -> Mem<Row>
    ensures { IfOk result (λ row. told row ≡ row_added there flag.now value.now kind) }
{
    Ok(Row {
        given: Vec::new(alloc),
        flag: Some(flag),
        value: Some(Vec::from_slice(alloc, value)?),
        kind: kind.name(),
        destination: there,
        origin: Origin::Added,
        printed: words_added(alloc, there, flag, value)?,
        refusal: None,
        at: None,
    })
}

/// Appends the row of the dependency file's path, unless the line has one.
fn push_depfile(alloc: Global, rows: &mut Vec<Row>, has_path: bool, object: &[u8]) -> Mem<()>
    ensures { OnOk result (map told rows.new.items ≡ map told rows.old.items ++ rows_depfile has_path object.now) }
{
    if !has_path {
        let path = with_extension(alloc, object, b"d")?;
        let there = Destination::Dependency;
        rows.push(row_added(alloc, there, "-MF", &path, Kind::DepArgumentPath)?)?;
    }
    Ok(())
}

/// The rows of the target and of the dependency file, if a target is needed.
fn target_rows(
    alloc: Global,
    options: &Options<ArgData>,
    is_needed: bool,
    object: &[u8],
) -> Mem<Vec<Row>>
    ensures { IfOk result (λ rows. map told rows.items ≡ rows_target is_needed (is_some (last_text (of (Kind.DepArgumentPath ∷ [])) options.now))
        (last_flag (of (Kind.DepTarget ∷ [])) options.now) (last_text (of (Kind.DepTarget ∷ [])) options.now) object.now) }
{
    let mut rows = Vec::new(alloc);
    if is_needed {
        let target = OfKinds(&[Kind::DepTarget]);
        let flag = options.last_flag(&target).unwrap_or("-MT");
        let value = options.last_text(&target).unwrap_or(object);
        let there = Destination::Dependency;
        rows.push(row_added(alloc, there, flag, value, Kind::DepTarget)?)?;
        let path = options.last_text(&OfKinds(&[Kind::DepArgumentPath]));
        push_depfile(alloc, &mut rows, path.is_some(), object)?;
    }
    Ok(rows)
}

/// The row of the split debug information's path.
fn split_rows(alloc: Global, is_split: bool, object: &[u8]) -> Mem<Vec<Row>>
    ensures { IfOk result (λ rows. map told rows.items ≡ rows_split is_split object.now) }
{
    let mut rows = Vec::new(alloc);
    if is_split {
        let path = with_extension(alloc, object, b"dwo")?;
        let (there, flag) = (Destination::Common, "-D_gsplit_dwarf_path=");
        rows.push(row_added(alloc, there, flag, &path, Kind::PassThrough)?)?;
    }
    Ok(rows)
}

/// The rows that are added to the compilation of an input in this language to this object.
fn rows_added(
    alloc: Global,
    options: &Options<ArgData>,
    language: Language,
    object: &[u8],
) -> Mem<Vec<Row>>
    ensures { IfOk result (λ rows. map told rows.items ≡ rows_added options.now language object.now) }
{
    let is_needed = needs_target(language, options);
    let mut rows = target_rows(alloc, options, is_needed, object)?;
    let is_split = options.any(&OfKinds(&[Kind::SplitDwarf]));
    append_rows(&mut rows, split_rows(alloc, is_split, object)?)?;
    Ok(rows)
}

/// The rows that are added to options with this outcome; none if that is not a record.
pub(crate) fn rows_recorded(
    alloc: Global,
    options: &Options<ArgData>,
    outcome: &CompilerArguments<ParsedArguments>,
) -> Mem<Vec<Row>>
    ensures { IfOk result (λ rows. map told rows.items ≡ rows_recorded options.now (outcome_of outcome.now)) }
{
    let CompilerArguments::Ok(parsed) = outcome else {
        return Ok(Vec::new(alloc));
    };
    match output_path(&parsed.outputs, "obj") {
        Some(object) => rows_added(alloc, options, parsed.language, object),
        None => Ok(Vec::new(alloc)),
    }
}
