//! The rows of a line that was read, given or inner.
ghost use Rattle.std.specs.Prelude.{◌≡◌, ◌++◌, IfOk, OnOk, codes, drop, map, unwrap_or};
ghost use Rattle.std.specs.Option.{option_map};
ghost use Rattle.scl_text.specs.Lines.{dangled_of};
ghost use Rattle.scl_rows.specs.Lines.{line_rows, row_dangling, row_end};
ghost use Rattle.scl_rows.specs.Rows.{told};

use crate::destination::Destination;
use crate::origin::Origin;
use crate::row::{Ahead, Row, first_row};
use crate::ways::Ways;
use scl_args::{Mem, ReadArg};
use scl_kinds::NamedKind;
use scl_text::refusal::argument_parse;
use scl_text::{Dangling, ReadLine, word_count};
use std::alloc::Global;

/// What follows the first `count`.
fn behind<T>(all: &[T], count: usize) -> &[T]
    ensures { result.now ≡ drop count all.now }
{
    &all[count.min(all.len())..]
}

fn end_flag<K>(owner: &Option<(&'static str, K)>) -> Option<&'static str>
    ensures { option_map (λ flag. flag.now) result ≡ option_map (λ owner. owner.0.now) owner.now }
{
    match owner {
        Some((flag, _)) => Some(*flag),
        None => None,
    }
}

fn end_kind<K: NamedKind>(owner: &Option<(&'static str, K)>) -> &'static str
    ensures { result.now ≡ unwrap_or (option_map K.name_of (option_map (λ owner. owner.1) owner.now)) (codes "unknown") }
{
    match owner {
        Some((_, kind)) => kind.name(),
        None => "unknown",
    }
}

/// The row of a last flag without its value.
fn dangling_row<K: NamedKind>(alloc: Global, origin: Origin, dangling: &Dangling<K>) -> Mem<Row>
    ensures { IfOk result (λ row. told row ≡ row_dangling K.name_of origin (dangled_of dangling.now)) }
{
    Ok(Row {
        given: vec![in alloc; Vec::from_slice(alloc, &dangling.word)?]?,
        flag: end_flag(&dangling.owner),
        value: None,
        kind: end_kind(&dangling.owner),
        destination: Destination::Refused,
        origin,
        printed: Vec::new(alloc),
        refusal: Some(argument_parse(alloc)?),
        at: dangling.at,
    })
}

/// Appends the row of a dangling end, if there is one.
fn push_end<K: NamedKind>(
    alloc: Global,
    rows: &mut Vec<Row>,
    origin: Origin,
    dangling: Option<&Dangling<K>>,
) -> Mem<()>
    ensures { OnOk result (map told rows.new.items ≡ map told rows.old.items ++ row_end K.name_of origin (option_map (λ d. dangled_of d.now) dangling.entry)) }
{
    match dangling {
        Some(dangling) => {
            rows.push(dangling_row(alloc, origin, dangling)?)?;
            Ok(())
        }
        None => Ok(()),
    }
}

/// Appends the rows of a line.
pub(crate) fn push_line<T: ReadArg, W: Ways<T>>(
    alloc: Global,
    rows: &mut Vec<Row>,
    line: &ReadLine<T>,
    ways: &W,
) -> Mem<()>
where
    T::Kind: NamedKind,
    ensures { OnOk result (map told rows.new.items ≡ map told rows.old.items ++ line_rows (record { name = T.Kind.name_of; goes = W.goes ways.now; side = W.side ways.now; origin = W.comes ways.now }) line.now) }
{
    let cut = line.line();
    let mut ahead = Ahead {
        words: line.words(),
        ats: cut.ats(),
        refusals: cut.refusals(),
    };
    for option in cut.options().as_slice() {
        rows.push(first_row(alloc, option, ways, &ahead)?)?;
        ahead.words = behind(ahead.words, word_count(option));
        ahead.ats = behind(ahead.ats, 1);
        ahead.refusals = behind(ahead.refusals, 1);
    }
    push_end(alloc, rows, ways.origin(), cut.dangling())
}
