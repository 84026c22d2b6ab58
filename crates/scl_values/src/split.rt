//! A value split at a text.
ghost use Rattle.scl_values.specs.Texts.{IsSplitAt};

use crate::error::ArgParseResult;
use crate::value::FromArg;
use std::alloc::Global;

/// The text before the first `split`, and the text after it if `split` occurs (docs/RULES.md, Texts). The errors:
/// - `InvalidUnicode`, with the bytes: they are not UTF-8.
/// - `Memory`: an allocation failed.
pub fn split_os_string_arg(
    alloc: Global,
    val: Vec<u8>,
    split: &str,
) -> ArgParseResult<(String, Option<String>)>
    ensures { IsSplitAt split.now val.items result }
{
    let text = String::process(alloc, val)?;
    match text.as_str().split_once(split) {
        Some((before, after)) => {
            let before = String::from_str(alloc, before)?;
            Ok((before, Some(String::from_str(alloc, after)?)))
        }
        None => Ok((text, None)),
    }
}
