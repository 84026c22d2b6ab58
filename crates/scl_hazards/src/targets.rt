//! Targets of dependencies and objects, by which one names the other.
ghost use Rattle.std.specs.Prelude.{◌≡◌, map, IfOk};
ghost use Rattle.std.specs.List.{list_any};
ghost use Rattle.std.specs.Option.{option_copied};
ghost use Rattle.scl_catalogue.specs.Views.{seen_of};
ghost use Rattle.scl_hazards.specs.Targets.{has_other_target, is_other, is_renamed, joined_target, names_other};

use scl_catalogue::{Seen, Standing};
use scl_text::path::{file_name, with_extension};
use scl_values::Mem;
use std::alloc::Global;

/// The target that is joined to its flag.
fn joined_target(word: &[u8]) -> Option<&[u8]>
    ensures { option_copied result ≡ joined_target word.now }
{
    word.strip_prefix(b"-MT").or(word.strip_prefix(b"-MQ"))
}

/// Whether there is a target, and not this object.
fn is_other(target: Option<&[u8]>, object: &[u8]) -> bool
    ensures { result ≡ is_other object.now (option_copied target.entry) }
{
    match target {
        Some(target) => target != object,
        None => false,
    }
}

/// Whether the option names a target that is not this object.
fn names_other(option: &Seen<'_>, object: &[u8]) -> bool
    ensures { result ≡ names_other object.now (seen_of option.now) }
{
    match option.standing {
        Standing::Raw => false,
        Standing::Unknown => is_other(joined_target(option.name), object),
        Standing::Known => option.kind == b"dep-target".as_slice() && option.value != object,
    }
}

/// Whether an option names a target that is not this object.
pub(crate) fn has_other_target(options: &[Seen<'_>], object: &[u8]) -> bool
    ensures { result ≡ has_other_target object.now (map seen_of options.now) }
{
    for option in options {
        if names_other(option, object) {
            return true;
        }
    }
    false
}

/// Whether the object is not the input's file name with extension o.
pub(crate) fn is_renamed(alloc: Global, input: &[u8], object: &[u8]) -> Mem<bool>
    ensures { IfOk result (λ it_is. it_is ≡ is_renamed input.now object.now) }
{
    match file_name(input) {
        Some(name) => {
            let named = with_extension(alloc, name, b"o")?;
            Ok(named.as_slice() != object)
        }
        None => Ok(true),
    }
}
