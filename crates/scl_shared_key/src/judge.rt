//! Whether an object names the place where it is made, by the words of its command.
ghost use Rattle.std.specs.Prelude.{◌≡◌, IfOk};
ghost use Rattle.scl_values.specs.Words.{words_of};
ghost use Rattle.scl_catalogue.specs.Views.{lexicon_of};
ghost use Rattle.scl_shared_key.specs.MapViews.{maps_of};
ghost use Rattle.scl_shared_key.specs.Maps.{maps_among};
ghost use Rattle.scl_shared_key.specs.Verdicts.{named_in, named_in_debug_info, verdict};
ghost use Rattle.scl_shared_key.specs.Views.{object_of, verdict_of};

use crate::maps::{PrefixMap, debug_info_is_free, macros_are_free, push_maps};
use crate::object::Object;
use crate::said::{InObject, Verdict, names_planned, names_shown};
use crate::usual::are_usual;
use scl_values::Mem;
use std::alloc::Global;

/// What debug information leaves of the directories.
fn named_in_debug_info(
    dirs: &[Vec<u8>],
    object: &Object<'_, '_>,
    maps: &[PrefixMap<'_>],
) -> InObject
    requires { maps_of maps.now ≡ maps_among (lexicon_of object.now.lexicon.now) (object_of object.now).words }
    ensures { result ≡ named_in_debug_info (words_of dirs.now) (object_of object.now) }
{
    if object.maps_reach() && debug_info_is_free(dirs, maps) {
        InObject::Mapped
    } else {
        InObject::Yes
    }
}

/// Whether the object, whose command has these prefix maps, names one of the directories.
fn named_in(dirs: &[Vec<u8>], object: &Object<'_, '_>, maps: &[PrefixMap<'_>]) -> InObject
    requires { maps_of maps.now ≡ maps_among (lexicon_of object.now.lexicon.now) (object_of object.now).words }
    ensures { result ≡ named_in (words_of dirs.now) (object_of object.now) }
{
    if !are_usual(dirs) || !object.is_of_shown_text || object.may_name_anything() {
        return InObject::Yes;
    }
    if object.has_debug_info() {
        named_in_debug_info(dirs, object, maps)
    } else {
        InObject::No
    }
}

/// The prefix maps of the command.
fn prefix_maps<'a>(alloc: Global, object: &Object<'a, '_>) -> Mem<Vec<PrefixMap<'a>>>
    ensures { IfOk result (λ maps. maps_of maps.items ≡ maps_among (lexicon_of object.now.lexicon.now) (object_of object.now).words) }
{
    let mut maps = Vec::new(alloc);
    push_maps(&mut maps, object.lexicon, object.common)?;
    push_maps(&mut maps, object.lexicon, object.arch)?;
    push_maps(&mut maps, object.lexicon, object.unhashed)?;
    Ok(maps)
}

/// What is said of an object, with base directories as `base_dirs` gives them (docs/RULES.md, One key in every checkout).
pub fn verdict(alloc: Global, dirs: &[Vec<u8>], object: &Object<'_, '_>) -> Mem<Verdict>
    ensures { IfOk result (λ said. verdict_of said ≡ verdict (words_of dirs.now) (object_of object.now)) }
{
    let maps = prefix_maps(alloc, object)?;
    let in_object = named_in(dirs, object, &maps);
    let shown = names_shown(object.is_by_gcc, macros_are_free(dirs, &maps));
    Ok(Verdict {
        in_object,
        shown,
        planned: names_planned(in_object),
    })
}
