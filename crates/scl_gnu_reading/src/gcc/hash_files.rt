//! Files on whose contents the result of a compilation depends, as options name them.
ghost use Rattle.std.specs.Prelude.{◌≡◌, ◌++◌, OnOk, OnErr, IfOk, map};
ghost use Rattle.std.specs.Option.{option_map, option_to_list};
ghost use Rattle.scl_values.specs.Seen.{seen};
ghost use Rattle.scl_values.specs.Words.{words_of};
ghost use Rattle.scl_args.specs.Wrapped.{HasFirstOf};
ghost use Rattle.scl_gnu_reading.specs.Hashes.{hashed_by, hashed_as};
ghost use Rattle.scl_gnu_reading.specs.Recordings.{hash_path};

use super::data::{ArgData, Kind};
use super::hash_paths::path_as;
use scl_args::{Argument, Mem, Options, ReadArg};
use scl_text::view::View;
use std::alloc::Global;

/// How an option names a file on whose contents the result depends (docs/RULES.md, Gcc).
#[derive(Clone, Copy, Debug, PartialEq, Eq)]
pub enum HashRole {
    /// By its path.
    File,
    /// By its path, after a name and `=` if there is one.
    Module,
    /// By its path, or by the directory that has `default.profdata`.
    Profile,
}

/// A value whose kind says how its options name files on whose contents the result depends (docs/RULES.md, Gcc).
pub trait NamesHashed: ReadArg {
    ghost use Rattle.std.specs.Prelude.{Option};
    ghost use Rattle.scl_gnu_reading.specs.declared.gcc.hash_files.HashRole.{HashRole};

    /// How options of the kind name such a file, if they do.
    ghost role: { Self.Kind → Option HashRole };

    /// How options of the kind name such a file, if they do.
    fn hash_role(kind: Self::Kind) -> Option<HashRole>
        ensures { result ≡ role kind };
}

impl NamesHashed for ArgData {
    ghost use Rattle.scl_gnu_reading.specs.Kinds.{hash_role};

    ghost role = { hash_role };

    fn hash_role(kind: Kind) -> Option<HashRole> {
        match kind {
            Kind::ExtraHashFile => Some(HashRole::File),
            Kind::ExtraHashFileClangModuleFile => Some(HashRole::Module),
            Kind::ClangProfileUse => Some(HashRole::Profile),
            _ => None,
        }
    }
}

fn push_path<T: NamesHashed>(
    alloc: Global,
    paths: &mut Vec<Vec<u8>>,
    option: &Argument<T>,
    cwd: &[u8],
    view: &View,
) -> Mem<()>
    ensures ok { OnOk result (words_of paths.new.items ≡ words_of paths.old.items
        ++ option_to_list (option_map (hash_path cwd.now view.now) (hashed_by T.role (seen T.kind_of T.word_of option.now)))) }
    ensures err { OnErr result (paths.new.items ≡ paths.old.items) }
{
    match option {
        Argument::Raw(_) | Argument::UnknownFlag(_) => Ok(()),
        Argument::Flag(_, value) | Argument::WithValue(_, value, _) => {
            if let Some(role) = T::hash_role(value.kind()) {
                paths.push(path_as(alloc, role, value.word(), cwd, view)?)?;
            }
            Ok(())
        }
    }
}

/// Appends the paths, from the directory, of the files that the options name (docs/RULES.md, Gcc). If it fails, the first of
/// them may have been appended.
pub fn push_hashed<T: NamesHashed>(
    alloc: Global,
    paths: &mut Vec<Vec<u8>>,
    options: &Options<T>,
    cwd: &[u8],
    view: &View,
) -> Mem<()>
    ensures ok { OnOk result (words_of paths.new.items ≡ words_of paths.old.items
        ++ map (hash_path cwd.now view.now) (hashed_as T.role options.now)) }
    ensures err { OnErr result (HasFirstOf (words_of paths.old.items)
        (map (hash_path cwd.now view.now) (hashed_as T.role options.now)) (words_of paths.new.items)) }
{
    for option in options.as_slice() {
        push_path(alloc, paths, option, cwd, view)?;
    }
    Ok(())
}
