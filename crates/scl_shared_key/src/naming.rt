//! What a word of the command makes the object name of the place where it is made.
ghost use Rattle.std.specs.Prelude.{◌≡◌};
ghost use Rattle.scl_shared_key.specs.Namings.{is_anything, is_debug_info};

use scl_catalogue::Naming;

/// Whether debug information names directory and sources.
pub(crate) fn is_debug_info(naming: Naming) -> bool
    ensures { result ≡ is_debug_info naming }
{
    match naming {
        Naming::DebugInfo => true,
        Naming::Nothing
        | Naming::FileMap
        | Naming::DebugMap
        | Naming::MacroMap
        | Naming::Anything => false,
    }
}

/// Whether nothing is known of what is named.
pub(crate) fn is_anything(naming: Naming) -> bool
    ensures { result ≡ is_anything naming }
{
    match naming {
        Naming::Anything => true,
        Naming::Nothing
        | Naming::DebugInfo
        | Naming::FileMap
        | Naming::DebugMap
        | Naming::MacroMap => false,
    }
}
