//! The functions of a type of values that depend on its kinds, from one list of these.

/// The functions of a type of values that depend on its kinds (docs/DESIGN.md, Recipes). They are `kind of` a value, what is
/// `held by` it, and what is `made of` a kind and a word. Called in an `impl` of the type, in a module that has `Kind`, with
/// the kinds whose values hold nothing, a word, and a path. Each kind has a variant of the same name.
#[macro_export]
macro_rules! of_kinds {
    (kind of $value:expr; Nothing: $($flag:ident),*; Word: $($word:ident),*; Path: $($path:ident),*) => {
        match $value {
            $(Self::$flag => Kind::$flag,)*
            $(Self::$word(_) => Kind::$word,)*
            $(Self::$path(_) => Kind::$path,)*
        }
    };
    (held by $value:expr; Nothing: $($flag:ident),*; Word: $($word:ident),*; Path: $($path:ident),*) => {
        match $value {
            $(Self::$flag => $crate::Held::Nothing,)*
            $(Self::$word(word) => $crate::Held::Word(word),)*
            $(Self::$path(path) => $crate::Held::Path(&path.0),)*
        }
    };
    (made of $kind:expr, $given:expr; Nothing: $($flag:ident),*; Word: $($word:ident),*; Path: $($path:ident),*) => {
        match $kind {
            $(Kind::$flag => $crate::without_value(Self::$flag, &$given),)*
            $(Kind::$word => Ok(Self::$word($given)),)*
            $(Kind::$path => Ok(Self::$path($crate::PathArg($given))),)*
        }
    };
}
