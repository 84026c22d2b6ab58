//! Rows of tables, one in a line.

/// The rows of a table, one in a line: a flag, the name of its variant of `Kind`, and, if it takes a value, its shape
/// (`shapes`). After `PREFIX;`, up to a second `;`, flags are written without that prefix.
#[macro_export]
macro_rules! rows {
    ($($flag:literal $kind:ident $($shape:expr)?),* $(,)?) => {
        [$($crate::row!($flag, $kind $(, $shape)?)),*]
    };
    ($prefix:literal; $($flag:literal $kind:ident $($shape:expr)?),*; $($whole:literal $own:ident $($how:expr)?),*) => {
        [
            $($crate::row!(concat!($prefix, $flag), $kind $(, $shape)?),)*
            $($crate::row!($whole, $own $(, $how)?)),*
        ]
    };
}

/// A row: a flag, the name of its variant of `Kind`, and, if it takes a value, its shape.
#[macro_export]
macro_rules! row {
    ($flag:expr, $kind:ident) => {
        $crate::ArgRow::Flag($flag, Kind::$kind)
    };
    ($flag:expr, $kind:ident, $shape:expr) => {
        $crate::ArgRow::TakeArg($flag, Kind::$kind, $shape)
    };
}
