//! Diab's table.
ghost use Rattle.std.specs.Prelude.{◌≡◌, ◌∷◌, [], IsTrue};
ghost use Rattle.scl_values.specs.Tables.{tables_hold_values};
ghost use Rattle.scl_small.specs.DiabValues.{holds_value};
ghost use Rattle.scl_small.specs.DiabTable.{rows};

use super::data::{ArgData, Kind};
use scl_args::shapes::*;
use scl_args::{ArgInfo, FlagTable};
use scl_tables::{Node, nodes};
use scl_values::rows;

/// Diab's rows, in the order of their flags' bytes (docs/RULES.md, Diab and TaskingVX).
pub static ARGS: &[ArgInfo<ArgData>] = &rows![
    "-" TooHardFlag,
    "-##" TooHardFlag,
    "-###" TooHardFlag,
    "-@" TooHard JOINED,
    "-D" PreprocessorArgument EITHER,
    "-E" TooHardFlag,
    "-I" PreprocessorArgumentPath EITHER,
    "-L" PassThrough APART,
    "-P" TooHardFlag,
    "-S" TooHardFlag,
    "-U" PreprocessorArgument EITHER,
    "-V" TooHardFlag,
    "-VV" TooHardFlag,
    "-W" PassThrough APART,
    "-Xmake-dependency" DepArgumentFlag,
    "-Xmake-dependency-canonicalize-path-off" DepArgumentFlag,
    "-Xmake-dependency-savefile" DepArgumentPath JOINED_EQUALS,
    "-Xmake-dependency-target" DepArgument JOINED_EQUALS,
    "-c" DoCompilation,
    "-include" PreprocessorArgumentPath EITHER,
    "-l" PassThrough APART,
    "-o" Output APART,
    "-t" PassThrough APART,
];

/// The nodes of the prefix tree of `ARGS`, made by bench/nodes.
static ARGS_NODES: &[Node] = &nodes![
    0 false 0 0 23 1 2,
    45 true 1 0 23 2 19,
    35 true 3 1 3 19 20,
    64 true 2 3 4 0 0,
    68 true 2 4 5 0 0,
    69 true 2 5 6 0 0,
    73 true 2 6 7 0 0,
    76 true 2 7 8 0 0,
    80 true 2 8 9 0 0,
    83 true 2 9 10 0 0,
    85 true 2 10 11 0 0,
    86 true 2 11 13 20 21,
    87 true 2 13 14 0 0,
    88 true 17 14 18 21 22,
    99 true 2 18 19 0 0,
    105 true 2 19 20 0 0,
    108 true 2 20 21 0 0,
    111 true 2 21 22 0 0,
    116 true 2 22 23 0 0,
    35 true 4 2 3 0 0,
    86 true 3 12 13 0 0,
    45 false 18 15 18 22 25,
    99 true 19 15 16 0 0,
    115 true 19 16 17 0 0,
    116 true 19 17 18 0 0,
];

/// Diab's table.
#[tactic(auto, unfolding(crate::specs::DiabTable::rows))]
pub fn table() -> FlagTable<'static, ArgData>
    ensures rows { result ≡ rows }
    ensures values { IsTrue (tables_hold_values holds_value (result ∷ [])) }
{
    FlagTable::with_nodes(ARGS, ARGS_NODES)
}
