//! TaskingVX's table.
ghost use Rattle.std.specs.Prelude.{◌≡◌, ◌∷◌, [], IsTrue};
ghost use Rattle.scl_values.specs.Tables.{tables_hold_values};
ghost use Rattle.scl_small.specs.TaskingValues.{holds_value};
ghost use Rattle.scl_small.specs.TaskingTable.{rows};

use super::data::{ArgData, Kind};
use scl_args::shapes::*;
use scl_args::{ArgInfo, FlagTable};
use scl_tables::{Node, nodes};
use scl_values::rows;

/// TaskingVX's rows, in the order of their flags' bytes (docs/RULES.md, Diab and TaskingVX).
pub static ARGS: &[ArgInfo<ArgData>] = &rows![
    "--define" PreprocessorArgument JOINED_EQUALS,
    "--dep-file" DepFile JOINED_EQUALS,
    "--dry-run" TooHardFlag,
    "--help" NotCompilation JOINED_EQUALS,
    "--include-directory" PreprocessorArgumentPath JOINED_EQUALS,
    "--include-file" PreprocessorArgumentPath JOINED_EQUALS,
    "--library-directory" PassThrough JOINED_EQUALS,
    "--mil-split" TooHard JOINED_EQUALS,
    "--option-file" TooHard JOINED_EQUALS,
    "--output" Output JOINED_EQUALS,
    "--preprocess" TooHard JOINED_EQUALS,
    "--undefine" PreprocessorArgument APART,
    "--version" NotCompilationFlag,
    "-?" NotCompilationFlag,
    "-D" PreprocessorArgument EITHER,
    "-E" TooHardFlag,
    "-H" PreprocessorArgumentPath EITHER,
    "-I" PreprocessorArgumentPath EITHER,
    "-L" PassThrough EITHER,
    "-U" PreprocessorArgument EITHER,
    "-V" NotCompilationFlag,
    "-c" DoCompilation,
    "-f" TooHard APART,
    "-n" TooHardFlag,
    "-o" Output APART,
];

/// The nodes of the prefix tree of `ARGS`, made by bench/nodes.
static ARGS_NODES: &[Node] = &nodes![
    0 false 0 0 25 1 2,
    45 false 1 0 25 2 15,
    45 false 2 0 13 15 24,
    63 true 2 13 14 0 0,
    68 true 2 14 15 0 0,
    69 true 2 15 16 0 0,
    72 true 2 16 17 0 0,
    73 true 2 17 18 0 0,
    76 true 2 18 19 0 0,
    85 true 2 19 20 0 0,
    86 true 2 20 21 0 0,
    99 true 2 21 22 0 0,
    102 true 2 22 23 0 0,
    110 true 2 23 24 0 0,
    111 true 2 24 25 0 0,
    100 false 3 0 3 24 26,
    104 true 3 3 4 0 0,
    105 false 10 4 6 26 28,
    108 true 3 6 7 0 0,
    109 true 3 7 8 0 0,
    111 false 3 8 10 28 30,
    112 true 3 10 11 0 0,
    117 true 3 11 12 0 0,
    118 true 3 12 13 0 0,
    101 false 4 0 2 30 32,
    114 true 4 2 3 0 0,
    100 true 11 4 5 0 0,
    102 true 11 5 6 0 0,
    112 true 4 8 9 0 0,
    117 true 4 9 10 0 0,
    102 true 5 0 1 0 0,
    112 true 5 1 2 0 0,
];

/// TaskingVX's table.
#[tactic(auto, unfolding(crate::specs::TaskingTable::rows))]
pub fn table() -> FlagTable<'static, ArgData>
    ensures rows { result ≡ rows }
    ensures values { IsTrue (tables_hold_values holds_value (result ∷ [])) }
{
    FlagTable::with_nodes(ARGS, ARGS_NODES)
}
