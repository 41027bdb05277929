//! The limits of what is read, compiled and run.

/// The greatest number of bytes of one input file.
pub const FILE_LIMIT: usize = 67_108_864;

/// The greatest number of points of a mesh.
pub const POINT_LIMIT: u32 = 200_000;

/// The greatest number of cells of a mesh.
pub const CELL_LIMIT: u32 = 1_000_000;

/// The greatest number of tokens of a program.
pub const TOKEN_LIMIT: usize = 131_072;

/// The greatest number of brackets and prefix operators of a program that are open at once.
pub const DEPTH_LIMIT: usize = 64;

/// The greatest number of bytes of a name.
pub const NAME_LIMIT: usize = 64;

/// The greatest number of turns that `--turns` allows.
pub const TURN_LIMIT: u64 = 1_000_000_000;

/// The number of turns without `--turns`.
pub const DEFAULT_TURNS: u64 = 1_000_000;

/// The greatest number of ranks of a run.
pub const RANK_LIMIT: u32 = 16;

/// The greatest number of `print` statements that a run executes.
pub const PRINT_LIMIT: usize = 65_536;

/// The greatest number of words of all declared fields together.
pub const WORD_LIMIT: u32 = 16_777_216;

/// The greatest number of visits that the inference of one comprehension takes.
pub const VISIT_LIMIT: u32 = 268_435_456;

/// The greatest number of entries of one comprehension's stencils.
pub const ENTRY_LIMIT: u32 = 16_777_216;

/// The greatest number of numbers that all comprehensions together keep.
pub const KEPT_LIMIT: u32 = 134_217_728;
