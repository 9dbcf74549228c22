//! The limits of a script and of an input.

/// The most commands of a client, a count.
pub const MAX_COMMANDS: usize = 4096;

/// The most assignments of a request, a count.
pub const MAX_ASSIGNS: usize = 256;

/// The most labels that a script makes, a count.
pub const MAX_LABELS: u64 = 4096;

/// The most bytes of a blob, a count.
pub const MAX_BLOB: usize = 2048;

/// The most bytes of a script's lines, with their line feeds: 1 MiB.
pub const MAX_SCRIPT: usize = 1_048_576;

/// The most bytes of an input: 64 MiB.
pub const MAX_INPUT: usize = 67_108_864;
