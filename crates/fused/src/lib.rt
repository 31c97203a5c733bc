// Definitions and laws of the fused circuit of a rule and a plan (specs/); the file that it becomes is `file`'s, the code is in the crates `fused_..`.
#![tactic(auto)]

// No file of a fused circuit has more bytes, as specs/SizeLimits.antt has it.
pub const MOST_FUSED_BYTES: usize = 16072;
