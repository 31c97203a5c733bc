// Definitions and laws of runs (specs/): what a direct run and a run of the fused circuit answer and write; the code is in the crates `run_..`.
#![tactic(auto)]
