//! What the program computes for small inputs: equations of `program_of` that the checker computes,
//! in `proofs/Examples.antt`, `proofs/FileExamples.antt` and `proofs/ScriptExamples.antt`, and of
//! the functions that it is made of, at their limits, in `proofs/LimitExamples.antt`. It has no code.
#![tactic(auto)]
