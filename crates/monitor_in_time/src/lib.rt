#![tactic(auto)]

// Document 02, Q-10: Failed comes in time. specs/InTime.antt says it once of any calls on what has a monitor in it, specs/Core.antt what these are
// here, and proofs/Core.antt proves it of the core's calls from fresh. This crate has no code.
