#![tactic(auto)]

// What the monitor means: its operations over a plain list of queued probes and a set of marked sequences, as src/sender/session_state.rs has them,
// and the theorem that the ring with marks of crates probe_queue and monitor answers as they do. This crate has no code: specs/ says it, proofs/ proves it.
