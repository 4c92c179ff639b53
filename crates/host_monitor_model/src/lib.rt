#![tactic(auto)]

// A host's calls of the monitor from fresh, one after another, are the plain model of crate monitor_model: specs/Hosted.antt and proofs/Follows.antt.
// It has no code of its own.
