// Condition 3 of acceptance: what a link shows after any calls, refused ones included, follows from the calls that were served: `link-shows` of
// proofs/Link.antt. This crate has definitions and theorems, and no code.
