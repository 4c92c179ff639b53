#![tactic(auto)]

// What a percentile means, over the plain list of samples: `what_a_percentile_means` of proofs/Shown.antt. This crate has definitions and theorems, and no code.
