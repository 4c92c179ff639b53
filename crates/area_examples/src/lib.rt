#![tactic(auto)]

// Worked examples of the extension area: proofs/Examples.antt. No code.
