// Condition 3 of a host's words and rooms after any sequence of the exported calls on one link's memory, each of the ledger alone, of the ledger with its
// monitor or of the monitor alone, lists of replies among them: specs/ says what these calls are, proofs/ proves it. This crate has no code.
