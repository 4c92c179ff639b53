// That what the ledger shows of replies follows from the plain list of served calls: `replies-follow` of proofs/Steps.antt. This crate has
// definitions and theorems, and no code.
