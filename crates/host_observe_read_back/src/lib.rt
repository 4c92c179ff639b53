// The words that a served `observe` leaves say the ledger that the library's own call leaves. This crate has no code: proofs/ shows it.
