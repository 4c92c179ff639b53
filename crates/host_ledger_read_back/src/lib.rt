// The words that a served `sent` or `accept` leaves say the ledger that the library's own call leaves, although only the words that the call changes are stored.
// This crate has no code: proofs/ shows it.
