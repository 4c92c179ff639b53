// Document 02, Q-10, of a monitor in a host's words, of one beside a ledger (watched calls), and of both: specs/ says what their calls are to the monitor,
// and proofs/ proves that Failed comes in time, as crate monitor_in_time states it. This crate has no code.
