// What the report of a log says: each of its numbers follows from the log's served calls, by the definitions of crate history: `report_is_history`
// of proofs/Theorem.antt. This crate has definitions and theorems, and no code.
