// What an observe counts follows from the plain list of served calls: direct loss, follow-ups and round trips. This crate has definitions and theorems, and no code.
