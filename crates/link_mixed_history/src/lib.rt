// Condition 3 says "any sequence of calls": a host may make each call of a link with its monitor or without it, and may call the monitor alone. specs/
// says what such calls do and what they then show; proofs/ proves it of every sequence. This crate has no code.
