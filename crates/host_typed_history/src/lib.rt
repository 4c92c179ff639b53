// Condition 3 of a host's calls with one premise about their numbers, that each fits its type in C: `any_typed_calls-show` of proofs/Shows.antt. This crate has definitions and theorems, and no code.
