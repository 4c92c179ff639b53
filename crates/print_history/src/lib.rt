// What linkreport prints of a log, by the definition alone: `what_is_printed` of proofs/Printed.antt. This crate has a theorem, and no code.
