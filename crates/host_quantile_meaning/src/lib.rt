// What a host's percentiles mean, over the plain list of the samples that it recorded: `percentiles_mean` of proofs/Meaning.antt. This crate has definitions and theorems, and no code.
