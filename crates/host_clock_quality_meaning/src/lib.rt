// What a host's clock quality means, over the plain list of the samples that it recorded: `words-show` of proofs/Meaning.antt. This crate has definitions and theorems, and no code.
