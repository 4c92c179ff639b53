// A link as a host holds it, in words and rooms, and its exported calls one after another: they are the library's calls on the link that the words say,
// so that what crate link_history proves of these holds of a host's. This crate has no code: specs/ says it, proofs/ proves it.
