// Document 01's proved examples 1 to 8 in one theorem: proofs/Examples.antt. No code.
