// What a collector shows of the plain list of its samples: definitions in specs/, theorems in proofs/. No code.
