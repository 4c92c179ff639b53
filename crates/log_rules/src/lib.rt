// Document 01's rules for the bytes of a record, one by one, and that exactly the good records keep them. No code.
