// Document 01's number and values for each case of the ledger's and the monitor's answers, and each call's promise in these terms. This crate has definitions and theorems, and no code.
