//! What the fabric, its layouts and its replay promise together. There is no code here: the statements are in `specs/`, their
//! proofs in `proofs/`, under the same names.

#![tactic(auto)]
