// No code: the three spellings of a byte map, and the theorem about them. The conversions' code stands in `matrix` and
// `frobenius`. Each of its contracts is stated by `turn` of specs/Kinds.antt, so that the theorem speaks of all six;
// `matrix` and `frobenius` (src/converting.rt) say so of each, for every value of the types, and `frobenius`
// (proofs/Conversions.antt) of whatever meets its contract.

#![tactic(auto)]
