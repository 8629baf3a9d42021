// No code: the definitions (specs/) and laws (proofs/) of polynomials over two elements, which every crate above cites.

#![tactic(auto)]
