// No code: the crate holds the rules of the wheel as definitions (specs/), and the laws that follow from them
// (proofs/).
#![tactic(auto)]
