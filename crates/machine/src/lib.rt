// The machine is definitions alone, in specs/: how the chip does it, with request word, level, stack and cells. The
// crate `kernel` has its code.
#![tactic(auto)]
