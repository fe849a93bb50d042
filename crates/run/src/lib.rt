// The run is definitions alone, in specs/: from the bytes of a configuration and a trace to the bytes of the answers.
// The crate `kernel` has its code.
#![tactic(auto)]
