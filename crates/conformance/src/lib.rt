// The verdict on a unit is definitions alone, in specs/. The crate `verdict` has its code.
#![tactic(auto)]
