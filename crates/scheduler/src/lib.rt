// The plain scheduler is definitions alone, in specs/: what is right, for every list of events. No
// code runs here.
#![tactic(auto)]
