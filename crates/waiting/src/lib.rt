// How long a body waits to begin: definitions and theorems alone, in specs/ and proofs/. No code runs here.
#![tactic(auto)]
