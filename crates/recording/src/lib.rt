// What is salvaged of a damaged recording is definitions alone, in specs/. No code runs here.
#![tactic(auto)]
