// What holds of the definitions and of the calls: theorems, in specs/. No code.
#![tactic(auto)]
