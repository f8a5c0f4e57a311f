// What an area of sub-TLVs means: definitions, their laws and examples, in specs/. No code.
#![tactic(auto)]
