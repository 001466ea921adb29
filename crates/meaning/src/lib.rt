// No code: what the crates below mean together, and the worked examples, proved of the definitions.

#![tactic(auto)]
