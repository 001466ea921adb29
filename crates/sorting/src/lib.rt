// No code: sorting by a comparison, and the laws that a sort in place is proved by.

#![tactic(auto)]
