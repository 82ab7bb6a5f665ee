// No code: the crate lives by its `specs/`.
#![tactic(auto)]
