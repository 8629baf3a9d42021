// No code: the binary tower over its level, its byte's basis change, and the laws of both, which `tower` cites.

#![tactic(auto)]
