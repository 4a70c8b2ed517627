// The listening guarantee: a theorem about the listener's definitions. It has no code.
#![tactic(auto)]
