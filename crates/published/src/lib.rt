// The published key message of 001, 4.13: computed from the definitions, and loaded. There is no code here.
#![tactic(auto)]
