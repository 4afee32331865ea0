// The plain machine: definitions alone, in specs/.
#![tactic(auto)]
