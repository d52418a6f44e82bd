// That the bound of 2N + 1 is the least: a circuit for every N that needs it, worked out. No function: the statement is in specs/.
#![tactic(auto)]
