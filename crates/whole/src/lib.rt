// Laws of whole numbers and of fractions. No function: the laws are in specs/, and the other crates cite them.
#![tactic(auto)]
