// Laws that no one layer owns: XOR of octets, parts of lists, numbers in octets, blocks, a table's rule.
// Definitions and lemmas only; they stand in specs/.
#![tactic(auto)]
