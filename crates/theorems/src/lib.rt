// What follows from the definitions and the contracts of all crates together: the three demands, each as one claim about every list of
// calls (specs/Demands.antt), the order of a sheet (specs/Order.antt), and document 01's worked sheets P1 to P12 as one claim over their
// table (specs/Worked.antt).
// proofs/Claims.antt has the claims in one place. Definitions and theorems alone: the code is in crate table.
#![tactic(auto)]
