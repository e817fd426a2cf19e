// Floors, what rules mean on them, when one exists, and the plan that is given (document 01, 'Meaning'
// and 'The plan that is given'). Definitions and theorems alone: the code that finds the plan is in the
// crates above.
#![tactic(auto)]
