// Iteration of a rising step on lists of numbers, from a floor and under a cap: where it ends, and that nothing that
// asks for no raise lies below it. Definitions and laws only: no code, and no network.
#![tactic(auto)]
