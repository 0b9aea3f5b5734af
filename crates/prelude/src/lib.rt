// What every other crate's definitions are written with: searches, maxima and tables over the numbers below a bound,
// tests in checking order, and bytes as text. Definitions and laws only: no code.
#![tactic(auto)]
