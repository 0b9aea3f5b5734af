// The layout of a sheet, said by what a sheet contains and how that is written: the reading accepts exactly the
// sheets that keep it. Definitions and laws only: no code.
#![tactic(auto)]
