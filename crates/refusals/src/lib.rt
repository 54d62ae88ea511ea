// Demand 1: what every function answers, and what a refused stage check leaves in the lent lists. Laws alone.
#![tactic(auto)]
