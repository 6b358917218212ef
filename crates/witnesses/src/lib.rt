// Bundles of the outside, computed to their verdicts and ends: specs/ alone.

#![tactic(auto)]
