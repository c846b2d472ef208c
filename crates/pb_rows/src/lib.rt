// Books whose verdicts and runs the definitions compute.
#![tactic(auto)]
