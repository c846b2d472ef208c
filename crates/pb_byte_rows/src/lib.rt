// Files whose verdicts the definitions compute from their bytes.
#![tactic(auto)]
