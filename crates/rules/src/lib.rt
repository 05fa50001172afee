// What the calls do, as definitions, and the claim about every list of them. No code: the distributor's contracts cite
// these definitions.
#![tactic(auto)]
