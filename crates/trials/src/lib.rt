#![tactic(auto)]

// Runs of the planner's parts on small bays whose answers are known.
#[cfg(test)]
mod worked;
