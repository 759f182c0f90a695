// Runs of the eviction policies that are executed, with answers worked out from the documented rules and never from a run.
// Beside them are a policy that is none of ours (`recorder`), and a caller that promises, for every policy, which notices it
// gives (`replacing`), which is proved and not run.
#![tactic(auto)]

#[cfg(test)]
mod clock_runs;
#[cfg(test)]
mod notices;
#[cfg(test)]
mod oldest_use_runs;
mod recorder;
mod replacing;
#[cfg(test)]
mod runs;
