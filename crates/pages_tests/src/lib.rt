// Examples of the page stores that are executed, with answers worked out from the documented rules and never from a run.
// `lending` is proved and not run: what a lender of memory knows from the stores' contracts alone. `one_page` is a store that is
// none of ours.
#![tactic(auto)]

#[cfg(test)]
mod exports;
#[cfg(test)]
mod flat_memory;
#[cfg(test)]
mod helpers;
mod lending;
#[cfg(test)]
mod log_memory;
mod one_page;
#[cfg(test)]
mod refusals;
#[cfg(test)]
mod sizes;
