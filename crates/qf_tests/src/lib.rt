//! Tests of what no clause says and no row of data shows, from outside. The library itself has nothing.
#![tactic(auto)]

#[cfg(test)]
mod boards;
#[cfg(test)]
mod checking;
#[cfg(test)]
mod desks;
#[cfg(test)]
mod runs;
#[cfg(test)]
mod search;
#[cfg(test)]
mod streams;
