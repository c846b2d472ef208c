// Tests of the public calls that judge books and run them. They stand here together, so that no
// crate with code is proved twice.
#![tactic(auto)]

#[cfg(test)]
mod jobs;
#[cfg(test)]
mod refusals;
#[cfg(test)]
mod runs;
#[cfg(test)]
mod views;
