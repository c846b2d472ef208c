// Tests of plans, and of what tasks do on a host. They stand here, so that no crate with code is
// proved twice.
#![tactic(auto)]

#[cfg(test)]
mod batches;
#[cfg(test)]
mod cores;
#[cfg(test)]
mod finishes;
#[cfg(test)]
mod slots;
#[cfg(test)]
mod starts;
#[cfg(test)]
mod steps;
