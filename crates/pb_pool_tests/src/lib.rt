// Tests of the board, its seats and the runs by workers. They stand here together, so that no crate
// with code is proved twice.
#![tactic(auto)]

#[cfg(test)]
mod boards;
#[cfg(test)]
mod books;
#[cfg(test)]
mod closes;
#[cfg(test)]
mod gates;
#[cfg(test)]
mod programs;
#[cfg(test)]
mod refusals;
#[cfg(test)]
mod refused_pools;
#[cfg(test)]
mod stops;
#[cfg(test)]
mod untils;
