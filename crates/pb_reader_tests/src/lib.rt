// Tests of the public calls that read inventories and plays and that `check` doesn't go through.
// They stand here, so that no crate with code is proved twice.
#![tactic(auto)]

#[cfg(test)]
mod flows;
#[cfg(test)]
mod inventories;
#[cfg(test)]
mod plays;
