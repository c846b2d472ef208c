// Tests of the public calls of environments, lattices and expressions. They stand here, so that no
// crate with code is proved twice.
#![tactic(auto)]

#[cfg(test)]
mod environments;
#[cfg(test)]
mod expressions;
#[cfg(test)]
mod lattices;
#[cfg(test)]
mod scopes;
#[cfg(test)]
mod worlds;
