// Tests of files of lines. They stand here, so that the crate that they call isn't proved twice.
#![tactic(auto)]

#[cfg(test)]
mod crashes;
#[cfg(test)]
mod files;
#[cfg(test)]
mod long_lines;
#[cfg(test)]
mod opened;
#[cfg(test)]
mod system;
