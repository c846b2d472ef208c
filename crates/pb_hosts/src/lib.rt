// What the hosts of a play see: the names that are always there, the variables of other hosts, and
// what these have at their later places.
//
//     let (views, firsts) = Views::of(alloc, &inventory)?; // before anything is run
//     let groups = groups_kind(alloc, &inventory)?;
//     let cast = Cast::of(alloc, &inventory, &play)?; // the hosts of the play
//     let constants = Constants::of(alloc, &inventory, &groups, host)?; // of a host in each play
//     let seen = Seen::of(&cast, &constants, &views, None); // an Outlook
#![tactic(auto)]

pub mod cast;
pub mod constants;
mod given;
pub mod lasting;
mod look;
mod names;
pub mod seen;
pub mod views;

pub use cast::Cast;
pub use constants::{Constants, groups_kind};
pub use lasting::Lasting;
pub use seen::{Laters, Seen};
pub use views::Views;
