// The hosts and groups of a run.
//
//     let inventory = Inventory::read(alloc, b"{\"web\": {\"hosts\": [\"web1\"]}}")?;
//     for host in 0..inventory.hosts() {
//         let name = inventory.host_name(host); // web1
//         let groups = inventory.group_names(host); // web
//         let variables = inventory.vars_of(host);
//     }
//     let web = inventory.hosts_of(alloc, "web")?; // the places of the hosts of web
#![tactic(auto)]

mod assembly;
mod bases;
mod build;
mod document;
mod family;
pub mod fault;
mod form;
mod graph;
mod group_layers;
mod hosts;
pub mod inventory;
mod layers;
mod limits;
mod names;
mod numbers;
pub mod pattern;
mod placing;
pub mod read;
mod ungrouped;
pub mod variables;

pub use fault::{InventoryFault, PatternFault};
pub use inventory::Inventory;
pub use pattern::word_in;
pub use read::INVENTORY_LIMIT;
pub use variables::is_reserved;
