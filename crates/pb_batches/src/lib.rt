// In which batches the hosts of an inventory run the plays of a book.
//
//     let batches = batches_of(alloc, &inventory, plays)?; // those of the first play come first
//     for batch in &batches {
//         let play = &plays[batch.play];
//         let members = batch.members.as_slice(); // the places of its hosts in host order
//     }
#![tactic(auto)]

pub mod batch;

pub use batch::{PlayBatch, batches_of};
