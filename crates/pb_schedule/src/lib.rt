// What a run of a book that was accepted goes through.
//
//     let planned = Planned::of(alloc, &checked)?;
//     for batch in &planned.schedule.batches {
//         let play = &planned.schedule.plays[batch.play];
//         let members = batch.members.as_slice(); // the places of its hosts in host order
//     }
#![tactic(auto)]

pub mod planned;

pub use planned::Planned;
