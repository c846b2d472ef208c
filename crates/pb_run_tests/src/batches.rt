// The batches in which hosts run plays.
use pb_batches::{PlayBatch, batches_of};
use pb_inventory::Inventory;
use pb_play::{Play, read_plays};
use pb_sig::Registry;
use pb_value::read_json;
use std::alloc::Global;
use std::test::Fail;

const HOSTS: &[u8] = br#"{"app":{"hosts":["a","b","c"]},"db":{"hosts":["d","e"]}}"#;

// Of all hosts, and of the last two before the others.
const PLAYS: &[u8] = br#"[{"hosts":"all","serial":[1,"50%"]},{"hosts":"db:all"}]"#;

fn plays_of(alloc: Global) -> Result<Vec<Play>, Fail> {
    let registry = Registry::builtin(alloc)?;
    match read_plays(alloc, &registry, &read_json(alloc, PLAYS)?) {
        Ok(plays) => Ok(plays),
        Err(_) => Err("no plays")?,
    }
}

// Whether the batch is of that play and has these hosts.
fn is_batch(batch: &PlayBatch, play: usize, hosts: &[usize]) -> bool {
    batch.play == play && batch.members.as_slice() == hosts
}

#[test]
fn two_plays(rt: HostRuntime) -> Result<(), Fail> {
    let inventory = Inventory::read(rt.alloc(), HOSTS)?;
    let plays = plays_of(rt.alloc())?;
    let batches = batches_of(rt.alloc(), &inventory, plays.as_slice())?;
    let [first, second, third, whole] = batches.as_slice() else {
        return Err("not four batches")?;
    };
    assert!(rt; is_batch(first, 0, &[0]));
    assert!(rt; is_batch(second, 0, &[1, 2]));
    assert!(rt; is_batch(third, 0, &[3, 4]));
    assert!(rt; is_batch(whole, 1, &[3, 4, 0, 1, 2]));
    Ok(())
}
