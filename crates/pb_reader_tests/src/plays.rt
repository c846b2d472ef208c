// The batches into which plays cut their hosts.
use pb_play::{Play, PlayFault, read_plays};
use pb_sig::Registry;
use pb_value::read_json;
use std::alloc::Global;
use std::test::Fail;

pub(crate) fn plays_of(alloc: Global, text: &str) -> Result<Vec<Play>, PlayFault> {
    let registry = Registry::builtin(alloc)?;
    match read_json(alloc, text.as_bytes()) {
        Ok(value) => read_plays(alloc, &registry, &value),
        Err(_) => Err(PlayFault::NoMemory),
    }
}

fn first_of(plays: &[Play]) -> Result<&Play, Fail> {
    match plays {
        [play, ..] => Ok(play),
        [] => Err(Fail::from("no play")),
    }
}

// The one play with that value as its `serial`.
fn with_serial(alloc: Global, serial: &str) -> Result<String, Fail> {
    Ok(format!(in alloc; r#"[{{"hosts":"all","serial":{serial}}}]"#)?)
}

// The sizes of the batches of so many hosts.
fn cuts_of(alloc: Global, serial: &str, hosts: usize) -> Result<Vec<usize>, Fail> {
    let plays = plays_of(alloc, with_serial(alloc, serial)?.as_str())?;
    Ok(first_of(plays.as_slice())?.cuts(alloc, hosts)?)
}

#[test]
fn sizes_of_batches(rt: HostRuntime) -> Result<(), Fail> {
    let halves = cuts_of(rt.alloc(), r#"[1,"50%"]"#, 5)?;
    assert!(rt; matches!(halves.as_slice(), [1, 2, 2]));
    let thirds = cuts_of(rt.alloc(), r#""30%""#, 3)?;
    assert!(rt; matches!(thirds.as_slice(), [1, 1, 1]));
    let large = cuts_of(rt.alloc(), "[2,1024]", 5)?;
    assert!(rt; matches!(large.as_slice(), [2, 3]));
    assert!(rt; cuts_of(rt.alloc(), "7", 0)?.is_empty());
    let plays = plays_of(rt.alloc(), r#"[{"hosts":"all"}]"#)?;
    let whole = first_of(plays.as_slice())?.cuts(rt.alloc(), 5)?;
    assert!(rt; matches!(whole.as_slice(), [5]));
    Ok(())
}
