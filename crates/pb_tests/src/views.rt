// What is known of the variables of an accepted book.
use crate::runs::accepted;
use pb_kind::Kind;
use pb_verify::Checked;
use std::test::Fail;

const WRITES: &[u8] =
    b"[{\"hosts\":\"all\",\"tasks\":[{\"command\":\"x\",\"register\":\"out\"},{\"set_fact\":{\"a\":1}},{\"set_fact\":{\"b\":1}},{\"set_fact\":{\"b\":\"t\"}}]}]";

// Whether of each name just that is known which the tasks write; none without a host.
fn are_known(checked: &Checked) -> Option<bool> {
    if checked.hosts() == 0 {
        return None;
    }
    let is_out = matches!(checked.view(0, "out"), Some(Kind::Result(_, _)));
    let is_a = matches!(checked.view(0, "a"), Some(Kind::Int));
    let is_b = matches!(checked.view(0, "b"), Some(Kind::Any));
    Some(is_out && is_a && is_b && checked.view(0, "c").is_none())
}

#[test]
fn kinds_of_what_is_written(rt: HostRuntime) -> Result<(), Fail> {
    let found = accepted(rt.alloc(), WRITES).ok_or("refused")?;
    assert_eq!(rt; are_known(&found), Some(true));
    Ok(())
}
