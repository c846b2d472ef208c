// Lines that are added and read again, with a crash at each moment.
use crate::crashes::crashes;
use crate::opened::{Files, opened};
use pb_lines::{LinesFault, MAX_LINE, Memory, is_line};
use std::alloc::Global;
use std::process::Abort;
use std::test::Fail;

fn lines_of(alloc: Global, file: &[u8]) -> Result<Files, LinesFault> {
    let (lines, _) = opened(alloc, Memory::new(alloc, file.to_vec(alloc)?))?;
    Ok(lines)
}

// A crash at any moment while the file is opened leaves the same lines.
fn repair(rt: &(impl Abort + AllocGlobal), file: &[u8], lines: &Files) -> Result<(), Fail> {
    let alloc = rt.alloc();
    let (found, opened) = opened(alloc, Memory::new(alloc, file.to_vec(alloc)?))?;
    assert_eq!(rt; &found, lines);
    let (during, _) = crashes(alloc, file, opened.device.calls())?;
    for left in &during {
        assert_eq!(rt; &lines_of(alloc, left)?, lines);
    }
    Ok(())
}

// A crash at any moment while the line is added leaves the lines with it or without; after it, it
// is there.
fn add(rt: &(impl Abort + AllocGlobal), file: &[u8], line: &[u8]) -> Result<Vec<u8>, Fail> {
    let alloc = rt.alloc();
    let before = lines_of(alloc, file)?;
    let mut with = lines_of(alloc, file)?;
    with.push(line.to_vec(alloc)?)?;
    let (_, mut lines) = opened(alloc, Memory::new(alloc, file.to_vec(alloc)?))?;
    assert!(rt; is_line(line) && line.len() <= MAX_LINE);
    lines.append(alloc, line)?;
    let (during, end) = crashes(alloc, file, lines.device.calls())?;
    for left in &during {
        let there = lines_of(alloc, left)?;
        assert!(rt; there == before || there == with);
        repair(rt, left, &there)?;
    }
    for left in &end {
        assert_eq!(rt; &lines_of(alloc, left)?, &with);
    }
    Ok(lines.device.bytes().to_vec(alloc)?)
}

#[test]
fn each_moment_of_some_lines(rt: HostRuntime) -> Result<(), Fail> {
    let alloc = rt.alloc();
    let mut file = b"#".to_vec(alloc)?;
    for line in [b"a".as_slice(), b"", b"##", b" #"] {
        file = add(&rt, &file, line)?;
    }
    assert_eq!(rt; file.as_slice(), b" a\n \n ##\n  #\n#".as_slice());
    Ok(())
}

#[test]
fn what_a_torn_record_left_is_cut(rt: HostRuntime) -> Result<(), Fail> {
    let alloc = rt.alloc();
    let file = Memory::new(alloc, b" a\n#b\n c\n".to_vec(alloc)?);
    let (found, mut lines) = opened(alloc, file)?;
    assert_eq!(rt; found.len(), 1);
    assert_eq!(rt; lines.device.bytes(), b" a\n#".as_slice());
    let more = vec![in alloc; b"b".to_vec(alloc)?, b"c".to_vec(alloc)?]?;
    lines.append_all(alloc, &more)?;
    assert_eq!(rt; lines.device.bytes(), b" a\n b\n c\n#".as_slice());
    Ok(())
}

#[test]
fn a_line_has_no_newline(rt: HostRuntime) -> Result<(), Fail> {
    assert!(rt; is_line(b"{}"));
    assert!(rt; !is_line(b"{}\n"));
    Ok(())
}

#[test]
fn each_moment_of_lines_together(rt: HostRuntime) -> Result<(), Fail> {
    let alloc = rt.alloc();
    let file = b" a\n#";
    let (_, mut lines) = opened(alloc, Memory::new(alloc, file.to_vec(alloc)?))?;
    let more = vec![in alloc; b"b".to_vec(alloc)?, Vec::new(alloc)]?;
    lines.append_together(alloc, &more)?;
    assert_eq!(rt; lines.device.bytes(), b" a\n b\n \n#".as_slice());
    let (during, end) = crashes(alloc, file, lines.device.calls())?;
    for left in &during {
        let count = lines_of(alloc, left)?.len();
        assert!(rt; count == 1 || count == 3);
    }
    for left in &end {
        assert_eq!(rt; lines_of(alloc, left)?.len(), 3);
    }
    Ok(())
}
