// Lines that are longer than what is read at once, and than a line may be.
use crate::opened::opened;
use pb_lines::{LinesFault, MAX_LINE, Memory};
use std::alloc::{AllocError, Global};
use std::test::Fail;

// A file of a short line, one of so many bytes, and a short one.
fn file_of(alloc: Global, length: usize) -> Result<Vec<u8>, AllocError> {
    let mut file = b" a\n ".to_vec(alloc)?;
    let line = vec![in alloc; b'b'; length]?;
    file.extend_from_slice(&line)?;
    file.extend_from_slice(b"\n c\n#")?;
    Ok(file)
}

fn lengths_of(alloc: Global, length: usize) -> Result<Vec<usize>, LinesFault> {
    let (lines, _) = opened(alloc, Memory::new(alloc, file_of(alloc, length)?))?;
    let mut lengths = Vec::new(alloc);
    for line in &lines {
        lengths.push(line.len())?;
    }
    Ok(lengths)
}

#[test]
fn a_line_longer_than_a_block(rt: HostRuntime) -> Result<(), Fail> {
    for length in [65_530, 65_535, 65_536, 200_000, MAX_LINE] {
        let lengths = lengths_of(rt.alloc(), length)?;
        assert_eq!(rt; lengths.as_slice(), [1, length, 1].as_slice());
    }
    Ok(())
}

#[test]
fn a_line_that_is_too_long(rt: HostRuntime) -> Result<(), Fail> {
    assert!(rt; lengths_of(rt.alloc(), MAX_LINE + 1) == Err(LinesFault::TooLong));
    Ok(())
}
