// What a crash of a disk may leave of a file, at each moment of some calls.
use crate::opened::Files;
use pb_lines::Call;
use std::alloc::{AllocError, Global};

// What a torn write may leave in each place.
const TORN: [u8; 4] = [b' ', b'#', b'\n', b'a'];

fn part(bytes: &[u8], from: usize, to: usize) -> &[u8] {
    bytes.get(from..to.min(bytes.len())).unwrap_or(&[])
}

// The file after a write that ended.
fn written(alloc: Global, file: &[u8], at: usize, bytes: &[u8]) -> Result<Vec<u8>, AllocError> {
    let mut next = part(file, 0, at).to_vec(alloc)?;
    next.extend_from_slice(bytes)?;
    next.extend_from_slice(part(file, at.saturating_add(bytes.len()), usize::MAX))?;
    Ok(next)
}

// Each file that a write of so many bytes may leave: in its range any bytes, and any length up to
// its end.
fn torn(
    alloc: Global,
    file: &[u8],
    at: usize,
    count: usize,
    found: &mut Files,
) -> Result<(), AllocError> {
    let mut fronts = vec![in alloc; part(file, 0, at).to_vec(alloc)?]?;
    let end = at.saturating_add(count);
    for place in at..end {
        let mut longer = Vec::new(alloc);
        for front in &fronts {
            if place >= file.len() {
                found.push(front.to_vec(alloc)?)?;
            }
            for byte in TORN {
                let mut next = front.to_vec(alloc)?;
                next.push(byte)?;
                longer.push(next)?;
            }
        }
        fronts = longer;
    }
    for front in &fronts {
        let mut whole = front.to_vec(alloc)?;
        whole.extend_from_slice(part(file, end, usize::MAX))?;
        found.push(whole)?;
    }
    Ok(())
}

// Each file that a cut may leave.
fn cut(alloc: Global, file: &[u8], len: usize, found: &mut Files) -> Result<(), AllocError> {
    for end in len..file.len() {
        found.push(part(file, 0, end).to_vec(alloc)?)?;
    }
    found.push(file.to_vec(alloc)?)?;
    Ok(())
}

// What a crash may leave after one call more. `seen` is what a read returns.
fn after(
    alloc: Global,
    call: &Call,
    seen: &mut Vec<u8>,
    left: &Files,
) -> Result<Files, AllocError> {
    let mut found = Vec::new(alloc);
    match call {
        Call::Write { at, bytes } => {
            for file in left {
                torn(alloc, file, *at, bytes.len(), &mut found)?;
            }
            *seen = written(alloc, seen, *at, bytes)?;
        }
        Call::Cut { len } => {
            for file in left {
                cut(alloc, file, *len, &mut found)?;
            }
            *seen = part(seen, 0, *len).to_vec(alloc)?;
        }
        Call::Sync => found.push(seen.to_vec(alloc)?)?,
    }
    Ok(found)
}

/// Each file that a crash may leave at some moment of these calls, and at last what it may leave
/// behind them.
pub fn crashes(alloc: Global, file: &[u8], calls: &[Call]) -> Result<(Files, Files), AllocError> {
    let mut seen = file.to_vec(alloc)?;
    let mut left = vec![in alloc; file.to_vec(alloc)?]?;
    let mut during = Vec::new(alloc);
    for call in calls {
        for file in &left {
            during.push(file.to_vec(alloc)?)?;
        }
        left = after(alloc, call, &mut seen, &left)?;
    }
    for file in &left {
        during.push(file.to_vec(alloc)?)?;
    }
    Ok((during, left))
}
