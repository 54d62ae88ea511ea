// Words and bytes from standard input; behind its end they are 0.
use arrayvec::ArrayVec;
use std::io;
use std::io::{ErrorKind, Read};

// The next bytes of the input; those behind its end stay as they are.
fn fill(input: &mut impl Read, space: &mut [u8]) -> io::Result<()> {
    match input.read_exact(space) {
        Err(e) if e.kind() == ErrorKind::UnexpectedEof => Ok(()),
        read => read,
    }
}

// The next word of the input, low byte first.
pub fn next(input: &mut impl Read) -> io::Result<u32> {
    let mut four = [0; 4];
    fill(input, &mut four)?;
    Ok(u32::from_le_bytes(four))
}

// The next N words.
pub fn array<const N: usize>(input: &mut impl Read) -> io::Result<[u32; N]> {
    let mut words = [0; N];
    for w in words.iter_mut() {
        *w = next(input)?;
    }
    Ok(words)
}

// So many words, at most N.
pub fn words<const N: usize>(input: &mut impl Read, count: u32) -> io::Result<ArrayVec<u32, N>> {
    let mut words = ArrayVec::from([0; N]);
    words.truncate(count as usize);
    for w in words.iter_mut() {
        *w = next(input)?;
    }
    Ok(words)
}

// So many bytes, at most N.
pub fn bytes<const N: usize>(input: &mut impl Read, count: u32) -> io::Result<ArrayVec<u8, N>> {
    let mut bytes = ArrayVec::from([0; N]);
    bytes.truncate(count as usize);
    fill(input, &mut bytes)?;
    Ok(bytes)
}
