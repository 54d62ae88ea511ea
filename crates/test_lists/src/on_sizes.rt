// What is asked of size lists.
use crate::print;
use sizes::sizes::{record_size, sizes_well_formed};
use std::io;

// A size recorded at a place, where it is one, with a position noted; then whether there was room.
pub(crate) fn record(
    rt: &impl Print,
    l: &mut [u32],
    place: u32,
    size: u32,
    near: u32,
) -> io::Result<()> {
    if !sizes_well_formed(l) || size == 0 || 0x800_0000 <= size {
        return print::nothing(rt);
    }
    let mut next = (near % 0x1_0000) as usize;
    print::yes_no(
        rt,
        record_size(l, 0x2000_0000 + place % 0x800_0000, size as u64, &mut next),
    )
}
