// Answers on standard output, each with a blank behind it.
use std::io;

pub(crate) fn number(rt: &impl Print, n: u64) -> io::Result<()> {
    print!(rt; "{n} ")
}

// In place of what is not there or was not asked for.
pub(crate) fn nothing(rt: &impl Print) -> io::Result<()> {
    print!(rt; "- ")
}

pub(crate) fn yes_no(rt: &impl Print, b: bool) -> io::Result<()> {
    number(rt, u64::from(b))
}
