// Answers on standard output.
use std::io;
use word::answer::Answer;

// The number and the three details.
pub fn answer(rt: &impl Print, a: Answer) -> io::Result<()> {
    let Answer {
        number,
        first,
        second,
        third,
    } = a;
    print!(rt; "{number} {first} {second} {third}")
}

// The words of a list that are not what they were, as position:word, each between two texts.
pub fn changes(
    rt: &impl Print,
    before: &[u32],
    after: &[u32],
    ahead: &str,
    behind: &str,
) -> io::Result<()> {
    for (i, (old, new)) in before.iter().zip(after).enumerate() {
        if old != new {
            print!(rt; "{ahead}{i}:{new:08x}{behind}")?;
        }
    }
    Ok(())
}
