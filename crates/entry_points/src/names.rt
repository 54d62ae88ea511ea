// The name of an entry point compared with bytes.
ghost use Rattle.std.specs.Prelude.{◌≡◌, ◌+◌, ◌≤◌, length, drop};
ghost use Rattle.word.specs.Words.{bits};
ghost use Rattle.interface.specs.Format.{name_words, same_bytes};
ghost use Rattle.interface.specs.Inner.Reads.{name_at};
ghost use Rattle.interface.specs.Inner.Parts.{workgroup_at};
ghost use Rattle.entry_check.specs.Inner.Walks.{name_of};

// How many bytes a name has, by the entry point's first word.
pub fn name_count(head: u32) -> usize
    ensures { result ≡ bits 22 16 head }
{
    (head / 0x1_0000 % 128) as usize
}

// Whether the bytes of the words from a position on, low first, begin with these: whole words first, and then what is left of the last.
fn same_bytes(pack: &[u32], from: usize, name: &[u8]) -> bool
    requires { from + name_words (length name.now) ≤ length pack.now }
    ensures { result ≡ same_bytes (name_of (length name.now) (drop from pack.now)) name.now }
{
    let whole = name.len() / 4;
    for i in 0..whole {
        let four = [
            name[4 * i],
            name[4 * i + 1],
            name[4 * i + 2],
            name[4 * i + 3],
        ];
        if pack[from + i] != u32::from_le_bytes(four) {
            return false;
        }
    }
    for i in 4 * whole..name.len() {
        if pack[from + whole].to_le_bytes()[i % 4] != name[i] {
            return false;
        }
    }
    true
}

// Whether the name of the entry point that begins at a position is these bytes.
#[tactic(auto, using(crate::proofs::ReadsNames::name_compared))]
pub(crate) fn same_name(pack: &[u32], head: usize, name: &[u8]) -> bool
    requires { workgroup_at pack.now head ≤ length pack.now }
    ensures { result ≡ same_bytes (name_at pack.now head) name.now }
{
    name.len() == name_count(pack[head]) && same_bytes(pack, head + 1, name)
}
