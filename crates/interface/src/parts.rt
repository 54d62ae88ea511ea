// Where the records of a pack stand, by the counts that it names.
ghost use Rattle.std.specs.Prelude.{◌≡◌, ◌+◌, ◌<◌, ◌≤◌, ◌^◌, eqb, length};
ghost use Rattle.word.specs.Choice.{pick};
ghost use Rattle.word.specs.Words.{bits, bit};
ghost use Rattle.interface.specs.Format.{name_words};
ghost use Rattle.interface.specs.Inner.Parts.{varyings_end, resource_end, parts_at, entry_end, entries_at};

use crate::reads::{AcceptedPack, varying_width};
use crate::types::EntryParts;
use word::word;

// How many words a name takes, by the entry point's first word.
pub fn name_words(head: u32) -> usize
    ensures value { result ≡ name_words (bits 22 16 head) }
    ensures upper_bound { result ≤ 32 }
{
    ((head / 0x1_0000 % 128 + 3) / 4) as usize
}

// How many words a mesh record takes, by the entry point's first word.
fn mesh_width(head: u32) -> usize
    ensures value { result ≡ pick (eqb (bit 1 head) 1) 3 0 }
    ensures upper_bound { result ≤ 3 }
{
    if head / 2 % 2 == 1 { 3 } else { 0 }
}

// What a word of kind 15 counts: the parts of an entry point's lists.
#[derive(Clone, Copy, Debug, PartialEq, Eq)]
pub struct Counts {
    pub resources: usize,
    pub pairs: usize,
    pub inputs: usize,
    pub outputs: usize,
}

impl Counts {
    // The counts that a word holds, 6 bits each from bit 23 down.
    pub fn of(w: u32) -> Self
        ensures resources { result.resources ≡ bits 23 18 w }
        ensures pairs { result.pairs ≡ bits 17 12 w }
        ensures inputs { result.inputs ≡ bits 11 6 w }
        ensures outputs { result.outputs ≡ bits 5 0 w }
    {
        Counts {
            resources: (w / 0x4_0000 % 64) as usize,
            pairs: (w / 0x1000 % 64) as usize,
            inputs: (w / 64 % 64) as usize,
            outputs: (w % 64) as usize,
        }
    }
}

// The position behind as many varyings.
#[tactic(auto, using(crate::proofs::ReadsParts::walked), unfolding(crate::specs::Inner::Parts::end_from))]
fn varyings_end(pack: &[u32], from: usize, n: usize) -> usize
    requires { (varyings_end pack.now n from < length pack.now) × (length pack.now ≤ 4096) }
    ensures { result ≡ varyings_end pack.now n from }
{
    let mut at = from;
    for _ in 0..n {
        at += varying_width(pack[at]);
    }
    at
}

// The parts of the entry point that begins at a position.
#[tactic(auto, using(crate::proofs::ReadsParts::found_parts))]
pub(crate) fn parts_at(pack: &[u32], head: usize) -> EntryParts
    requires { (head < length pack.now) × (entry_end pack.now head < length pack.now) × (length pack.now ≤ 4096) }
    ensures { result ≡ parts_at pack.now head }
{
    let first = pack[head];
    let workgroup = head + 1 + name_words(first);
    let counts = workgroup + 4 + mesh_width(first);
    let counted = Counts::of(pack[counts]);
    let pairs = counts + 1 + counted.resources;
    let inputs = pairs + counted.pairs;
    let outputs = varyings_end(pack, inputs, counted.inputs);
    EntryParts {
        head,
        workgroup,
        counts,
        resources: counts + 1,
        pairs,
        inputs,
        outputs,
    }
}

// The position behind the entry point that begins at a position.
#[tactic(auto, using(crate::proofs::ReadsParts::found_end))]
pub fn entry_end(pack: &[u32], head: usize) -> usize
    requires { (head < length pack.now) × (entry_end pack.now head < length pack.now) × (length pack.now ≤ 4096) }
    ensures { result ≡ entry_end pack.now head }
{
    let parts = parts_at(pack, head);
    let counted = Counts::of(pack[parts.counts]);
    varyings_end(pack, parts.outputs, counted.outputs)
}

// The position behind the resource that begins at a position.
#[tactic(auto, using(word::proofs::Tests::tests))]
fn resource_end(pack: &[u32], at: usize) -> usize
    requires { at < 2 ^ 60 }
    ensures value { result ≡ resource_end pack.now at }
    ensures upper_bound { result ≤ at + 3 }
{
    if word(pack, at + 1) / 0x80_0000 % 16 == 0 {
        at + 3
    } else {
        at + 2
    }
}

impl AcceptedPack<'_> {
    // Where the first entry point begins.
    #[tactic(auto, using(crate::proofs::ReadsParts::end_more), unfolding(crate::specs::Inner::Parts::end_from))]
    pub fn entries_at(&self) -> usize
        ensures value { result ≡ entries_at self.now.words.now }
        ensures upper_bound { result ≤ 400 }
    {
        let mut at = 15;
        for _ in 0..self.resource_count() {
            at = resource_end(self.words, at);
        }
        at
    }
}
