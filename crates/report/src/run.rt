// The entry points of an accepted pack, each derived over the layout that those before it left.
ghost use Rattle.std.specs.Prelude.{◌≡◌, ◌+◌, ◌≤◌, length};
ghost use Rattle.arrayvec.specs.ArrayVec.{array_vec_len};
ghost use Rattle.word.specs.Refusals.{answer_of};
ghost use Rattle.interface.specs.Format.{stage_code, decode, interface_of};
ghost use Rattle.interface.specs.Inner.Parts.{workgroup_at, entry_point_at};
ghost use Rattle.report.specs.Report.{ran, start_run, derived, fed_on, run_entry, run_entries, empty_stage};

use crate::names::name_at;
use crate::text::{Text, push_line};
use interface::parts::entry_end;
use interface::reads::{AcceptedPack, stage_at, stage_code};
use stage::check::check_stage;
use stage::types::Codes;
use word::answer::Answer;
use word::refusal::Refusal;
use word::word;

// The layout list and the stage list as the entry points so far left them, and the text so far.
#[derive(Drop)]
pub(crate) struct Run {
    pub(crate) layout: [u32; 1024],
    pub(crate) io: [u32; 128],
    pub(crate) text: Text,
}

// The stage code of the entry point that begins at a position.
fn stage_of(pack: &[u32], head: usize) -> u32
    ensures { result ≡ stage_code (entry_point_at pack.now head).stage }
{
    stage_code(stage_at(word(pack, head) / 0x100_0000 % 8))
}

// A stage list with nothing in it.
fn empty_stage() -> [u32; 128]
    ensures { result ≡ empty_stage }
{
    let mut io = [0; 128];
    io[0] = 0x5800_0000;
    io[1] = 0x4800_0000;
    io
}

impl Run {
    // Before the first entry point.
    pub(crate) fn new() -> Run
        ensures { ran result.layout result.io result.text.items ≡ start_run }
    {
        let mut layout = [0; 1024];
        layout[0] = 0x8808_0000;
        Run {
            layout,
            io: empty_stage(),
            text: Text::new(),
        }
    }

    // Derives the entry point that begins at a position. Where it is accepted, the list that it wrote takes the place of the one before.
    fn derive(&mut self, pack: &[u32], head: usize, stage: u32) -> Result<(), Refusal>
        requires { (workgroup_at pack.now head ≤ length pack.now) × (stage ≡ stage_code (entry_point_at pack.now head).stage) }
        ensures value { answer_of result ≡ (derived pack.now (entry_point_at pack.now head) self.old.layout self.old.io).answer }
        ensures layout_after { self.new.layout ≡ (derived pack.now (entry_point_at pack.now head) self.old.layout self.old.io).layout }
        ensures io_after { self.new.io ≡ fed_on (derived pack.now (entry_point_at pack.now head) self.old.layout self.old.io) self.old.io }
        ensures text_kept { self.new.text ≡ self.old.text }
    {
        let mut sizes = [0xa000_0000u32; 1];
        let mut out = empty_stage();
        let name = name_at(pack, head);
        let codes = Codes {
            stage,
            topology: 3,
            mode: 1,
            dual_source: 0,
            depth: 1,
        };
        let outcome = check_stage(
            pack,
            &mut self.layout,
            &mut sizes,
            &self.io,
            &mut out,
            name.as_slice(),
            codes,
        );
        if outcome.is_ok() {
            self.io = out;
        }
        outcome
    }

    // Derives the entry point that begins at a position, and writes its line.
    fn entry(&mut self, pack: &[u32], head: usize)
        requires { (workgroup_at pack.now head ≤ length pack.now) × (array_vec_len self.old.text + 55 ≤ 12288) }
        ensures run { ran self.new.layout self.new.io self.new.text.items
            ≡ run_entry pack.now (entry_point_at pack.now head) (ran self.old.layout self.old.io self.old.text.items) }
        ensures upper_bound { array_vec_len self.new.text ≤ array_vec_len self.old.text + 55 }
    {
        let stage = stage_of(pack, head);
        let outcome = self.derive(pack, head, stage);
        push_line(&mut self.text, stage, Answer::from(outcome));
    }

    // Every entry point of an accepted pack, in order.
    pub(crate) fn entries(&mut self, pack: &AcceptedPack<'_>)
        requires { array_vec_len self.old.text + 880 ≤ 12288 }
        ensures run { ran self.new.layout self.new.io self.new.text.items
            ≡ run_entries pack.now.words.now (interface_of (decode pack.now.words.now)).entries (ran self.old.layout self.old.io self.old.text.items) }
        ensures upper_bound { array_vec_len self.new.text ≤ array_vec_len self.old.text + 880 }
    {
        let words = pack.words;
        let mut head = pack.entries_at();
        for _ in 0..pack.entry_count() {
            self.entry(words, head);
            head = entry_end(words, head);
        }
    }
}
