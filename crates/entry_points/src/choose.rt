// The choice of an entry point of an accepted pack.
ghost use Rattle.std.specs.Prelude.{◌≡◌, ◌<◌, ◌≤◌, length, IfSome, IfOk};
ghost use Rattle.word.specs.Refusals.{answer_with};
ghost use Rattle.interface.specs.Format.{named, decode};
ghost use Rattle.interface.specs.Meaning.{entry_point_nth};
ghost use Rattle.interface.specs.Inner.Reads.{standing};
ghost use Rattle.interface.specs.Inner.Parts.{Placed, entry_point_at, head_at, parts_at, workgroup_at};
ghost use Rattle.entry_points.specs.Rules.{entries_in, of_stage, find_entry_point, only_entry_point, choice_refusal, finalize_name};

use crate::module::Module;
use crate::names::same_name;
use interface::reads::{AcceptedPack, position_at, stage_at};
use interface::types::{EntryParts, ShaderStage};
use pack_check::check_pack::index_pack;
use word::refusal::{Number, Refusal};

// Why a stage alone chooses no entry point: it has none, or several.
#[derive(Clone, Copy, Debug, PartialEq, Eq)]
pub enum ChoiceError {
    Absent,
    Several,
}

impl From<ChoiceError> for Refusal {
    ghost use Rattle.entry_points.specs.Rules.{choice_refusal};

    ghost from_gives = { λ e r. r ≡ choice_refusal e };

    fn from(error: ChoiceError) -> Self {
        match error {
            ChoiceError::Absent => Self::plain(Number::EntryNone),
            ChoiceError::Several => Self::plain(Number::EntrySeveral),
        }
    }
}

impl Module<'_> {
    // How many entry points there are.
    pub fn entry_count(&self) -> usize
        ensures value { result ≡ length (entries_in self.now.pack.now) }
        ensures upper_bound { result ≤ 16 }
    {
        AcceptedPack { words: self.pack }.entry_count()
    }

    // Where the parts of an entry point stand.
    pub fn entry_parts(&self, position: usize) -> EntryParts
        requires { position < length (entries_in self.now.pack.now) }
        ensures stands { standing self.now.pack.now result ≡ entry_point_nth (entries_in self.now.pack.now) position }
        ensures placed { Placed self.now.pack.now result }
        ensures parts { result ≡ parts_at self.now.pack.now (head_at self.now.pack.now position) }
    {
        AcceptedPack { words: self.pack }.entry_parts(self.heads, position)
    }

    // Where an entry point begins.
    #[tactic(auto, using(interface::proofs::ReadsParts::found_head, crate::proofs::ReadsChoice::stands_here))]
    fn head(&self, position: usize) -> usize
        requires { position < length (entries_in self.now.pack.now) }
        ensures stands { entry_point_at self.now.pack.now result ≡ entry_point_nth (entries_in self.now.pack.now) position }
        ensures inside { result < length self.now.pack.now }
        ensures name_inside { workgroup_at self.now.pack.now result ≤ length self.now.pack.now }
    {
        position_at(self.heads, position) as usize
    }

    // The stage of an entry point.
    #[tactic(auto, using(crate::proofs::ReadsChoice::stage_read))]
    fn stage_of(&self, position: usize) -> ShaderStage
        requires { position < length (entries_in self.now.pack.now) }
        ensures { result ≡ (entry_point_nth (entries_in self.now.pack.now) position).stage }
    {
        stage_at(self.pack[self.head(position)] / 0x100_0000 % 8)
    }

    // Whether an entry point has this stage.
    fn has_stage(&self, position: usize, stage: ShaderStage) -> bool
        requires { position < length (entries_in self.now.pack.now) }
        ensures { result ≡ of_stage stage (entry_point_nth (entries_in self.now.pack.now) position) }
    {
        self.stage_of(position) == stage
    }

    // Whether an entry point has this stage and this name.
    #[tactic(auto, using(crate::proofs::ReadsChoice::name_read))]
    fn is_named(&self, position: usize, stage: ShaderStage, name: &[u8]) -> bool
        requires { position < length (entries_in self.now.pack.now) }
        ensures { result ≡ named stage name.now (entry_point_nth (entries_in self.now.pack.now) position) }
    {
        self.has_stage(position, stage) && same_name(self.pack, self.head(position), name)
    }

    // The entry point of a stage and a name.
    pub fn find_entry_point(&self, stage: ShaderStage, name: &[u8]) -> Option<usize>
        ensures value { result ≡ find_entry_point stage name.now (entries_in self.now.pack.now) }
        ensures in_bounds { IfSome result (λ i. i < length (entries_in self.now.pack.now)) }
    {
        (0..self.entry_count()).find(|position| self.is_named(*position, stage, name))
    }

    // A stage's one entry point.
    #[tactic(auto, using(crate::proofs::ReadsChoice::found_only))]
    fn only_entry_point(&self, stage: ShaderStage) -> Result<usize, ChoiceError>
        ensures value { result ≡ only_entry_point stage (entries_in self.now.pack.now) }
        ensures in_bounds { IfOk result (λ i. i < length (entries_in self.now.pack.now)) }
    {
        let mut only = None;
        for position in 0..self.entry_count() {
            if self.has_stage(position, stage) {
                if only.is_some() {
                    return Err(ChoiceError::Several);
                }
                only = Some(position);
            }
        }
        only.ok_or(ChoiceError::Absent)
    }
}

// The entry point that a stage means where no name is given, by its position.
#[tactic(auto, using(crate::proofs::ReadsChoice::chosen_by_stage))]
pub fn finalize_entry_point_name(pack: &[u32], stage: u32) -> Result<u32, Refusal>
    ensures { answer_with result ≡ finalize_name (decode pack.now) stage }
{
    let mut offsets: [u16; 128] = [0; 128];
    let mut heads: [u16; 16] = [0; 16];
    index_pack(pack, &mut offsets, &mut heads)?;
    if 4 < stage {
        return Err(Refusal::plain(Number::BadCall));
    }
    let module = Module {
        pack,
        heads: &heads,
    };
    let position = module.only_entry_point(stage_at(stage))?;
    Ok(position as u32)
}
