// The stages that see a layout entry.
ghost use Rattle.std.specs.Prelude.{◌≡◌, ◌+◌, ◌<◌, ◌≤◌, ◌^◌};
ghost use Rattle.interface.specs.Format.{stage_code};
ghost use Rattle.layouts.specs.Meaning.{sees_bit, join_bit};

use interface::reads::stage_code;
use interface::types::ShaderStage;

// Whether a visibility has a stage's bit.
pub fn sees(visibility: u32, stage: ShaderStage) -> bool
    ensures { result ≡ sees_bit (stage_code stage) visibility }
{
    (visibility >> stage_code(stage)) % 2 == 1
}

// The visibility of one stage alone.
pub fn stage_bit(stage: ShaderStage) -> u32
    ensures value { result ≡ 2 ^ stage_code stage }
    ensures upper_bound { result ≤ 16 }
{
    1 << stage_code(stage)
}

// A stage's bit joined to a visibility.
pub(crate) fn join_bit(visibility: u32, stage: ShaderStage) -> u32
    requires { visibility < 2 ^ 27 }
    ensures value { result ≡ join_bit (stage_code stage) visibility }
    ensures upper_bound { result ≤ visibility + 16 }
{
    if sees(visibility, stage) {
        return visibility;
    }
    visibility + stage_bit(stage)
}
