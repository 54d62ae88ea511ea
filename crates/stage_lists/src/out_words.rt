// The words that a stage list is written in.
ghost use Rattle.std.specs.Prelude.{◌≡◌, true, ◌*◌, ◌^◌};
ghost use Rattle.word.specs.Words.{of_kind};
ghost use Rattle.varying.specs.Format.{var_of, var_word, payload_encodable, payload_word};
ghost use Rattle.stage_lists.specs.Format.{primitive_code};

// The first word of a list that counts no variable yet.
pub(crate) fn primitive_word(primitive: Option<bool>) -> u32
    ensures { result ≡ of_kind 11 (2 ^ 25 * primitive_code primitive) }
{
    match primitive {
        None => 0x5800_0000,
        Some(false) => 0x5A00_0000,
        Some(true) => 0x5C00_0000,
    }
}

pub(crate) fn payload_word(payload: Option<u32>) -> u32
    requires { payload_encodable payload ≡ true }
    ensures { result ≡ payload_word payload }
{
    match payload {
        None => 0x4800_0000,
        Some(bytes) => 0x4C00_0000 + bytes,
    }
}

// The word of the variable that a word holds: bits that name nothing are zero, and a shape has one code.
pub(crate) fn var_word(w: u32) -> u32
    ensures { result ≡ var_word (var_of w) }
{
    let rest = 0x6800_0000 + w / 0x1000 % 0x80 * 0x1000 + w / 16 % 64 * 16;
    let shape = w % 16;
    if shape < 13 {
        return rest + shape;
    }
    rest + (shape - 3)
}
