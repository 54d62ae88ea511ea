// A case: what stands on a line of the input.
ghost use Rattle.std.specs.Prelude.{◌≤◌};

use arrayvec::ArrayVec;
use std::str;

// A list, with space for a little more than a call takes.
pub(crate) type List = ArrayVec<u32, 1040>;

#[derive(Drop)]
pub(crate) struct Case {
    pub(crate) types: List,
    pub(crate) asked: u32,
    pub(crate) binding: List,
    pub(crate) out: List,
}

// A number in digits and small letters; a sign or a capital letter, which `from_str_radix` takes too, is none.
fn number(text: &str, radix: u32) -> Option<u32>
    requires { (2 ≤ radix) × (radix ≤ 36) }
{
    if text
        .bytes()
        .all(|b| b.is_ascii_digit() || b.is_ascii_lowercase())
    {
        u32::from_str_radix(text, radix).ok()
    } else {
        None
    }
}

// Words in hex joined by commas, or the mark of none.
fn list(text: &str) -> Option<List> {
    let mut list = ArrayVec::new();
    if text == "-" {
        return Some(list);
    }
    for word in text.split(',') {
        list.try_push(number(word, 16)?).ok()?;
    }
    Some(list)
}

// The case of a line, `populate TYPES ASKED BINDING OUT`.
pub(crate) fn read(line: &[u8]) -> Option<Case> {
    let mut fields = str::from_utf8(line).ok()?.split(' ');
    let (Some("populate"), Some(types), Some(asked), Some(binding), Some(out), None) = (
        fields.next(),
        fields.next(),
        fields.next(),
        fields.next(),
        fields.next(),
        fields.next(),
    ) else {
        return None;
    };
    Some(Case {
        types: list(types)?,
        asked: number(asked, 10)?,
        binding: list(binding)?,
        out: list(out)?,
    })
}
