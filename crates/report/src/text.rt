// Numbers as text, each put behind the text so far.
ghost use Rattle.std.specs.Prelude.{◌≡◌, [], ◌∷◌, ◌++◌, ◌+◌, ◌*◌, ◌≤◌, length};
ghost use Rattle.arrayvec.specs.ArrayVec.{array_vec_len};
ghost use Rattle.report.specs.Text.{decimal, hex_line, hex_lines, answer_text, line};

use arrayvec::ArrayVec;
use itoa::Buffer;
use word::answer::Answer;

// Room for the lines of 16 entry points and of 1,024 words.
pub type Text = ArrayVec<u8, 12288>;

// Puts bytes behind those that are there.
pub(crate) fn extend<const N: usize>(bytes: &mut ArrayVec<u8, N>, more: &[u8])
    requires { array_vec_len bytes.old + length more.now ≤ N }
    ensures { bytes.new.items ≡ bytes.old.items ++ more.now }
{
    bytes.try_extend_from_slice(more).unwrap();
}

// A number in decimal, and the byte that ends it. By its contract `write!` might fail; this cannot.
fn push_number(text: &mut Text, n: u32, end: u8)
    requires { array_vec_len text.old + 11 ≤ 12288 }
    ensures text_after { text.new.items ≡ text.old.items ++ (decimal n ++ (end ∷ [])) }
    ensures upper_bound { array_vec_len text.new ≤ array_vec_len text.old + 11 }
{
    let mut buffer = Buffer::new();
    extend(text, buffer.format(n).as_bytes());
    text.push(end);
}

// An answer: the number and the three details.
fn push_answer(text: &mut Text, a: Answer)
    requires { array_vec_len text.old + 44 ≤ 12288 }
    ensures text_after { text.new.items ≡ text.old.items ++ answer_text a }
    ensures upper_bound { array_vec_len text.new ≤ array_vec_len text.old + 44 }
{
    push_number(text, a.number, b' ');
    push_number(text, a.first, b' ');
    push_number(text, a.second, b' ');
    push_number(text, a.third, b'\n');
}

// A stage's line: its code and its answer.
pub(crate) fn push_line(text: &mut Text, stage: u32, a: Answer)
    requires { array_vec_len text.old + 55 ≤ 12288 }
    ensures text_after { text.new.items ≡ text.old.items ++ line stage a }
    ensures upper_bound { array_vec_len text.new ≤ array_vec_len text.old + 55 }
{
    push_number(text, stage, b' ');
    push_answer(text, a);
}

// A word's line: its hex digits.
fn push_hex_line(text: &mut Text, w: u32)
    requires { array_vec_len text.old + 9 ≤ 12288 }
    ensures text_after { text.new.items ≡ text.old.items ++ hex_line w }
    ensures length_after { array_vec_len text.new ≡ array_vec_len text.old + 9 }
{
    let mut digits = [0u8; 8];
    hex::encode_to_slice(w.to_be_bytes(), &mut digits).unwrap();
    extend(text, &digits);
    text.push(b'\n');
}

// The lines of words.
pub(crate) fn push_hex_lines(text: &mut Text, words: &[u32])
    requires { array_vec_len text.old + 9 * length words.now ≤ 12288 }
    ensures { text.new.items ≡ text.old.items ++ hex_lines words.now }
{
    for w in words {
        push_hex_line(text, *w);
    }
}
