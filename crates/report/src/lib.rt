// What the program that checks a pack prints: a line for each entry point and the layout words, or why the pack is refused.
#![tactic(auto)]

ghost use Rattle.std.specs.Prelude.{◌≡◌};
ghost use Rattle.word.specs.Numbers.{number_of};
ghost use Rattle.interface.specs.Format.{decode};
ghost use Rattle.report.specs.Report.{refused_pack, decoded_text, report};

use crate::run::Run;
pub use crate::text::Text;
use crate::text::{push_hex_lines, push_line};
use crate::words::words_of;
use interface::reads::AcceptedPack;
use layouts::layout::used_words;
use pack_check::check_pack::check_pack;
use word::answer::Answer;
use word::refusal::{Number, Refusal};

mod names;
mod run;
mod text;
mod words;

// The line of a refused pack: the text has 9 in place of a stage's code.
fn refused_text(number: Number) -> Text
    ensures { result.items ≡ refused_pack (number_of number) }
{
    let mut text = Text::new();
    push_line(&mut text, 9, Answer::from(Refusal::plain(number)));
    text
}

// The text of a pack in words.
fn pack_text(pack: &[u32]) -> Text
    ensures { result.items ≡ decoded_text pack.now (decode pack.now) }
{
    if let Err(error) = check_pack(pack) {
        return refused_text(Refusal::from(error).number);
    }
    let mut run = Run::new();
    run.entries(&AcceptedPack { words: pack });
    let n = used_words(&run.layout);
    push_hex_lines(&mut run.text, &run.layout[..n]);
    run.text
}

// What the program prints of a pack's bytes.
pub fn report_text(bytes: &[u8]) -> Text
    ensures { result.items ≡ report bytes.now }
{
    if bytes.len() % 4 != 0 || 16384 < bytes.len() {
        return refused_text(Number::DamagedPack);
    }
    pack_text(words_of(bytes).as_slice())
}
