// Damages a pack that has every sort of resource, and prints what the check of packs answers.
// Lines `0 WORD A B C`: of the 32 packs with one bit of the word flipped, how many are accepted, damaged and malformed.
// Lines `1 WORD A B C`: the same with the closing sum renewed. Lines `2 N ANSWER`: the first N words alone.
// Lines `3 N ANSWER`: the first N words, or all and zeros behind them, with total and sum renewed.
// The stored output is from the program `model` of oracle/ on the same packs, by tools/packs_expected.py.
#![tactic(auto)]

ghost use Rattle.std.specs.Prelude.{◌<◌, ◌≤◌, length};

use pack_check::check_pack::{check_pack, index_pack};
use std::io;
use word::closing_sum;
use word::refusal::Refusal;

// The pack has 83 words; zeros stand behind it.
const WORDS: [u32; 96] = [
    0x0801_0053,
    0x1007_0003,
    0x1800_0010,
    0x1800_0008,
    0x1800_0100,
    0x1800_0100,
    0x1800_0040,
    0x1800_0100,
    0x1800_0100,
    0x1800_0100,
    0x1800_0100,
    0x1800_0100,
    0x1800_0100,
    0x1800_0100,
    0x1800_4000,
    0x2000_0000,
    0x8000_0009,
    0x3000_0020,
    0x2000_0001,
    0x8100_0001,
    0x2000_0002,
    0x8080_0000,
    0x2080_0000,
    0x8180_0009,
    0x2080_0001,
    0x8202_0001,
    0x2080_0002,
    0x8280_0001,
    0x2100_0000,
    0x8300_0001,
    0x3802_0000,
    0x0000_7376,
    0x4000_0000,
    0x4000_0000,
    0x4000_0000,
    0x4800_0000,
    0x780c_1042,
    0x2800_0000,
    0x2800_0001,
    0x2800_0002,
    0x2800_0102,
    0x6000_0000,
    0x6800_0123,
    0x6000_0000,
    0x6800_1123,
    0x7400_0005,
    0x3905_0001,
    0x6f5f_7366,
    0x0000_006e,
    0x4000_0000,
    0x4000_0000,
    0x4000_0000,
    0x4800_0000,
    0x7810_3082,
    0x2800_0001,
    0x2800_0003,
    0x2800_0005,
    0x2800_0002,
    0x2800_0102,
    0x2800_0302,
    0x2800_0502,
    0x6000_0000,
    0x6800_1123,
    0x7100_0001,
    0x6000_0000,
    0x6800_0123,
    0x7300_0000,
    0x3c02_0002,
    0x0000_7376,
    0x4000_0008,
    0x4000_0004,
    0x4000_0001,
    0x4c00_0010,
    0x5000_0040,
    0x5000_0020,
    0x5000_0003,
    0x7808_0041,
    0x2800_0004,
    0x2800_0006,
    0x7200_0000,
    0x6000_0001,
    0x6804_0120,
    0x379c_1605,
    0x0000_0000,
    0x0000_0000,
    0x0000_0000,
    0x0000_0000,
    0x0000_0000,
    0x0000_0000,
    0x0000_0000,
    0x0000_0000,
    0x0000_0000,
    0x0000_0000,
    0x0000_0000,
    0x0000_0000,
    0x0000_0000,
];

// The number of the check of packs, by the check alone and by the one that fills the tables of positions; 9 where they differ.
fn answer_on(pack: &[u32]) -> u32 {
    let mut offsets = [0; 128];
    let mut heads = [0; 16];
    let answer = check_pack(pack);
    if index_pack(pack, &mut offsets, &mut heads) != answer {
        return 9;
    }
    match answer {
        Ok(()) => 0,
        Err(error) => Refusal::from(error).number.code(),
    }
}

// The answer on the pack with some bits of a word flipped, and the closing sum renewed or not.
fn flipped(pack: &[u32], i: usize, bits: u32, renewed: bool) -> u32
    requires { (i < length pack.now) × (length pack.now ≤ 96) }
{
    let mut words = [0; 96];
    let words = &mut words[..pack.len()];
    words.copy_from_slice(pack);
    words[i] ^= bits;
    if renewed {
        words[pack.len() - 1] = closing_sum(words);
    }
    answer_on(words)
}

// How many of the packs with one bit of a word flipped are accepted, damaged and malformed.
fn row(rt: &impl Print, pack: &[u32], i: usize, renewed: bool) -> io::Result<()>
    requires { (i < length pack.now) × (length pack.now ≤ 96) }
{
    let mut accepted: u32 = 0;
    let mut damaged: u32 = 0;
    let mut malformed: u32 = 0;
    for bit in 0u32..32 {
        match flipped(pack, i, 1 << bit, renewed) {
            0 => accepted += 1,
            1 => damaged += 1,
            2 => malformed += 1,
            _ => {}
        }
    }
    let sort = u32::from(renewed);
    println!(rt; "{sort} {i} {accepted} {damaged} {malformed}")
}

fn plain_rows(rt: &impl Print, pack: &[u32]) -> io::Result<()>
    requires { length pack.now ≤ 96 }
{
    for i in 0..pack.len() {
        row(rt, pack, i, false)?;
    }
    Ok(())
}

// All but the closing sum, which is renewed.
fn closed_rows(rt: &impl Print, pack: &[u32]) -> io::Result<()>
    requires { (0 < length pack.now) × (length pack.now ≤ 96) }
{
    for i in 0..pack.len() - 1 {
        row(rt, pack, i, true)?;
    }
    Ok(())
}

// As many words before a closing one, with the total and the sum that belong to them.
fn refitted(words: &[u32; 96], n: usize) -> u32
    requires { n < 95 }
{
    let mut words = *words;
    let end = n + 1;
    words[0] = 0x0801_0000 + end as u32;
    words[n] = closing_sum(&words[..end]);
    answer_on(&words[..end])
}

// The first words alone.
fn shortened_lines(rt: &impl Print, pack: &[u32]) -> io::Result<()> {
    for n in 0..=pack.len() {
        let answer = answer_on(&pack[..n]);
        println!(rt; "2 {n} {answer}")?;
    }
    Ok(())
}

fn refitted_lines(rt: &impl Print, words: &[u32; 96]) -> io::Result<()> {
    for n in 1..90 {
        let answer = refitted(words, n);
        println!(rt; "3 {n} {answer}")?;
    }
    Ok(())
}

fn main(rt: HostRuntime) -> io::Result<()> {
    let pack = &WORDS[..83];
    plain_rows(&rt, pack)?;
    closed_rows(&rt, pack)?;
    shortened_lines(&rt, pack)?;
    refitted_lines(&rt, &WORDS)
}
