// Prints what resources of every sort meet on layout entries of every sort, a sign for each answer, and the entry types that they derive.
// The stored output is from the original Rust, by oracle/ on the same words in the order printed here, its numbers turned into signs.
// The Rust has no words: where they are no resource or no entry the oracle gives document 01's 2 or 3, and beside 24 the place.
// Each answer is given by value and by the rules on words, and has a question mark where the two differ.
#![tactic(auto)]

ghost use Rattle.std.specs.Prelude.{◌+◌, ◌<◌, ◌≤◌, ◌^◌};

use binding_rules::check_words::{check_words, derive_words};
use bindings::sizes::word_size;
use std::io;
use word::answer::Answer;
use word::refusal::Number;
use word::word;
use word_rules::derives::{derived_least, derived_word};
use word_rules::uses::words_use;

// Group 1, binding 7; a size of 64; no least size; visible to the vertex stage.
const PLACE: u32 = 0x2080_0007;

const SIZE: u32 = 0x3000_0040;

const NONE: u32 = 0x3000_0000;

const SEEN: u32 = 0x9800_0001;

// A number's sign: the digits below 10, and from 20 on a letter, A for 20.
fn sign(number: u32) -> &'static str {
    match number {
        0 => "0",
        2 => "2",
        3 => "3",
        22 => "C",
        23 => "D",
        25 => "F",
        26 => "G",
        27 => "H",
        28 => "I",
        30 => "K",
        _ => "?",
    }
}

// Whether the words of a resource and of an entry give the number that was given by value; 2 and 3 are of words that are none.
fn words_agree(number: u32, resource: &[u32], w: u32, least: u32) -> bool {
    if number == 2 || number == 3 {
        return true;
    }
    let size = word_size(word(resource, 2));
    match words_use(word(resource, 1), size, w, word_size(least)) {
        Ok(()) => number == 0,
        Err(error) => Number::from(error).code() == number,
    }
}

// A resource on the entry of four words.
fn check(rt: &impl Print, resource: &[u32], entry: [u32; 4]) -> io::Result<()> {
    let number = Answer::from(check_words(resource, &entry)).number;
    let [_, w, least, _] = entry;
    let sign = sign(number);
    print!(rt; "{sign}")?;
    if !words_agree(number, resource, w, least) {
        print!(rt; "?")?;
    }
    Ok(())
}

// Entries whose type words follow each other.
fn columns(rt: &impl Print, resource: &[u32], first: u32, n: u32, least: u32) -> io::Result<()>
    requires { first + n < 2 ^ 32 }
{
    for code in 0..n {
        check(rt, resource, [PLACE, first + code, least, SEEN])?;
    }
    Ok(())
}

// Whether the words of a resource give the words that were derived by value, or the number of the refusal.
fn derived_agree(answer: Answer, resource: &[u32], named: bool) -> bool {
    let w = word(resource, 1);
    match derived_word(w, named) {
        Ok(ty) => {
            let least = derived_least(w, word_size(word(resource, 2)));
            answer.number == 0
                && ty == answer.first
                && word::kind(answer.second) == 6
                && least == word_size(answer.second)
        }
        Err(error) => Number::from(error).code() == answer.number,
    }
}

fn derived(rt: &impl Print, resource: &[u32], named: bool) -> io::Result<()> {
    let answer = match derive_words(resource, named) {
        Ok(words) => Answer::new(0, words.ty, words.least, 0),
        Err(refusal) => Answer::from(refusal),
    };
    let Answer {
        number,
        first,
        second,
        ..
    } = answer;
    print!(rt; " {number} {first} {second}")?;
    if !derived_agree(answer, resource, named) {
        print!(rt; "?")?;
    }
    Ok(())
}

// A resource against buffers of no least size, one too small and one large enough, samplers, textures, storage textures by access,
// the external texture and acceleration structures; then what it derives, unnamed and named by a pair.
fn row(rt: &impl Print, resource: &[u32]) -> io::Result<()> {
    columns(rt, resource, 0x9000_0000, 8, NONE)?;
    columns(rt, resource, 0x9000_0000, 8, 0x3000_003f)?;
    columns(rt, resource, 0x9000_0000, 8, SIZE)?;
    columns(rt, resource, 0x9080_0000, 4, NONE)?;
    columns(rt, resource, 0x9100_0000, 80, NONE)?;
    columns(rt, resource, 0x9200_0000, 8, NONE)?;
    columns(rt, resource, 0x9201_0000, 8, NONE)?;
    columns(rt, resource, 0x9202_0000, 8, NONE)?;
    columns(rt, resource, 0x9203_0000, 8, NONE)?;
    columns(rt, resource, 0x9280_0000, 2, NONE)?;
    columns(rt, resource, 0x9300_0000, 3, NONE)?;
    derived(rt, resource, false)?;
    derived(rt, resource, true)?;
    println!(rt)
}

// Resources whose type words follow each other, of so many words; the third is a size.
fn rows(rt: &impl Print, first: u32, n: u32, words: usize) -> io::Result<()>
    requires { (first + n < 2 ^ 32) × (words ≤ 3) }
{
    for code in 0..n {
        let resource = [PLACE, first + code, SIZE];
        row(rt, &resource[..words])?;
    }
    Ok(())
}

// Storage textures of a format by access.
fn accesses(rt: &impl Print, first: u32) -> io::Result<()>
    requires { first < 0x9000_0000 }
{
    for access in 1..8 {
        rows(rt, first + 0x1_0000 * access, 1, 2)?;
    }
    Ok(())
}

// Storage textures by format: on an entry of the same format, and one of format 0 on an entry of each.
fn formats(rt: &impl Print) -> io::Result<()> {
    for format in 0..128 {
        let same = [PLACE, 0x8202_0001 + 0x100 * format];
        check(rt, &same, [PLACE, 0x9201_0001 + 0x100 * format, NONE, SEEN])?;
        let other = [PLACE, 0x8202_0001];
        check(
            rt,
            &other,
            [PLACE, 0x9201_0001 + 0x100 * format, NONE, SEEN],
        )?;
    }
    println!(rt)
}

// The content of a type word, in a resource of two or three words and in an entry without and with a least size.
fn content(rt: &impl Print, w: u32) -> io::Result<()>
    requires { w < 2 ^ 27 }
{
    let short = [PLACE, 0x8000_0000 + w];
    check(rt, &short, [PLACE, 0x9000_0000, NONE, SEEN])?;
    let long = [PLACE, 0x8000_0000 + w, SIZE];
    check(rt, &long, [PLACE, 0x9000_0000, NONE, SEEN])?;
    let uniform = [PLACE, 0x8000_0000, SIZE];
    check(rt, &uniform, [PLACE, 0x9000_0000 + w, NONE, SEEN])?;
    check(rt, &uniform, [PLACE, 0x9000_0000 + w, SIZE, SEEN])
}

// Each bit alone below a type's code.
fn bits(rt: &impl Print, code: u32) -> io::Result<()>
    requires { code < 16 }
{
    for place in 0u32..23 {
        content(rt, 0x80_0000 * code + (1 << place))?;
    }
    println!(rt)
}

fn types(rt: &impl Print) -> io::Result<()> {
    for code in 0..16 {
        bits(rt, code)?;
    }
    Ok(())
}

// Each kind in place of the right one, at each of the seven words.
fn kinds(rt: &impl Print) -> io::Result<()> {
    for kind in 0..32 {
        let w = 0x800_0000 * kind;
        let placed = [w + 7, 0x8000_0000, SIZE];
        check(rt, &placed, [PLACE, 0x9000_0000, NONE, SEEN])?;
        let typed = [PLACE, w, SIZE];
        check(rt, &typed, [PLACE, 0x9000_0000, NONE, SEEN])?;
        let sized = [PLACE, 0x8000_0000, w + 64];
        check(rt, &sized, [PLACE, 0x9000_0000, NONE, SEEN])?;
        let uniform = [PLACE, 0x8000_0000, SIZE];
        check(rt, &uniform, [w + 7, 0x9000_0000, NONE, SEEN])?;
        check(rt, &uniform, [PLACE, w, NONE, SEEN])?;
        check(rt, &uniform, [PLACE, 0x9000_0000, w, SEEN])?;
        check(rt, &uniform, [PLACE, 0x9000_0000, NONE, w + 1])?;
    }
    println!(rt)
}

fn main(rt: HostRuntime) -> io::Result<()> {
    rows(&rt, 0x8000_0000, 1, 3)?;
    rows(&rt, 0x8000_0008, 9, 3)?;
    rows(&rt, 0x8080_0000, 2, 2)?;
    rows(&rt, 0x8100_0000, 48, 2)?;
    rows(&rt, 0x8180_0000, 16, 2)?;
    rows(&rt, 0x8202_0000, 8, 2)?;
    accesses(&rt, 0x8200_0001)?;
    accesses(&rt, 0x8200_0e01)?;
    rows(&rt, 0x8280_0000, 8, 2)?;
    rows(&rt, 0x8300_0000, 2, 2)?;
    formats(&rt)?;
    types(&rt)?;
    kinds(&rt)
}
