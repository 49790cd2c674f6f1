// Parts of a line: its word, numbers, and bytes, of which some are written as escapes.
use std::alloc::Global;

/// The first word of a text, and what comes after it.
pub fn word_and_rest(text: &str) -> (&str, &str) {
    text.split_once(' ').unwrap_or((text, ""))
}

/// A number.
pub fn number_of(text: &str) -> Option<u64> {
    text.parse::<u64>().ok()
}

/// A number, or the first byte of a text, or 0.
pub fn value_of(text: &str) -> u64 {
    match (number_of(text), text.bytes().next()) {
        (Some(number), _) => number,
        (None, Some(byte)) => u64::from(byte),
        (None, None) => 0,
    }
}

/// Two numbers.
pub fn two_numbers(text: &str) -> Option<(u64, u64)> {
    let (first, second) = word_and_rest(text);
    Some((number_of(first)?, number_of(second)?))
}

/// Three numbers.
pub fn three_numbers(text: &str) -> Option<(u64, u64, u64)> {
    let (first, rest) = word_and_rest(text);
    let (second, third) = two_numbers(rest)?;
    Some((number_of(first)?, second, third))
}

/// A word and two numbers, which are 0 where they are left out.
pub fn word_and_numbers(text: &str) -> (&str, u64, u64) {
    let (word, rest) = word_and_rest(text);
    let (first, second) = word_and_rest(rest);
    (
        word,
        number_of(first).unwrap_or(0),
        number_of(second).unwrap_or(0),
    )
}

/// Numbers with a space between each two.
pub fn numbers_of(alloc: Global, text: &str) -> Option<Vec<u32>> {
    let mut numbers = Vec::new(alloc);
    if !text.is_empty() {
        for word in text.split(' ') {
            numbers.push(word.parse::<u32>().ok()?).ok()?;
        }
    }
    Some(numbers)
}

/// Whether these are the numbers.
pub fn are_numbers(numbers: &[u32], text: &str) -> bool {
    let mut rest = text;
    for number in numbers {
        let (first, others) = word_and_rest(rest);
        if number_of(first) != Some(u64::from(*number)) {
            return false;
        }
        rest = others;
    }
    rest.is_empty()
}

/// A text.
pub fn owned(alloc: Global, text: &str) -> Option<String> {
    String::from_str(alloc, text).ok()
}

// What the bytes of a text say so far.
#[derive(Clone, Copy)]
enum Ahead {
    // A letter, or a backslash.
    Letter,
    // A letter that stands for a byte.
    Escape,
    // Two digits of a byte, or the last one.
    High,
    Low(u8),
}

fn digit_of(letter: u8) -> Option<u8> {
    match letter {
        b'0'..=b'9' => Some(letter - b'0'),
        b'a'..=b'f' => Some(letter - b'a' + 10),
        _ => None,
    }
}

// The byte that a letter after a backslash stands for; any other one stands for itself.
fn escaped(letter: u8) -> u8 {
    match letter {
        b'n' => b'\n',
        b'r' => b'\r',
        b's' => b' ',
        b'0' => 0,
        _ => letter,
    }
}

// Adds a byte, after which a letter comes.
fn add(bytes: &mut Vec<u8>, byte: u8) -> Option<Ahead> {
    match bytes.push(byte) {
        Ok(()) => Some(Ahead::Letter),
        Err(_) => None,
    }
}

// Takes a letter, and tells what comes next.
fn after(bytes: &mut Vec<u8>, ahead: Ahead, letter: u8) -> Option<Ahead> {
    match (ahead, letter) {
        (Ahead::Letter, b'\\') => Some(Ahead::Escape),
        (Ahead::Letter, _) => add(bytes, letter),
        (Ahead::Escape, b'x') => Some(Ahead::High),
        (Ahead::Escape, _) => add(bytes, escaped(letter)),
        (Ahead::High, _) => Some(Ahead::Low(digit_of(letter)?)),
        (Ahead::Low(high), _) => {
            let low = digit_of(letter)?;
            add(bytes, high.wrapping_mul(16).wrapping_add(low))
        }
    }
}

/// Adds the bytes of a text, in which `\n`, `\r`, `\s`, `\0`, `\\` and `\x1f` stand for one.
pub fn add_text(bytes: &mut Vec<u8>, text: &str) -> bool {
    let mut ahead = Ahead::Letter;
    for letter in text.bytes() {
        match after(bytes, ahead, letter) {
            Some(next) => ahead = next,
            None => return false,
        }
    }
    matches!(ahead, Ahead::Letter)
}

/// Whether these bytes are a text.
pub fn is_text(alloc: Global, bytes: &[u8], text: &str) -> bool {
    let mut want = Vec::new(alloc);
    add_text(&mut want, text) && want.as_slice() == bytes
}
