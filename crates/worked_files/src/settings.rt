// The lines that set a run up, and those that tell how it must end.
use rows_model::Memory;
use std::alloc::Global;

/// What the lines begin with that set a run up.
const NAMES: [&str; 9] = [
    "words",
    "pieces",
    "room",
    "reads fail",
    "writes fail",
    "keeper fails",
    "door fails",
    "file fails",
    "client says",
];

/// What stands behind this name in the first line that begins with it.
pub fn said<'a>(block: &'a str, name: &str) -> Option<&'a str> {
    for line in block.lines() {
        if let Some(rest) = line.strip_prefix(name) {
            return Some(rest);
        }
    }
    None
}

/// The numbers that stand behind this name.
pub fn numbers(alloc: Global, block: &str, name: &str) -> Result<Vec<u64>, Memory> {
    let mut numbers = Vec::new(alloc);
    for word in said(block, name).unwrap_or("").split(' ') {
        if let Ok(number) = word.parse::<u64>() {
            numbers.push(number)?;
        }
    }
    Ok(numbers)
}

/// The words of a text, each behind one space.
pub fn words_of(alloc: Global, text: &str) -> Result<Vec<Vec<u8>>, Memory> {
    let mut words = Vec::new(alloc);
    if let Some(text) = text.strip_prefix(' ') {
        for word in text.split(' ') {
            words.push(Vec::from_slice(alloc, word.as_bytes())?)?;
        }
    }
    Ok(words)
}

/// Whether each line that tells how the run must end is one of those told, and one of them is `ends`.
pub fn are_told(block: &str, text: &str) -> bool {
    for line in block.lines() {
        if !(sets_up(line) || is_line_of(line, text)) {
            return false;
        }
    }
    said(block, "ends").is_some()
}

/// Whether the line sets a run up.
fn sets_up(line: &str) -> bool {
    for name in NAMES.iter() {
        if line.starts_with(*name) {
            return true;
        }
    }
    false
}

fn is_line_of(line: &str, text: &str) -> bool {
    for other in text.lines() {
        if other == line {
            return true;
        }
    }
    false
}
