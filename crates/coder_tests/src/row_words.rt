//! Reading the words of a row: numbers, bytes, headers, files and faults.

use cube_core::fault::Fault;
use std::alloc::Global;
use std::process::Abort;

/// The header of one sample by the common settings.
///
/// User data 0; one column, row and band; unsigned samples of 8 bits, band-sequential order; depth 0; output words of
/// one byte, the sample-adaptive coder; no previous bands, reduced mode; column-oriented sums, a register of 32 bits;
/// weight resolution 13, t_inc = 2^6, v_min = -1, v_max = 3; default weight initialization; U_max = 16, γ* = 6, γ₀ = 1,
/// K = 3.
const HEADER: &str = "00 00 01 00 01 00 01 11 00 00 08 00 02 a0 92 59 00 82 26";

/// Returns the parts of a row, which are separated by bars; missing ones are empty.
pub(crate) fn parts_of<'a>(rt: &impl Abort, row: &'a str) -> [&'a str; 5] {
    let mut parts = [""; 5];
    for (i, part) in row.split('|').enumerate() {
        assert!(rt; i < 5, "{row}");
        parts[i] = part.trim();
    }
    parts
}

/// Parses a number such as `200`.
pub(crate) fn number_of(rt: &impl Abort, word: &str) -> u32 {
    word.parse::<u32>().expect(rt, "a number")
}

/// Parses a byte such as `c8`.
fn byte_of(rt: &impl Abort, word: &str) -> u8 {
    u8::from_str_radix(word, 16).expect(rt, "a byte")
}

/// Parses bytes such as `90 80`.
pub(crate) fn bytes_of(rt: &impl Abort, alloc: Global, words: &str) -> Vec<u8> {
    let mut bytes = Vec::new(alloc);
    for word in words.split_whitespace() {
        bytes.push(byte_of(rt, word)).expect(rt, "memory");
    }
    bytes
}

/// Parses numbers such as `200 40*128`: 200, and 128 forty times.
pub(crate) fn numbers_of(rt: &impl Abort, alloc: Global, words: &str) -> Vec<u16> {
    let mut numbers = Vec::new(alloc);
    for word in words.split_whitespace() {
        append_numbers(rt, &mut numbers, word);
    }
    numbers
}

/// Appends the numbers of one word.
fn append_numbers(rt: &impl Abort, numbers: &mut Vec<u16>, word: &str) {
    let (count, number) = repeated(rt, word);
    let number = number.parse::<u16>().expect(rt, "a number");
    for _ in 0..count {
        numbers.push(number).expect(rt, "memory");
    }
}

/// Returns how often a word's number occurs, and that number: 40 and `128` of `40*128`.
fn repeated<'a>(rt: &impl Abort, word: &'a str) -> (u32, &'a str) {
    let (count, number) = word.split_once('*').unwrap_or(("1", word));
    (number_of(rt, count), number)
}

/// Parses samples, written in the same way, to raw bytes: one for each sample or two, the high one first.
pub(crate) fn samples_of(rt: &impl Abort, alloc: Global, words: &str, bytes: u32) -> Vec<u8> {
    let mut samples = Vec::new(alloc);
    for word in words.split_whitespace() {
        append_samples(rt, &mut samples, word, bytes);
    }
    samples
}

/// Appends the raw bytes of the samples of one word.
fn append_samples(rt: &impl Abort, samples: &mut Vec<u8>, word: &str, bytes: u32) {
    let (count, sample) = repeated(rt, word);
    let sample = sample.parse::<i32>().expect(rt, "a sample");
    let [_, _, high, low] = sample.to_be_bytes();
    for _ in 0..count {
        if bytes == 2 {
            samples.push(high).expect(rt, "memory");
        }
        samples.push(low).expect(rt, "memory");
    }
}

/// Returns the common header with changed bytes, as in `4:02 16:63 17+e0`; a `+` inserts a byte.
pub(crate) fn header_of(rt: &impl Abort, alloc: Global, changes: &str) -> Vec<u8> {
    let mut header = bytes_of(rt, alloc, HEADER);
    for words in changes.split_whitespace() {
        change(rt, &mut header, words);
    }
    header
}

/// Makes one change to a header.
fn change(rt: &impl Abort, header: &mut Vec<u8>, words: &str) {
    if let Some((at, byte)) = words.split_once('+') {
        let at = number_of(rt, at) as usize;
        assert!(rt; at <= header.len(), "{words}");
        header.insert(at, byte_of(rt, byte)).expect(rt, "memory");
    } else {
        let (at, byte) = words.split_once(':').expect(rt, "a byte's number");
        let at = number_of(rt, at) as usize;
        *header.get_mut(at).expect(rt, words) = byte_of(rt, byte);
    }
}

/// Returns the bytes of a file, given the changes of its header and its body.
pub(crate) fn file_of(rt: &impl Abort, alloc: Global, changes: &str, body: &str) -> Vec<u8> {
    let mut file = header_of(rt, alloc, changes);
    file.extend_from_slice(&bytes_of(rt, alloc, body))
        .expect(rt, "memory");
    file
}

/// Parses a fault such as `Truncated 160`.
pub(crate) fn fault_of(rt: &impl Abort, words: &str) -> Fault {
    let (name, number) = words.split_once(' ').unwrap_or((words, "0"));
    let number = u64::from(number_of(rt, number));
    match name {
        "Truncated" => Fault::Truncated { bit: number },
        "BadCode" => Fault::BadCode { place: number },
        "BadOption" => Fault::BadOption { block: number },
        "RunPastSegment" => Fault::RunPastSegment { block: number },
        "TooLong" => Fault::TooLong { bits: number },
        _ => {
            assert!(rt; words == "BadFill", "{words}");
            Fault::BadFill
        }
    }
}
