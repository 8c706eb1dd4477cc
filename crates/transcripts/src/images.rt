// Makes images from the words of a transcript.
use crate::bytes::hex_byte;
use std::alloc::AllocError;

// The largest image that a word may ask for, in bytes.
const MAX_IMAGE: usize = 536_870_912;

/// Cuts or extends an image to `length` bytes, with zeroes, and writes to it as the words say.
/// `<offset>:=<hex>` writes these bytes at a byte offset, and `<offset>:=<hex>*<count>` does so
/// `count` times. `<offset>:<n>,<n>,..` writes numbers of eight bytes, the lowest byte first.
pub fn change(image: &mut Vec<u8>, length: usize, words: &str) -> Result<(), AllocError> {
    image.truncate(length.min(MAX_IMAGE));
    image.resize(length.min(MAX_IMAGE), 0)?;
    for word in words.split(' ') {
        put_word(image, word);
    }
    Ok(())
}

// Writes to an image what one word says.
fn put_word(image: &mut [u8], word: &str) {
    let Some((place, what)) = word.split_once(':') else {
        return;
    };
    let place = place.parse::<usize>().unwrap_or(usize::MAX);
    match what.strip_prefix("=") {
        Some(hex) => put_hex(image, place, hex),
        None => put_numbers(image, place, what),
    }
}

// Writes the bytes of `<hex>` or `<hex>*<count>` to an image, from offset `place` on.
fn put_hex(image: &mut [u8], place: usize, text: &str) {
    let (hex, count) = text.split_once('*').unwrap_or((text, "1"));
    let count = count.parse::<usize>().unwrap_or(0);
    let digits = hex.as_bytes();
    let length = digits.len() / 2;
    let Some(image) = image.get_mut(place..) else {
        return;
    };
    for (at, byte) in image
        .iter_mut()
        .enumerate()
        .take(length.saturating_mul(count))
    {
        if length > 0 {
            *byte = hex_at(digits, at % length);
        }
    }
}

// Returns byte number `at` of a text of hexadecimal digits, or 0 past its end.
fn hex_at(digits: &[u8], at: usize) -> u8 {
    match digits.get(at.saturating_mul(2)..) {
        Some([high, low, ..]) => hex_byte(*high, *low),
        _ => 0,
    }
}

// Writes numbers of eight bytes to an image, one after another, from offset `place` on.
fn put_numbers(image: &mut [u8], place: usize, text: &str) {
    let Some(image) = image.get_mut(place..) else {
        return;
    };
    for (number, bytes) in text.split(',').zip(image.chunks_exact_mut(8)) {
        let number = number.parse::<u64>().unwrap_or(0);
        bytes.copy_from_slice(&number.to_le_bytes());
    }
}
