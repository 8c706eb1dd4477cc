//! Tests of how a line is cut into words, and which words are numbers.

use refusals::{count_words, cut, number_of, push_number, word_at};
use std::alloc::Global;
use std::process::Abort;
use test_devices::rows_are_told;

// Parses a word as a number, and prints the number again. If it is no number, returns `no number`.
fn answer(rt: &impl Abort, alloc: Global, word: &str) -> String {
    match number_of(word.as_bytes()) {
        Some(number) => {
            let mut text = Vec::new(alloc);
            push_number(&mut text, number).expect(rt, "memory");
            String::from_utf8(text).unwrap_or(String::new(alloc))
        }
        None => String::from_str(alloc, "no number").expect(rt, "memory"),
    }
}

// Rows `word=the number that it is parsed as`.
const NUMBERS: &str = "0=0
7=7
00000000000000000042=42
000000000000000000042=no number
18446744073709551615=18446744073709551615
18446744073709551616=no number
28446744073709551615=no number
99999999999999999999=no number
=no number
+1=no number
-1=no number
1x=no number
/=no number
:=no number";

#[test]
fn numbers_are_read(rt: HostRuntime) {
    let alloc = rt.alloc();
    assert!(rt; rows_are_told(&rt, NUMBERS, |word| answer(&rt, alloc, word)));
}

#[test]
fn texts_are_cut(rt: HostRuntime) {
    let line: &[u8] = b"w a  5";
    let (first, rest) = cut(line, b' ');
    assert!(rt; first == b"w".as_slice() && rest == Some(b"a  5".as_slice()));
    let (all, none) = cut(line, b'x');
    assert!(rt; all == line && none.is_none());
}

// Returns the words of a line, each followed by a bar.
fn barred(rt: &impl Abort, alloc: Global, line: &str) -> String {
    let (line, mut shown) = (line.as_bytes(), String::new(alloc));
    for place in 0..count_words(line) {
        let word = word_at(line, place).unwrap_or_default();
        shown
            .push_str(str::from_utf8(word).unwrap_or_default())
            .expect(rt, "memory");
        shown.push('|').expect(rt, "memory");
    }
    assert!(rt; word_at(line, count_words(line)).is_none());
    shown
}

// Rows `line=its words`, each word followed by a bar.
const LINES: &str = "=
   =
one=one|
  0 16   linear =0|16|linear|
a\tb c=a\tb|c|";

#[test]
fn words_are_told_apart(rt: HostRuntime) {
    let alloc = rt.alloc();
    assert!(rt; rows_are_told(&rt, LINES, |line| barred(&rt, alloc, line)));
}
