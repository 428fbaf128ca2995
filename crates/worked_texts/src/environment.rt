ghost use Rattle.std.specs.Io.{WritesAtMost};

use std::env::FillError;
use std::rt::Env;
use std::test::Fail;
use store_edge::call_words;

/// An environment with these words, that of the program's name first.
#[derive(Drop)]
struct Words<'a> {
    all: &'a [&'a [u8]],
}

/// An environment with so many words, of which each is its number in three digits.
#[derive(Drop)]
struct Numbers {
    count: usize,
}

/// Puts a word into a buffer.
fn fill(word: &[u8], buf: &mut [u8]) -> Result<usize, FillError>
    ensures { WritesAtMost result buf.new }
{
    if buf.len() < word.len() {
        return Err(FillError::TooLong);
    }
    buf[..word.len()].copy_from_slice(word);
    Ok(word.len())
}

impl Env for Words<'_> {
    fn arg(&self, i: usize, buf: &mut [u8]) -> Result<usize, FillError> {
        match self.all.get(i) {
            Some(word) => fill(word, buf),
            None => Err(FillError::NotPresent),
        }
    }

    fn var(&self, _name: &str, _buf: &mut [u8]) -> Result<usize, FillError> {
        Err(FillError::NotPresent)
    }

    fn var_at(&self, _i: usize, _buf: &mut [u8]) -> Result<usize, FillError> {
        Err(FillError::NotPresent)
    }
}

/// A number in three digits.
fn digits(number: usize) -> [u8; 3] {
    [
        b'0' + (number / 100 % 10) as u8,
        b'0' + (number / 10 % 10) as u8,
        b'0' + (number % 10) as u8,
    ]
}

impl Env for Numbers {
    fn arg(&self, i: usize, buf: &mut [u8]) -> Result<usize, FillError> {
        if i < self.count {
            fill(&digits(i), buf)
        } else {
            Err(FillError::NotPresent)
        }
    }

    fn var(&self, _name: &str, _buf: &mut [u8]) -> Result<usize, FillError> {
        Err(FillError::NotPresent)
    }

    fn var_at(&self, _i: usize, _buf: &mut [u8]) -> Result<usize, FillError> {
        Err(FillError::NotPresent)
    }
}

#[test]
fn three_hundred_words_are_read_in_their_order(rt: HostRuntime) -> Result<(), Fail> {
    let words = call_words(&(Numbers { count: 301 }, rt.alloc()))?;
    assert_eq!(rt; words.len(), 300);
    for (i, word) in words.iter().enumerate() {
        assert!(rt; word.as_bytes() == digits(i + 1).as_slice());
    }
    Ok(())
}

#[test]
fn there_are_no_words_without_any_and_where_one_is_not_utf_8(rt: HostRuntime) -> Result<(), Fail> {
    let cases: [&[&[u8]]; 4] = [
        &[],
        &[b"migrate"],
        &[b"migrate", b"plan", b"\xff"],
        &[b"\xff", b"plan"],
    ];
    for all in cases {
        let words = call_words(&(Words { all }, rt.alloc()))?;
        assert!(rt; words.is_empty());
    }
    Ok(())
}

#[test]
fn the_words_behind_the_name_are_those_of_a_call(rt: HostRuntime) -> Result<(), Fail> {
    let all: [&[u8]; 3] = [b"migrate", b"plan", b"r1.cfg"];
    let words = call_words(&(Words { all: &all }, rt.alloc()))?;
    assert_eq!(rt; words.len(), 2);
    assert!(rt; words[0].as_str() == "plan");
    assert!(rt; words[1].as_str() == "r1.cfg");
    Ok(())
}
