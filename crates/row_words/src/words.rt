// The words of a line, one after another.
use std::alloc::{AllocError, Global};
use wasm_ast::ValType;

/// Words, and how many of them are read.
#[derive(Drop)]
pub struct Words<'a> {
    words: Vec<&'a str>,
    at: usize,
}

/// The words of the text.
pub fn words_of<'a>(alloc: Global, text: &'a str) -> Result<Words<'a>, AllocError> {
    let mut words = Vec::new(alloc);
    for word in text.split_whitespace() {
        words.push(word)?;
    }
    Ok(Words { words, at: 0 })
}

impl<'a> Words<'a> {
    /// The next word, which stays unread.
    pub fn peek(&self) -> Option<&'a str> {
        self.words.get(self.at).copied()
    }

    /// The next word.
    pub fn next(&mut self) -> Option<&'a str> {
        let word = self.peek()?;
        self.at = self.at.saturating_add(1);
        Some(word)
    }

    /// The next word, if it is this one.
    pub fn next_is(&mut self, wanted: &str) -> bool {
        match self.peek() {
            None => false,
            Some(word) => {
                let is = word == wanted;
                if is {
                    self.at = self.at.saturating_add(1);
                }
                is
            }
        }
    }

    /// The next word, if it is a number.
    pub fn number(&mut self) -> Option<u64> {
        let number = self.peek()?.parse::<u64>().ok()?;
        self.at = self.at.saturating_add(1);
        Some(number)
    }

    /// The next word, if it is a number below 2^32.
    pub fn index(&mut self) -> Option<u32> {
        let number = self.peek()?.parse::<u32>().ok()?;
        self.at = self.at.saturating_add(1);
        Some(number)
    }

    /// The next word, if it is a number with a sign or without one.
    pub fn signed(&mut self) -> Option<i64> {
        let number = self.peek()?.parse::<i64>().ok()?;
        self.at = self.at.saturating_add(1);
        Some(number)
    }

    /// The next word, if it is an opcode: `0x` and its hexadecimal digits.
    pub fn opcode(&mut self) -> Option<u8> {
        let digits = self.peek()?.strip_prefix("0x")?;
        let op = u8::from_str_radix(digits, 16).ok()?;
        self.at = self.at.saturating_add(1);
        Some(op)
    }

    /// The next word, if it is a value type.
    pub fn kind(&mut self) -> Option<ValType> {
        let kind = kind_of(self.peek()?)?;
        self.at = self.at.saturating_add(1);
        Some(kind)
    }
}

fn kind_of(word: &str) -> Option<ValType> {
    match word {
        "i32" => Some(ValType::I32),
        "i64" => Some(ValType::I64),
        "funcref" => Some(ValType::FuncRef),
        "externref" => Some(ValType::ExternRef),
        _ => None,
    }
}

/// All numbers that follow.
pub fn numbers(alloc: Global, words: &mut Words) -> Result<Vec<u64>, AllocError> {
    let mut numbers = Vec::new(alloc);
    for _ in 0..1_000_000 {
        let Some(number) = words.number() else {
            break;
        };
        numbers.push(number)?;
    }
    Ok(numbers)
}
