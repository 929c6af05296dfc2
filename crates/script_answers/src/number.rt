//! How a decimal number and the bytes of a hexadecimal word are read.

ghost use Rattle.std.specs.Prelude.{◌≡◌, ◌≤◌, ◌<◌, ◌≢◌, length, IfOk};
ghost use Rattle.script_answers.specs.Reading.{Gives, number_of, value_from, nibble, pairs};
ghost use Rattle.script_answers.specs.Memory.{MayHoldByte};

use crate::command::ParseError;
use std::alloc::Allocator;

/// A number of 1 to 10 digits.
#[tactic(auto, unfolding(crate::specs::Reading::number_of))]
pub fn number_of(word: &[u8]) -> Result<u32, ParseError>
    ensures value { Gives (λ n. n) result (number_of word.now) }
    ensures memory { result ≢ Err ParseError.NoMemory }
{
    if word.is_empty() || word.len() > 10 {
        return Err(ParseError::Form);
    }
    let n = value_of(word)?;
    if n > 4_294_967_295 {
        return Err(ParseError::Form);
    }
    Ok(n as u32)
}

fn value_of(word: &[u8]) -> Result<u64, ParseError>
    requires { length word.now ≤ 10 }
    ensures value { Gives (λ n. n) result (value_from 0 word.now) }
    ensures memory { result ≢ Err ParseError.NoMemory }
{
    let mut n: u64 = 0;
    for &b in word {
        if b < b'0' || b > b'9' {
            return Err(ParseError::Form);
        }
        n = n * 10 + (b - b'0') as u64;
    }
    Ok(n)
}

/// A hexadecimal digit.
#[tactic(auto, unfolding(crate::specs::Reading::nibble))]
fn nibble(b: u8) -> Result<u8, ParseError>
    ensures value { Gives (λ n. n) result (nibble b) }
    ensures small { IfOk result (λ n. n < 16) }
    ensures memory { result ≢ Err ParseError.NoMemory }
{
    match b {
        b'0'..=b'9' => Ok(b - b'0'),
        b'a'..=b'f' => Ok(b - b'a' + 10),
        b'A'..=b'F' => Ok(b - b'A' + 10),
        _ => Err(ParseError::Form),
    }
}

/// The bytes that pairs of hexadecimal digits spell.
pub fn bytes_of<A: Allocator + Copy>(alloc: A, word: &[u8]) -> Result<Vec<u8, A>, ParseError>
    ensures value { Gives (λ v. v.items) result (pairs word.now) }
    ensures memory { result ≡ Err ParseError.NoMemory → MayHoldByte word.now }
{
    let mut out = Vec::with_capacity(alloc, word.len() / 2)?;
    let mut left = word;
    'pairs: while let [a, b, rest @ ..] = left {
        let high = nibble(*a)?;
        let low = nibble(*b)?;
        out.push(high * 16 + low)?;
        left = rest;
    }
    if left.is_empty() {
        Ok(out)
    } else {
        Err(ParseError::Form)
    }
}
