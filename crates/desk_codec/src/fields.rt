//! The fields of an operation as its bytes have them.

ghost use Rattle.std.specs.Prelude.{◌≡◌, ◌+◌, ◌≤◌, ◌<◌, ◌^◌, ◌∷◌, ◌++◌, length, MatchOption, IfOk, IfErr, Err, Some};
ghost use Rattle.std.specs.Prelude.{None};
ghost use Rattle.std.specs.Int.{w32, to_be_bytes};
ghost use Rattle.desk_codec.specs.Spelling.{stamp_spelling, IsStampValue, IsHeld};
ghost use Rattle.desk_codec.specs.Fault.{fields_of, bytes_of, AreValues, style_of, key_of, symbol_in, setting_cause};
ghost use Rattle.desk_codec.specs.Fault.{cause};
ghost use Rattle.desk_codec.specs.Form.{kind_byte, kind_size};

use crate::form::Kind;
use desk_ops::{Key, Op, Stamp, Style, Symbol, Unlawful};

/// The fields of an operation as its bytes have them, lawful or not: a style and a character, or a key, by their
/// numbers.
#[derive(Clone, Copy)]
pub enum Fields {
    Insert {
        stamp: Stamp,
        parent: Stamp,
        style: u8,
        ch: u32,
    },
    Delete {
        stamp: Stamp,
        target: Stamp,
    },
    Set {
        stamp: Stamp,
        key: u8,
        value: u32,
    },
}

fn style_of(number: u8) -> Option<Style>
    ensures { result ≡ style_of number }
{
    match number {
        0 => Some(Style::Roman),
        1 => Some(Style::Italic),
        2 => Some(Style::SmallCap),
        _ => None,
    }
}

fn key_of(number: u8) -> Option<Key>
    ensures { result ≡ key_of number }
{
    match number {
        1 => Some(Key::Measure),
        2 => Some(Key::Tight),
        3 => Some(Key::Loose),
        4 => Some(Key::Case),
        5 => Some(Key::Wedge),
        _ => None,
    }
}

/// The character 0, which no copy has.
const NO_SYMBOL: Symbol = Symbol {
    style: Style::Roman,
    ch: '\0',
};

/// The symbol of these numbers; one that no copy has where they are no symbol's.
fn symbol_of(style: u8, number: u32) -> Symbol
    ensures { result ≡ symbol_in (style_of style) number }
{
    match (style_of(style), char::from_u32(number)) {
        (Some(style), Some(ch)) => Symbol { style, ch },
        _ => NO_SYMBOL,
    }
}

/// Why a setting of no key is not lawful: a cause in the stamp comes first.
fn cause_of_no_key(stamp: Stamp) -> Unlawful
    ensures { setting_cause stamp None 0 ≡ Err result }
{
    let lawful = Op::Set {
        stamp,
        key: Key::Measure,
        value: 12,
    };
    match lawful.check() {
        Ok(()) => Unlawful::Key,
        Err(cause) => cause,
    }
}

impl Fields {
    /// The lawful operation of these fields, or the first cause why there is none.
    pub fn op(self) -> Result<Op, Unlawful>
        ensures ok { IfOk result (λ op. IsHeld op × (fields_of op ≡ self)) }
        ensures err { IfErr result (λ first. cause self ≡ Err first) }
    {
        let op = match self {
            Fields::Insert {
                stamp,
                parent,
                style,
                ch,
            } => Op::Insert {
                stamp,
                parent,
                symbol: symbol_of(style, ch),
            },
            Fields::Delete { stamp, target } => Op::Delete { stamp, target },
            Fields::Set { stamp, key, value } => match key_of(key) {
                Some(key) => Op::Set { stamp, key, value },
                None => return Err(cause_of_no_key(stamp)),
            },
        };
        op.check()?;
        Ok(op)
    }

    /// The fields of an operation of the kind from what follows its kind, and the bytes after them.
    pub fn take(kind: Kind, bytes: &[u8]) -> (Fields, &[u8])
        requires { kind_size kind ≤ length bytes.now + 1 }
        ensures bytes { kind_byte kind ∷ bytes.now ≡ bytes_of result.0 ++ result.1.now }
        ensures values { AreValues result.0 }
    {
        let (stamp, rest) = take_stamp(bytes);
        match kind {
            Kind::Insert => {
                let (parent, rest) = take_stamp(rest);
                let (style, rest) = take_byte(rest);
                let (ch, rest) = take_u32(rest);
                (
                    Fields::Insert {
                        stamp,
                        parent,
                        style,
                        ch,
                    },
                    rest,
                )
            }
            Kind::Delete => {
                let (target, rest) = take_stamp(rest);
                (Fields::Delete { stamp, target }, rest)
            }
            Kind::Set => {
                let (key, rest) = take_byte(rest);
                let (value, rest) = take_u32(rest);
                (Fields::Set { stamp, key, value }, rest)
            }
        }
    }
}

/// The first byte and what follows it.
pub fn take_byte(bytes: &[u8]) -> (u8, &[u8])
    requires { 1 ≤ length bytes.now }
    ensures bytes { bytes.now ≡ result.0 ∷ result.1.now }
    ensures value { result.0 < 2 ^ 8 }
{
    (bytes[0], &bytes[1..])
}

pub fn take_u32(bytes: &[u8]) -> (u32, &[u8])
    requires { 4 ≤ length bytes.now }
    ensures bytes { bytes.now ≡ to_be_bytes w32 result.0 ++ result.1.now }
    ensures value { result.0 < 2 ^ 32 }
{
    let (prefix, rest) = bytes.split_first_chunk::<4>().unwrap();
    (u32::from_be_bytes(*prefix), rest)
}

pub fn take_stamp(bytes: &[u8]) -> (Stamp, &[u8])
    requires { 10 ≤ length bytes.now }
    ensures bytes { bytes.now ≡ stamp_spelling result.0 ++ result.1.now }
    ensures value { IsStampValue result.0 }
{
    let (counter, rest) = bytes.split_first_chunk::<8>().unwrap();
    let (site, rest) = rest.split_first_chunk::<2>().unwrap();
    (
        Stamp {
            counter: u64::from_be_bytes(*counter),
            site: u16::from_be_bytes(*site),
        },
        rest,
    )
}
