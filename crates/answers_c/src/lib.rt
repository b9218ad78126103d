// The word that each answer is for C, from which a caller reads the number and the values back. A word has a number, so it is made of an
// answer with the number in the refusal's place, and each number of 8 bits has its word.
#![tactic(auto)]

ghost use Rattle.std.specs.Prelude.{◌≡◌};
ghost use Rattle.answers.specs.Answers.{number_in, numbered};
ghost use Rattle.answers_c.specs.Words.{counted_word, granted_word};

use answers::{Granted, Refusal};

// The answer with the refusal's number in its place.
pub fn numbered<T>(r: Result<T, Refusal>) -> Result<T, u8>
    ensures { result ≡ numbered r }
{
    r.map_err(u8::from)
}

pub fn answer_word(a: Result<(), u8>) -> u64
    ensures { result ≡ number_in a }
{
    match a {
        Ok(()) => 0,
        Err(n) => u64::from(n),
    }
}

pub fn counted_word(c: Result<u16, u8>) -> u64
    ensures { result ≡ counted_word c }
{
    match c {
        Ok(n) => u64::from(n) * 256,
        Err(n) => u64::from(n),
    }
}

pub fn granted_word(g: Result<Granted, u8>) -> u64
    ensures { result ≡ granted_word g }
{
    match g {
        Ok(light) => u64::from(light.len) * 256 + u64::from(light.arrival) * 4294967296,
        Err(n) => u64::from(n),
    }
}
