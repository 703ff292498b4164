// Numbers within bounds.
ghost use Rattle.std.specs.Prelude.{◌≡◌, ◌++◌, ◌∷◌, [], ◌+ℤ◌, ◌≤ℤ◌, neg_ℤ, List, ℕ, ℤ, pos, MatchOption, MatchResult};
ghost use Rattle.tilt_base.specs.declared.limits.TheConstants.{T};
ghost use Rattle.tilt_cli.specs.Number.{AreRising, AreUpTo, IsNumber};

use crate::fault::WordsFault;
use std::alloc::Global;
use tilt_base::{T, read_number};

// The number that the word spells, if it is between `least` and `greatest`, both included.
pub(crate) fn read_within(word: &str, least: i64, greatest: i64) -> Option<i64>
    ensures { MatchOption result
        ((z : ℤ) → ¬ (IsNumber least greatest word.now z))
        (λ z. IsNumber least greatest word.now z) }
{
    let number = read_number(word.as_bytes())?;
    if number < least || greatest < number {
        return None;
    }
    Some(number)
}

// The 32-bit number that the word spells, if it isn't above `greatest`.
pub(crate) fn read_up_to(word: &str, greatest: u32) -> Option<u32>
    ensures { MatchOption result
        ((z : ℤ) → ¬ (IsNumber (pos 0) (pos greatest) word.now z))
        (λ n. IsNumber (pos 0) (pos greatest) word.now (pos n)) }
{
    let number = read_within(word, 0, i64::from(greatest))?;
    u32::try_from(number).ok()
}

// The number of ticks that the word spells, if it isn't below 0 or above the largest distance of two times.
pub(crate) fn read_ticks(word: &str) -> Option<u64>
    ensures { MatchOption result
        ((z : ℤ) → ¬ (IsNumber (pos 0) (T +ℤ T) word.now z))
        (λ n. IsNumber (pos 0) (T +ℤ T) word.now (pos n)) }
{
    let number = read_within(word, 0, 2 * T)?;
    u64::try_from(number).ok()
}

// The times that the word spells, one or more with commas between them, each at least `apart` ticks after the one before it.
pub(crate) fn read_rising(alloc: Global, word: &str, apart: i64) -> Result<Vec<i64>, WordsFault>
    requires { (pos 0 ≤ℤ apart) × (apart ≤ℤ pos 1) }
    ensures { MatchResult result
        (λ times. AreRising apart (neg_ℤ T) T word.now times.items)
        (λ fault. fault ≡ WordsFault.Usage → (times : List ℤ) → ¬ (AreRising apart (neg_ℤ T) T word.now times)) }
{
    let mut times = Vec::new(alloc);
    let mut least = -T;
    let mut rest = word;
    while let Some((piece, behind)) = rest.split_once(',') {
        least = push_time(&mut times, piece, least, apart)?;
        rest = behind;
    }
    push_time(&mut times, rest, least, apart)?;
    Ok(times)
}

// Adds the time that the word spells, if it isn't below `least`, and returns the smallest time that can follow it.
fn push_time(times: &mut Vec<i64>, word: &str, least: i64, apart: i64) -> Result<i64, WordsFault>
    requires { (pos 0 ≤ℤ apart) × (apart ≤ℤ pos 1) }
    ensures { MatchResult result
        (λ next. (time : ℤ) × IsNumber least T word.now time × (times.new.items ≡ times.old.items ++ time ∷ [])
        × (next ≡ time +ℤ apart))
        (λ fault. fault ≡ WordsFault.Usage → (time : ℤ) → ¬ (IsNumber least T word.now time)) }
{
    let time = read_within(word, least, T).ok_or(WordsFault::Usage)?;
    times.push(time)?;
    Ok(time + apart)
}

// The numbers of 32 bits that the word spells, one or more with commas between them.
pub(crate) fn read_numbers(alloc: Global, word: &str) -> Result<Vec<u32>, WordsFault>
    ensures { MatchResult result
        (λ numbers. AreUpTo 4294967295 word.now numbers.items)
        (λ fault. fault ≡ WordsFault.Usage → (numbers : List ℕ) → ¬ (AreUpTo 4294967295 word.now numbers)) }
{
    let mut numbers = Vec::new(alloc);
    let mut rest = word;
    while let Some((piece, behind)) = rest.split_once(',') {
        push_number(&mut numbers, piece)?;
        rest = behind;
    }
    push_number(&mut numbers, rest)?;
    Ok(numbers)
}

// Adds the number that the word spells.
fn push_number(numbers: &mut Vec<u32>, word: &str) -> Result<(), WordsFault>
    ensures { MatchResult result
        (λ _. (number : ℕ) × IsNumber (pos 0) (pos 4294967295) word.now (pos number)
        × (numbers.new.items ≡ numbers.old.items ++ number ∷ []))
        (λ fault. fault ≡ WordsFault.Usage → (number : ℕ) → ¬ (IsNumber (pos 0) (pos 4294967295) word.now (pos number))) }
{
    let number = read_up_to(word, u32::MAX).ok_or(WordsFault::Usage)?;
    numbers.push(number)?;
    Ok(())
}
