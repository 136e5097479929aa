//! The words of the command line by their places: texts, and numbers in decimal digits.
ghost use Rattle.std.specs.Prelude.{◌≡◌, ◌≢◌, ℕ, ◌+◌, ◌<◌, ◌≤◌, List, ◌∷◌, drop, decimal, IsTrue, IsFalse, IfOk, IfErr, IfSome, IfNone, string_bytes};
ghost use Rattle.mmt_command.specs.Words.{texts};
ghost use Rattle.mmt_command.specs.Numbers.{NoOption};

use itoa::Buffer;

/// Whether a text is this one.
pub fn text_is(text: &str, other: &str) -> bool
    ensures yes { IsTrue result → text.now ≡ other.now }
    ensures no { IsFalse result → text.now ≢ other.now }
{
    text == other
}

/// Whether a word has this text.
pub fn word_is(word: &String, text: &str) -> bool
    ensures yes { IsTrue result → string_bytes word.now ≡ text.now }
    ensures no { IsFalse result → string_bytes word.now ≢ text.now }
{
    text_is(word.as_str(), text)
}

/// The number from `low` to `high` that a text is: decimal digits with no sign, and with no zero
/// before another digit.
pub fn number_in(text: &str, low: u32, high: u32) -> Option<u32>
    ensures word { IfSome result (λ n. text.now ≡ decimal n) }
    ensures range { IfSome result (λ n. (low ≤ n) × (n ≤ high)) }
    ensures none { IfNone result ((n : ℕ) → low ≤ n → n ≤ high → text.now ≢ decimal n) }
{
    let number = match text.parse::<u32>() {
        Ok(number) => number,
        Err(_) => return None,
    };
    if number < low || number > high {
        return None;
    }
    let mut digits = Buffer::new();
    if text_is(text, digits.format(number)) {
        Some(number)
    } else {
        None
    }
}

/// The same of a word.
pub fn number_of(word: &String, low: u32, high: u32) -> Option<u32>
    ensures word { IfSome result (λ n. string_bytes word.now ≡ decimal n) }
    ensures range { IfSome result (λ n. (low ≤ n) × (n ≤ high)) }
    ensures none { IfNone result ((n : ℕ) → low ≤ n → n ≤ high → string_bytes word.now ≢ decimal n) }
{
    number_in(word.as_str(), low, high)
}

/// Whether the word at a place has this text.
pub fn is_at(words: &[String], at: usize, text: &str) -> bool
    requires { at < 100 }
    ensures yes { IsTrue result → drop at (texts words.now) ≡ text.now ∷ drop (at + 1) (texts words.now) }
    ensures no { IsFalse result → (more : List (List ℕ)) → drop at (texts words.now) ≢ text.now ∷ more }
{
    match words.get(at) {
        Some(word) => word_is(word, text),
        None => false,
    }
}

/// The number from `low` to `high` that the word at a place is.
pub fn number_at(words: &[String], at: usize, low: u32, high: u32) -> Option<u32>
    requires { at < 100 }
    ensures word { IfSome result (λ n. drop at (texts words.now) ≡ decimal n ∷ drop (at + 1) (texts words.now)) }
    ensures range { IfSome result (λ n. (low ≤ n) × (n ≤ high)) }
    ensures none { IfNone result ((n : ℕ) (more : List (List ℕ)) → low ≤ n → n ≤ high → drop at (texts words.now) ≢ decimal n ∷ more) }
{
    match words.get(at) {
        Some(word) => number_of(word, low, high),
        None => None,
    }
}

/// The number of the option whose name should be at a place, or the place of the first word that is wrong there.
pub fn option_at(words: &[String], at: usize, name: &str, low: u32, high: u32) -> Result<u32, u32>
    requires { at < 50 }
    ensures words { IfOk result (λ n. drop at (texts words.now) ≡ name.now ∷ decimal n ∷ drop (at + 2) (texts words.now)) }
    ensures range { IfOk result (λ n. (low ≤ n) × (n ≤ high)) }
    ensures wrong { IfErr result (λ index. NoOption name.now low high at (drop at (texts words.now)) index) }
{
    if !is_at(words, at, name) {
        return Err(at as u32);
    }
    match number_at(words, at + 1, low, high) {
        Some(number) => Ok(number),
        None => Err(at as u32 + 1),
    }
}
