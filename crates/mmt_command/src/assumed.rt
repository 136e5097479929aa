//! A window and a delay in the words of the command line, with a colon between them.
ghost use Rattle.std.specs.Prelude.{◌≡◌, ◌≢◌, ℕ, ◌+◌, ◌<◌, List, ◌∷◌, drop, IfSome, IfNone};
ghost use Rattle.mmt_command.specs.Words.{texts};
ghost use Rattle.mmt_command.specs.TakeWords.{assumed_text, HasAssumedRange};

use crate::numbers::number_in;

/// The window and the delay that a text is, in ticks: a delay from 1, and a window above it and up to 16,777,216.
pub fn assumed_of(word: &str) -> Option<(u32, u32)>
    ensures some { IfSome result (λ p. word.now ≡ assumed_text p.0 p.1) }
    ensures range { IfSome result (λ p. HasAssumedRange p.0 p.1) }
    ensures none { IfNone result ((w d : ℕ) → HasAssumedRange w d → word.now ≢ assumed_text w d) }
{
    let (front, back) = match word.split_once(':') {
        Some(parts) => parts,
        None => return None,
    };
    let delay = match number_in(back, 1, (1 << 24) - 1) {
        Some(delay) => delay,
        None => return None,
    };
    let window = match number_in(front, delay + 1, 1 << 24) {
        Some(window) => window,
        None => return None,
    };
    Some((window, delay))
}

/// The window and the delay that the word at a place is.
pub fn assumed_at(words: &[String], at: usize) -> Option<(u32, u32)>
    requires { at < 100 }
    ensures word { IfSome result (λ p. drop at (texts words.now) ≡ assumed_text p.0 p.1 ∷ drop (at + 1) (texts words.now)) }
    ensures range { IfSome result (λ p. HasAssumedRange p.0 p.1) }
    ensures none { IfNone result ((w d : ℕ) (more : List (List ℕ)) → HasAssumedRange w d → drop at (texts words.now) ≢ assumed_text w d ∷ more) }
{
    match words.get(at) {
        Some(word) => assumed_of(word.as_str()),
        None => None,
    }
}
