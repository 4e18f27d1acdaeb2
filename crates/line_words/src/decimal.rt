//! Numbers as words of the command line spell them.
ghost use Rattle.std.specs.Prelude.{◌≡◌, ◌≢◌, ◌≤◌, ℕ, IfSome, None, decimal};

use itoa::Buffer;

/// The number that a word spells: decimal, at most `greatest`, with no sign and no leading zero.
pub fn decimal_number(word: &str, greatest: u64) -> Option<u64>
    ensures spelled { IfSome result (λ number. (number ≤ greatest) × (word.now ≡ decimal number)) }
    ensures none { result ≡ None → (number : ℕ) → number ≤ greatest → word.now ≢ decimal number }
{
    let number: u64 = word.parse().ok()?;
    if number <= greatest && Buffer::new().format(number) == word {
        Some(number)
    } else {
        None
    }
}
