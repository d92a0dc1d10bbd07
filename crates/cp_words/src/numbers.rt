//! Numbers as a command line spells them.
ghost use Rattle.std.specs.Prelude.{◌≡◌, ◌≢◌, ◌≤◌, ◌↔◌, ℕ, decimal, IsTrue, MatchOption};

use itoa::Buffer;

// Whether the text spells this number, and it is from `least` to `most`.
fn is_spelled(text: &str, n: u64, least: u64, most: u64) -> bool
    ensures { IsTrue result ↔ ((text.now ≡ decimal n) × (least ≤ n) × (n ≤ most)) }
{
    let mut buffer = Buffer::new();
    buffer.format(n) == text && least <= n && n <= most
}

/// The number that the text spells in decimal digits, without a sign and without leading zeros,
/// from `least` to `most`; none exactly where it spells no such number. It takes no memory.
#[tactic(auto, using(crate::proofs::Parsing::numbers))]
pub fn number(text: &str, least: u64, most: u64) -> Option<u64>
    ensures { MatchOption result ((n : ℕ) → least ≤ n → n ≤ most → text.now ≢ decimal n)
        (λ n. (text.now ≡ decimal n) × (least ≤ n) × (n ≤ most)) }
{
    match text.parse::<u64>() {
        Ok(n) => {
            if is_spelled(text, n, least, most) {
                Some(n)
            } else {
                None
            }
        }
        Err(_) => None,
    }
}
