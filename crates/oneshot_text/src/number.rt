//! Parses a number.

ghost use Rattle.std.specs.Prelude.{◌≡◌, ℕ, ◌^◌, ◌<◌, IfSome, Some, decimal};

/// The number below 2^64 that a word writes in decimal, without sign or leading zeros.
#[tactic(auto, using(crate::proofs::Decimal::one_text))]
pub(crate) fn parse_number(word: &str) -> Option<u64>
    ensures written { IfSome result (λ n. word.now ≡ decimal n) }
    ensures each { (n : ℕ) → n < 2 ^ 64 → word.now ≡ decimal n → result ≡ Some n }
{
    match word.as_bytes() {
        [b'0', _, ..] | [b'+', ..] => None,
        _ => word.parse().ok(),
    }
}
