//! Laws of the code, each the contract of a function without arguments.

ghost use Rattle.std.specs.Prelude.{◌≡◌, ◌≢◌, ℕ, ◌*◌, ◌<◌, ◌≤◌, List, length};
ghost use Rattle.std.specs.List.{All, AllPairs};
ghost use Rattle.sw_words.specs.Bytes.{IsBytes};
ghost use Rattle.sw_cauchy.specs.Linear.{AreIndependent, IsInverse};
ghost use Rattle.sw_cauchy.specs.Rows.{generator_rows};
ghost use Rattle.sw_cauchy.specs.Share.{AreFragments, AreShares, Share};

/// Any k rows of the generator matrix, no two of them the same row, are independent, and so have an inverse, on both sides.
pub fn any_rows_law()
    ensures independent { (k : ℕ) (indices : List ℕ) → k ≤ 256 → length indices ≡ k →
        All (λ i. i < 256) indices → AllPairs (λ i j. i ≢ j) indices →
        AreIndependent k (generator_rows k indices) }
    ensures invertible { (k : ℕ) (indices : List ℕ) → k ≤ 256 → length indices ≡ k →
        All (λ i. i < 256) indices → AllPairs (λ i j. i ≢ j) indices →
        (inverse : List ℕ) × IsBytes inverse × (length inverse ≡ k * k) ×
        IsInverse k inverse (generator_rows k indices) × IsInverse k (generator_rows k indices) inverse }
{}

/// Any k shares of one width and of different indices are fragments of some pieces, and of no others.
pub fn any_shares_law()
    ensures some { (k width : ℕ) (shares : List Share) → AreShares k width shares →
        (pieces : List ℕ) × IsBytes pieces × (length pieces ≡ k * width) × AreFragments k width pieces shares }
    ensures one { (k width : ℕ) (shares : List Share) → AreShares k width shares → (a b : List ℕ) → IsBytes a → IsBytes b →
        length a ≡ k * width → length b ≡ k * width → AreFragments k width a shares → AreFragments k width b shares → a ≡ b }
{}
