//! Laws of numbers and pieces as bytes, whatever follows them. These functions do nothing: their clauses are the laws.
ghost use Rattle.std.specs.Prelude.{◌≡◌, ◌<◌, ◌^◌, ◌++◌, ℕ, List, length};
ghost use Rattle.mld_bytes.specs.Bytes.{u32_bytes, u64_bytes, number_bytes, piece_bytes};

/// The bytes of a number determine it, and where they end.
pub fn one_number()
    ensures four { (m n : ℕ) (rest other : List ℕ) → m < 2 ^ 32 → n < 2 ^ 32
        → u32_bytes m ++ rest ≡ u32_bytes n ++ other → (m ≡ n) × (rest ≡ other) }
    ensures eight { (m n : ℕ) (rest other : List ℕ) → m < 2 ^ 64 → n < 2 ^ 64
        → u64_bytes m ++ rest ≡ u64_bytes n ++ other → (m ≡ n) × (rest ≡ other) }
    ensures sized { (size m n : ℕ) (rest other : List ℕ) → m < 256 ^ size → n < 256 ^ size
        → number_bytes size m ++ rest ≡ number_bytes size n ++ other → (m ≡ n) × (rest ≡ other) }
{}

/// The bytes of a piece determine it, and where they end.
pub fn one_piece()
    ensures { (piece second rest other : List ℕ) → length piece < 2 ^ 32 → length second < 2 ^ 32
        → piece_bytes piece ++ rest ≡ piece_bytes second ++ other → (piece ≡ second) × (rest ≡ other) }
{}
