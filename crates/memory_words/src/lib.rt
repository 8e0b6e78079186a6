//! A memory as a list of bytes, and the numbers in it, the least byte first (WebAssembly Core Specification 1.0, section 4.2.8).
//! Its definitions are `read`, `write`, `put`, `zeros` and `word`, which are opaque.
//! Its laws: a write keeps the length, what was written is read, and bytes apart from it stay.
#![tactic(auto)]

ghost use Rattle.std.specs.Prelude.{◌≡◌, ◌≢◌, ◌⊎◌, ◌+◌, ◌*◌, ◌%◌, ◌^◌, ◌<◌, ◌≤◌, ℕ, List, length, take, drop};
ghost use Rattle.memory_words.specs.Memories.{zeros, put, read, write, word};

/// A law: so many zero bytes are as many, and bytes that are put, or a number that is written, within a memory leave it as
/// long as it was.
pub fn length_stays()
    ensures zeros { (n : ℕ) → length (zeros n) ≡ n }
    ensures put { (memory : List ℕ) (address : ℕ) (bytes : List ℕ) → address + length bytes ≤ length memory → length (put memory address bytes) ≡ length memory }
    ensures written { (n : ℕ) (memory : List ℕ) (address v : ℕ) → address + n ≤ length memory → length (write n memory address v) ≡ length memory }
{}

/// A law: the bytes that were put are there, and of a number that was written its low bytes are read.
pub fn written_is_read()
    ensures put { (memory : List ℕ) (address : ℕ) (bytes : List ℕ) → address ≤ length memory
        → take (length bytes) (drop address (put memory address bytes)) ≡ bytes }
    ensures number { (n : ℕ) (memory : List ℕ) (address v : ℕ) → address + n ≤ length memory → read n (write n memory address v) address ≡ v % 2 ^ (8 * n) }
    ensures word { (memory : List ℕ) (i v : ℕ) → 8 * i + 8 ≤ length memory → v < 2 ^ 64 → word (write 8 memory (8 * i) v) i ≡ v }
{}

/// A law: what lies apart from the bytes written is read as before.
pub fn others_stay()
    ensures number { (n : ℕ) (memory : List ℕ) (address v k other : ℕ) → address + n ≤ length memory → (other + k ≤ address) ⊎ (address + n ≤ other)
        → read k (write n memory address v) other ≡ read k memory other }
    ensures word { (memory : List ℕ) (i j v : ℕ) → 8 * i + 8 ≤ length memory → j ≢ i → word (write 8 memory (8 * i) v) j ≡ word memory j }
{}
