//! Words that the contracts of several crates cite: counts that never fall (`specs/Counts.antt`), want of memory
//! (`specs/Memory.antt`) and lists of bytes (`specs/Bytes.antt`).
#![tactic(auto)]

ghost use Rattle.std.specs.Prelude.{ℕ, ◌<◌, ◌≤◌};
ghost use Rattle.sw_words.specs.Counts.{Rose, last_count, one_more};

/// Once a count has risen it is as good as risen from each earlier value; one more is risen.
pub fn rose_law()
    ensures earlier { (first before after : ℕ) → first ≤ before → Rose before after → Rose first after }
    ensures later { (before after last : ℕ) → after ≤ last → Rose before after → Rose before last }
    ensures counted { (before : ℕ) → before ≤ last_count → Rose before (one_more before) }
{}
