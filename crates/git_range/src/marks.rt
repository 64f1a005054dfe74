ghost use Rattle.std.specs.Prelude.{◌≡◌, ◌<◌, ◌||◌, ◌==◌, ℕ, length, All, slice_index_or, false};
ghost use Rattle.std.specs.List.{list_any};

/// Marks the rows with these numbers, beside those that are marked.
pub(crate) fn mark_all(numbers: &[u32], marks: &mut [bool])
    requires { All (λ n. n < length marks.old) numbers.now }
    ensures { (n : ℕ) → slice_index_or marks.new n false ≡ (slice_index_or marks.old n false || list_any (λ p. p == n) numbers.now) }
{
    for number in numbers {
        marks[*number as usize] = true;
    }
}
