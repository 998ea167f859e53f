// Vectors of equal elements.
ghost use Rattle.std.specs.Prelude.{◌≡◌, replicate, IfOk, vec_len};

use std::alloc::{AllocError, Global};

// n times x, in room for just n. (`vec![x; n]` promises clones of x, which at a type parameter need not be equal to it, and
// `resize` alone makes room for four or eight at the least.)
pub fn filled<T: Copy>(heap: Global, x: T, n: usize) -> Result<Vec<T>, AllocError>
    ensures holds_n_times_x { IfOk result (λ v. v.items ≡ replicate n x) }
    ensures has_n_elements { IfOk result (λ v. vec_len v ≡ n) }
{
    let mut all = Vec::with_capacity(heap, n)?;
    all.resize(n, x)?;
    Ok(all)
}
