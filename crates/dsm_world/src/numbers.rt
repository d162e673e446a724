//! Numbers from 1 on.

ghost use Rattle.std.specs.Prelude.{◌≡◌, ◌⊎◌, ◌+◌, ◌<◌, IfSome, None};

/// The place of a number, from 1 on, among `count` places.
pub fn index_of(number: u32, count: usize) -> Option<usize>
    ensures there { IfSome result (λ k. (number ≡ k + 1) × (k < count)) }
    ensures none { result ≡ None → (number ≡ 0) ⊎ (count < number) }
{
    let index = number.checked_sub(1)? as usize;
    if index < count { Some(index) } else { None }
}
