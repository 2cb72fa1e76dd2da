// Groups of numbers in a slice, one behind the other.
ghost use Rattle.std.specs.Prelude.{◌≡◌};
ghost use Rattle.rows.specs.Rows.{with_group};

// Puts N numbers at the place of group k. A slice that has no room there stays as it is.
#[tactic(auto, unfolding(crate::specs::Rows::with_group))]
pub fn put_group<const N: usize>(numbers: &mut [u32], k: usize, group: [u32; N])
    ensures { numbers.new ≡ with_group N k group.entry numbers.old }
{
    let at = k.saturating_mul(N);
    if at <= numbers.len() && N <= numbers.len() - at {
        numbers[at..at + N].copy_from_slice(&group);
    }
}
