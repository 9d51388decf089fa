// Columns: a value for each number; and the numbers in groups by their keys.
ghost use Rattle.std.specs.Prelude.{◌≡◌, ℕ, ◌<◌, ◌≤◌, vec_len, vec_capacity, nat_eq, slice_index_or};
ghost use Rattle.groups.specs.Lookup.{group, room_for_keys, room_for_numbers, HasRoom};
ghost use Rattle.groups.specs.Numbers.{those};

use groups::Groups;

/// The values of the numbers below the count.
pub(crate) fn fill_column<V: Copy, F: Fn(usize) -> V>(values: &mut Vec<V>, count: usize, value: F)
    requires callable { F.IsAlwaysCallable value }
    requires room { count ≤ vec_capacity values.old }
    ensures counted { vec_len values.new ≡ count }
    ensures told { (n : ℕ) (d : V) → n < count → F.post value n (slice_index_or values.new.items n d) }
    ensures room { vec_capacity values.new ≡ vec_capacity values.old }
{
    values.clear();
    // Not `extend`: it does not promise to succeed where there is room.
    for number in 0..count {
        values.push_reserved(value(number));
    }
}

/// The numbers below the count in groups by their keys; for the keys below the size.
pub(crate) fn fill_groups<F: Fn(usize) -> u16>(
    groups: &mut Groups,
    keys: &mut Vec<u16>,
    count: usize,
    size: usize,
    key: F,
)
    requires callable { F.IsAlwaysCallable key }
    requires room { (count ≤ vec_capacity keys.old) × (HasRoom groups.old size count) × (count < 65536) }
    ensures told { (f : ℕ → ℕ) → ((n k : ℕ) → n < count → F.post key n k → k ≡ f n) → (k : ℕ) → k < size → group groups.new k ≡ those count (λ n. nat_eq (f n) k) }
    ensures key_room { vec_capacity keys.new ≡ vec_capacity keys.old }
    ensures room { HasRoom groups.new (room_for_keys groups.old) (room_for_numbers groups.old) }
{
    fill_column(keys, count, key);
    // There is room, so this is no error.
    let _ = groups.fill(size, keys);
}
