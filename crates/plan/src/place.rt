// Writes a list into the table, from an entry on.
ghost use Rattle.std.specs.Prelude.{◌≤◌, ◌+◌, length};
ghost use Rattle.plan.specs.internal.Layout.{PlacedBy};

// Bytes, words or sets of bits.
pub fn place_list<T: Copy + Into<u32>>(list: &[T], from: usize, plan: &mut [u32])
    requires { from + length list.now ≤ length plan.old }
    ensures { PlacedBy T.converts from list.now plan.old plan.new }
{
    for (i, x) in list.iter().enumerate() {
        plan[from + i] = (*x).into();
    }
}
