// A part of an area of numbers.
ghost use Rattle.std.specs.Prelude.{◌≡◌, ◌++◌, ◌+◌, ◌≤◌, length, take, drop};

// Writes a run of numbers into an area from a place on. It is for this crate, `table` and `memory`, whose areas have room.
pub fn write(area: &mut [u32], at: usize, run: &[u32])
    requires { at + length run.now ≤ length area.old }
    ensures { let l = area.old in let s = run.now in area.new ≡ take at l ++ (s ++ drop (at + length s) l) }
{
    // One by one: `copy_from_slice` becomes a call of `memmove` here, and the library for C asks for no name but `memcpy` and `memset`.
    for (i, &number) in run.iter().enumerate() {
        area[at + i] = number;
    }
}
