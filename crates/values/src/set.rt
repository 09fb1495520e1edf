// What is asked of a set of values, and what is made of one.
// A set stays a plain number: the project's rule keeps value sets as 32-bit numbers, so a value below 32 is asked for at each call.
ghost use Rattle.std.specs.Prelude.{◌≡◌, ℕ, ◌-◌, ◌^◌, ◌<◌, ◌≤◌, Decides, count_ones};
ghost use Rattle.values.specs.Members.{In, Lowest, Without};

/// Whether the set has the value.
pub fn has(set: u32, value: u8) -> bool
    requires { value < 32 }
    ensures { Decides result (In set value) }
{
    (set >> value) % 2 == 1
}

/// All values of an option of this size.
pub fn full(size: u8) -> u32
    requires { (1 ≤ size) × (size ≤ 32) }
    ensures { result ≡ 2 ^ size - 1 }
{
    u32::MAX >> (32 - size)
}

/// How many values the set has.
pub fn size(set: u32) -> usize
    ensures value { result ≡ count_ones set }
    ensures bound { result ≤ 32 }
{
    set.count_ones() as usize
}

/// The lowest value of the set, which has one.
pub fn lowest(set: u32) -> u8
    requires { 0 < set }
    ensures { Lowest set result }
{
    set.trailing_zeros() as u8
}

/// The set of the value alone.
pub fn only(value: u8) -> u32
    requires { value < 32 }
    ensures { result ≡ 2 ^ value }
{
    1 << value
}

/// The set without the value, which it has.
pub fn without(set: u32, value: u8) -> u32
    requires { In set value }
    ensures { Without set value result }
{
    set ^ only(value)
}
