// "Offsets are tenths of a degree, -300 to 300."
ghost use Rattle.std.specs.Prelude.{◌≡◌};
ghost use Rattle.values.specs.Offset.{
  offset_in_range,
  legal_offset,
  legal_offset_minimum,
  legal_offset_maximum,
};

// From `lo` to `hi`, both included; the reason for a function of its own stands at `gain_in_range`.
#[tactic(auto, unfolding(crate::specs::Offset::offset_in_range))]
pub fn offset_in_range(lo: i16, z: i16, hi: i16) -> bool
    ensures { result ≡ offset_in_range lo z hi }
{
    (lo <= z) & (z <= hi)
}

// What is legal of an offset, a minimum and a maximum: three definitions by name, as of gains; what they share is `offset_in_range`.

// "-300 to 300"
#[tactic(auto, unfolding(crate::specs::Offset::legal_offset))]
pub fn legal_offset(z: i16) -> bool
    ensures { result ≡ legal_offset z }
{
    offset_in_range(-300, z, 300)
}

// "Minimums: [..] -300 to 0"
#[tactic(auto, unfolding(crate::specs::Offset::legal_offset_minimum))]
pub fn legal_offset_minimum(z: i16) -> bool
    ensures { result ≡ legal_offset_minimum z }
{
    offset_in_range(-300, z, 0)
}

// "Maximums: [..] 0 to 300"
#[tactic(auto, unfolding(crate::specs::Offset::legal_offset_maximum))]
pub fn legal_offset_maximum(z: i16) -> bool
    ensures { result ≡ legal_offset_maximum z }
{
    offset_in_range(0, z, 300)
}
