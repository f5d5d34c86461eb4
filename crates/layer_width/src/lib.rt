// What a layer's width says of its codes: the steps that they can take, and the code that means missing. Two functions, since the one is a code and the other a count in a wider word;
// the cast is proved to lose nothing, where a `try_from` would add a test. Internal: the calls open to users ask that a width is 2 to 16.
#![tactic(auto)]

ghost use Rattle.std.specs.Prelude.{◌≡◌, ◌≤◌};
ghost use Rattle.meaning.specs.Layers.{missing_code, last_code};

// The missing code of a width, 2^width - 1.
pub fn missing_of(width: u32) -> u16
    requires { width ≤ 16 }
    ensures { result ≡ missing_code width }
{
    ((1u32 << width) - 1) as u16
}

// The steps that codes of a width can take, 2^width - 2.
pub fn steps_of(width: u32) -> u64
    requires le_width { 2 ≤ width }
    requires width_bound { width ≤ 16 }
    ensures { result ≡ last_code width }
{
    (1u64 << width) - 2
}
