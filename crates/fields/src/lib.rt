#![tactic(auto)]

ghost use Rattle.std.specs.Prelude.{◌≡◌, ◌+◌, ◌<◌, ◌≤◌, ◌^◌};
ghost use Rattle.fields.specs.Field.{get_field, put_field};

// The mask of a field: `width` ones.
fn ones(width: u32) -> u64
    requires { (1 ≤ width) × (width ≤ 64) }
    ensures { result + 1 ≡ 2 ^ width }
{
    u64::MAX >> (64 - width)
}

// The `width` bits of `word` from `pos` up.
pub fn field_get(word: u64, pos: u32, width: u32) -> u64
    requires { (1 ≤ width) × (pos + width ≤ 64) }
    ensures { result ≡ get_field word pos width }
{
    (word >> pos) & ones(width)
}

// `word` with the `width` bits from `pos` up replaced by `value`.
pub fn field_put(word: u64, pos: u32, width: u32, value: u64) -> u64
    requires { (1 ≤ width) × (pos + width ≤ 64) × (value < 2 ^ width) }
    ensures { result ≡ put_field word pos width value }
{
    (word & !(ones(width) << pos)) | (value << pos)
}
