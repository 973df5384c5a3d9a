// Whether an entry of a device table is there, by the one byte that says so: such a table is mostly blank, and nothing else of a blank entry
// has a meaning (§6.5).
#![tactic(auto)]

ghost use Rattle.std.specs.Prelude.{◌≡◌, ◌/◌, ◌<◌, length};
ghost use Rattle.entries.specs.Device.{is_device};
ghost use Rattle.tables.specs.Bytes.{entry_at};

// The bytes of an entry.
const ENTRY: usize = 8;

// The last of them holds V as its highest bit and seven bits of next below it (§6.2): 128 or more where V is set, whatever next is.
const LAST: usize = 7;

const V: u8 = 128;

// Reads no other byte of the entry.
pub fn device_there(t: &[u8], i: usize) -> bool
    requires { i < length t.now / 8 }
    ensures { result ≡ is_device (entry_at t.now i) }
{
    V <= t[i * ENTRY + LAST]
}
