// What the programs that look at an image of guest memory have in common: which bytes are an image, whose memory they are, and how they
// are read.
#![tactic(auto)]

pub mod input; // the bytes, and where they come from

ghost use Rattle.std.specs.Prelude.{◌≡◌, length, take};
ghost use Rattle.guest.specs.Machine.{view, Held};
ghost use Rattle.layout.specs.Layout.{size, stored};
ghost use Rattle.image.specs.Image.{is_image, frame_at, page_at, four_vcpus, guest_of};

use guest::{Frame, Frames, Guest, Table, Tables, Vcpus};

// §11.1: the longest image.
pub const IMAGE: usize = 65536;

const PAGE: usize = 4096;

const WIDTH: u64 = 40;

const START: u64 = 0x40000000;

// The bytes of a state.
pub const STATE: usize = 11400;

#[tactic(auto, unfolding(crate::specs::Image::is_image))]
pub fn is_image(size: usize) -> bool
    ensures { result ≡ is_image size }
{
    2 * PAGE <= size && size <= IMAGE && size % PAGE == 0
}

fn frame_at(base: u64) -> Frame
    ensures { result ≡ frame_at base }
{
    Frame { set: 1, base }
}

fn page_at(start: u64) -> Table
    ensures { result ≡ page_at start }
{
    Table {
        set: 1,
        start,
        pages: 1,
    }
}

// Affinities 0 to 3.
fn four_vcpus() -> Vcpus
    ensures { (result.count ≡ 4) × (take 4 result.rows ≡ four_vcpus) }
{
    let mut rows = [guest::fresh_vcpu(0); 64];
    rows[1] = guest::fresh_vcpu(1);
    rows[2] = guest::fresh_vcpu(2);
    rows[3] = guest::fresh_vcpu(3);
    Vcpus { rows, count: 4 }
}

// §11.1: frames stand where a restore does not look: both INITs ask for them.
fn guest_of(size: u64) -> Guest
    ensures { (view result ≡ guest_of size) × Held result }
{
    let mut g = Guest::new(WIDTH, START, size);
    g.control.init = 1;
    g.control.itsinit = 1;
    let frames = Frames {
        distributor: frame_at(0x08000000),
        single: frame_at(0x080A0000),
        its: frame_at(0x08080000),
    };
    g.frames = frames;
    let vcpus = four_vcpus();
    g.vcpus = vcpus;
    let tables = Tables {
        devices: page_at(START),
        collections: page_at(START + PAGE as u64),
    };
    g.tables = tables;
    g
}

// A restore reads into the bytes of a state.
pub fn store_guest_of(s: &mut [u8], len: u64)
    requires { length s.old ≡ size }
    ensures { s.new ≡ stored (guest_of len) s.old }
{
    let g = guest_of(len);
    layout::store_guest(s, g);
}
