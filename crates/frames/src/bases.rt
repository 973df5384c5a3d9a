// Group 0: frames' bases and redistributor regions. Values are 8 bytes.
ghost use Rattle.std.specs.Prelude.{◌≡◌, ◌+◌, ◌<◌, ◌≤◌, ◌^◌};
ghost use Rattle.fields.specs.Field.{get_field, put_field};
ghost use Rattle.guest.specs.Machine.{view};
ghost use Rattle.guest.specs.Returned.{fault, Does, reading};
ghost use Rattle.rules.specs.Standing.{region_area};
ghost use Rattle.rules.specs.Rules.{Kept};
ghost use Rattle.frames.specs.Bases.{is_base, name_fault, base_of, get_single, get_region, get_group0, get_its_group0, region_word, word_region};
ghost use Rattle.frames.specs.Bases.{area_fault, frame_fault, single_fault, region_fault};
ghost use Rattle.frames.specs.Bases.{set_distributor, set_single, set_its_base, add_region, set_group0, set_its_group0};

use answers::Errno;
use areas::Area;
use guest::{Frame, Guest, Region};

// Attributes, which are numbers of the C interface, and the bytes of a base or a region word.
const DISTRIBUTOR: u64 = 2;

const SINGLE: u64 = 3;

const ITS: u64 = 4;

const REGION: u64 = 5;

const BASE_BYTES: u64 = 8;

// Bases are multiples of this.
const UNIT: u64 = 65536;

// The bytes of each frame (§3.3).
const DISTRIBUTOR_BYTES: u64 = 65536;

pub const REDISTRIBUTOR_BYTES: u64 = 131072;

const ITS_BYTES: u64 = 131072;

// A field of a region word (§3.7): its lowest bit and its number of bits.
#[derive(Clone, Copy)]
struct Field {
    at: u32,
    bits: u32,
}

impl Field {
    fn get(self, w: u64) -> u64
        requires { (1 ≤ self.bits) × (self.at + self.bits ≤ 64) }
        ensures { result ≡ get_field w self.at self.bits }
    {
        fields::field_get(w, self.at, self.bits)
    }

    // The word with the field replaced.
    fn put(self, w: u64, value: u64) -> u64
        requires { (1 ≤ self.bits) × (self.at + self.bits ≤ 64) × (value < 2 ^ self.bits) }
        ensures { result ≡ put_field w self.at self.bits value }
    {
        fields::field_put(w, self.at, self.bits, value)
    }
}

const INDEX: Field = Field { at: 0, bits: 12 };

const FLAGS: Field = Field { at: 12, bits: 4 };

const BASE: Field = Field { at: 16, bits: 36 };

const COUNT: Field = Field { at: 52, bits: 12 };

// Whether the VGIC's group 0 has an attribute.
fn is_base(attribute: u64) -> bool
    ensures { result ≡ is_base attribute }
{
    matches!(attribute, DISTRIBUTOR | SINGLE | REGION)
}

// Refuses an unknown attribute of the VGIC's group 0, then a value of the wrong width.
#[tactic(auto, unfolding(crate::specs::Bases::name_fault))]
fn name_fault(attribute: u64, width: u64) -> Result<(), Errno>
    ensures { fault result ≡ name_fault attribute width }
{
    if !is_base(attribute) {
        return Err(Errno::ENXIO);
    }
    if width != BASE_BYTES {
        return Err(Errno::EFAULT);
    }
    Ok(())
}

// The base of a frame, if it is set.
fn base_of(f: Frame) -> Result<u64, Errno>
    ensures { reading result ≡ base_of f }
{
    if f.set != 1 {
        return Err(Errno::ENOENT);
    }
    Ok(f.base)
}

// The base of the single run. With regions standing there can be none.
#[tactic(auto, unfolding(crate::specs::Bases::get_single))]
fn get_single(g: Guest) -> Result<u64, Errno>
    requires { Kept g }
    ensures { reading result ≡ get_single (view g) }
{
    if g.regions.count != 0 {
        return Err(Errno::EINVAL);
    }
    base_of(g.frames.single)
}

// The word of a region, with flags 0. A base is a multiple of 65,536, so that its bits 51:16 are all of it.
#[tactic(auto, unfolding(crate::specs::Bases::region_word))]
fn region_word(index: u64, r: Region) -> u64
    requires { (index < 2 ^ 12) × (r.base < 2 ^ 52) × (r.count < 2 ^ 12) }
    ensures { result ≡ region_word index r }
{
    let low = INDEX.put(0, index);
    let mid = BASE.put(low, r.base / UNIT);
    COUNT.put(mid, r.count)
}

// The region of a word.
#[tactic(auto, using(fields::proofs::Laws::get_lt), unfolding(crate::specs::Bases::word_region))]
fn word_region(w: u64) -> Region
    ensures { result ≡ word_region w }
{
    Region {
        base: BASE.get(w) * UNIT,
        count: COUNT.get(w),
    }
}

// Only the index bits of the lent word are read.
#[tactic(auto, unfolding(crate::specs::Bases::get_region))]
fn get_region(g: Guest, w: u64) -> Result<u64, Errno>
    requires { Kept g }
    ensures { reading result ≡ get_region w (view g) }
{
    if g.frames.single.set == 1 {
        return Err(Errno::EINVAL);
    }
    let index = INDEX.get(w);
    match g.regions.rows[..g.regions.count].get(index as usize) {
        Some(r) => Ok(region_word(index, *r)),
        None => Err(Errno::ENOENT),
    }
}

// Group 0 of the VGIC.
#[tactic(auto, unfolding(crate::specs::Bases::get_group0, crate::specs::Bases::name_fault))]
pub fn get_group0(g: Guest, attribute: u64, width: u64, value: u64) -> Result<u64, Errno>
    requires { Kept g }
    ensures { reading result ≡ get_group0 attribute width value (view g) }
{
    name_fault(attribute, width)?;
    match attribute {
        DISTRIBUTOR => base_of(g.frames.distributor),
        SINGLE => get_single(g),
        _ => get_region(g, value),
    }
}

// Group 0 of the ITS, where an unknown attribute is -19.
#[tactic(auto, unfolding(crate::specs::Bases::get_its_group0))]
pub fn get_its_group0(g: Guest, attribute: u64, width: u64) -> Result<u64, Errno>
    requires { Kept g }
    ensures { reading result ≡ get_its_group0 attribute width (view g) }
{
    if attribute != ITS {
        return Err(Errno::ENODEV);
    }
    if width != BASE_BYTES {
        return Err(Errno::EFAULT);
    }
    base_of(g.frames.its)
}

// Refuses an area that is to stand where it ends above the address space, or overlaps a frame that stands.
#[tactic(auto, using(crate::proofs::Known::narrow, rules::proofs::Facts::kept_small), unfolding(crate::specs::Bases::area_fault))]
fn area_fault(g: Guest, a: Area) -> Result<(), Errno>
    requires { Kept g }
    ensures { fault result ≡ area_fault a (view g) }
{
    if !areas::ends_by(rules::limit(g.memory.width), a) {
        return Err(Errno::E2BIG);
    }
    if areas::strikes(rules::standing(g), a) {
        return Err(Errno::EINVAL);
    }
    Ok(())
}

// What stops the base of the frame f, of so many bytes, from being set (§3.5).
#[tactic(auto, unfolding(crate::specs::Bases::frame_fault))]
fn frame_fault(g: Guest, f: Frame, size: u64, base: u64) -> Result<(), Errno>
    requires { Kept g }
    ensures { fault result ≡ frame_fault f size base (view g) }
{
    if f.set == 1 {
        return Err(Errno::EEXIST);
    }
    if base % UNIT != 0 {
        return Err(Errno::EINVAL);
    }
    area_fault(g, Area { start: base, size })
}

// Each frame is set by a function of its own, as in the definitions set_distributor, set_single and set_its_base.
#[tactic(auto, unfolding(crate::specs::Bases::set_distributor))]
fn set_distributor(g: Guest, base: u64) -> Result<Guest, Errno>
    requires { Kept g }
    ensures { Does (view g) result (set_distributor base (view g)) }
{
    frame_fault(g, g.frames.distributor, DISTRIBUTOR_BYTES, base)?;
    let mut next = g;
    next.frames.distributor = Frame { set: 1, base };
    Ok(next)
}

// What stops the single run's base from being set. Regions and the single run never stand together.
#[tactic(auto, unfolding(crate::specs::Bases::single_fault))]
fn single_fault(g: Guest, base: u64) -> Result<(), Errno>
    requires { Kept g }
    ensures { fault result ≡ single_fault base (view g) }
{
    if g.regions.count != 0 {
        return Err(Errno::EINVAL);
    }
    frame_fault(g, g.frames.single, rules::run_size(g), base)
}

#[tactic(auto, unfolding(crate::specs::Bases::set_single))]
fn set_single(g: Guest, base: u64) -> Result<Guest, Errno>
    requires { Kept g }
    ensures { Does (view g) result (set_single base (view g)) }
{
    single_fault(g, base)?;
    let mut next = g;
    next.frames.single = Frame { set: 1, base };
    Ok(next)
}

#[tactic(auto, unfolding(crate::specs::Bases::set_its_base))]
fn set_its_base(g: Guest, base: u64) -> Result<Guest, Errno>
    requires { Kept g }
    ensures { Does (view g) result (set_its_base base (view g)) }
{
    frame_fault(g, g.frames.its, ITS_BYTES, base)?;
    let mut next = g;
    next.frames.its = Frame { set: 1, base };
    Ok(next)
}

// A count below 4,096 keeps the size a number of 64 bits.
fn region_area(r: Region) -> Area
    requires { r.count < 2 ^ 12 }
    ensures { result ≡ region_area r }
{
    Area {
        start: r.base,
        size: REDISTRIBUTOR_BYTES * r.count,
    }
}

// What stops the region of a word from being added (§3.8).
#[tactic(auto, using(crate::proofs::Known::word_count), unfolding(crate::specs::Bases::region_fault))]
fn region_fault(g: Guest, w: u64) -> Result<(), Errno>
    requires { Kept g }
    ensures { fault result ≡ region_fault w (view g) }
{
    if g.frames.single.set == 1 {
        return Err(Errno::EINVAL);
    }
    if FLAGS.get(w) != 0 {
        return Err(Errno::EINVAL);
    }
    let r = word_region(w);
    if r.count == 0 {
        return Err(Errno::EINVAL);
    }
    let n = g.regions.count;
    if INDEX.get(w) != n as u64 {
        return Err(Errno::EINVAL);
    }
    if Guest::MAX_REGIONS <= n {
        return Err(Errno::ENOMEM);
    }
    area_fault(g, region_area(r))
}

// The region stands at the end of the others.
#[tactic(auto, unfolding(crate::specs::Bases::add_region, crate::specs::Bases::region_fault))]
fn add_region(g: Guest, w: u64) -> Result<Guest, Errno>
    requires { Kept g }
    ensures { Does (view g) result (add_region w (view g)) }
{
    region_fault(g, w)?;
    let mut next = g;
    next.regions.rows[g.regions.count] = word_region(w);
    next.regions.count += 1;
    Ok(next)
}

// Group 0 of the VGIC.
#[tactic(auto, unfolding(crate::specs::Bases::set_group0, crate::specs::Bases::name_fault))]
pub fn set_group0(g: Guest, attribute: u64, width: u64, value: u64) -> Result<Guest, Errno>
    requires { Kept g }
    ensures { Does (view g) result (set_group0 attribute width value (view g)) }
{
    name_fault(attribute, width)?;
    match attribute {
        DISTRIBUTOR => set_distributor(g, value),
        SINGLE => set_single(g, value),
        _ => add_region(g, value),
    }
}

// Group 0 of the ITS.
#[tactic(auto, unfolding(crate::specs::Bases::set_its_group0))]
pub fn set_its_group0(g: Guest, attribute: u64, width: u64, value: u64) -> Result<Guest, Errno>
    requires { Kept g }
    ensures { Does (view g) result (set_its_group0 attribute width value (view g)) }
{
    if attribute != ITS {
        return Err(Errno::ENODEV);
    }
    if width != BASE_BYTES {
        return Err(Errno::EFAULT);
    }
    set_its_base(g, value)
}
