// The ITS commands, on a guest and its mapping.
ghost use Rattle.std.specs.Prelude.{◌≡◌, length};
ghost use Rattle.lists.specs.Rows.{choose};
ghost use Rattle.guest.specs.Machine.{view};
ghost use Rattle.guest.specs.Returned.{fault, reading};
ghost use Rattle.layout.specs.Layout.{size, decode};
ghost use Rattle.mapping.specs.Mapped.{rows};
ghost use Rattle.mapping.specs.MapRules.{MapKept};
ghost use Rattle.mapping.specs.Commands.{map_device, unmap_device, map_collection, unmap_collection, map_event, discard, move};
ghost use Rattle.calls.specs.Commands.{BoxDoes, ready, on_mapping, place, reset, lookup_step, memory_fault};

use super::Contents;
use answers::Errno;
use guest::{Guest, Table, Tables};
use mapping::Mapping;

// §5.3: before ITS INIT, or with no table placed, a mapping command is refused.
fn check_ready(g: Guest) -> Result<(), Errno>
    ensures { fault result ≡ choose (ready (view g)) 0 6 }
{
    if g.control.itsinit != 1 {
        return Err(Errno::ENXIO);
    }
    if g.tables.devices.set != 1 {
        return Err(Errno::ENXIO);
    }
    Ok(())
}

// §5.4: sets both tables' places.
pub fn place(g: Guest, k: Mapping, ds: u64, dp: u64, cs: u64, cp: u64) -> Result<Contents, Errno>
    requires { MapKept g k }
    ensures { BoxDoes (view g) (rows k) result (place ds dp cs cp (view g) (rows k)) }
{
    if g.control.itsinit != 1 {
        return Err(Errno::ENXIO);
    }
    let d = Table {
        set: 1,
        start: ds,
        pages: dp,
    };
    let c = Table {
        set: 1,
        start: cs,
        pages: cp,
    };
    its::place_fault(g, k, d, c)?;
    let both = Tables {
        devices: d,
        collections: c,
    };
    let mut next = g;
    next.tables = both;
    Ok(Contents {
        guest: next,
        mapping: k,
    })
}

pub fn map_device(g: Guest, k: Mapping, id: u64, itt: u64, bits: u64) -> Result<Contents, Errno>
    requires { MapKept g k }
    ensures { BoxDoes (view g) (rows k) result (on_mapping (map_device id itt bits (view g) (rows k)) (view g) (rows k)) }
{
    check_ready(g)?;
    let mapping = its::map_device(g, k, id, itt, bits)?;
    Ok(Contents { guest: g, mapping })
}

pub fn unmap_device(g: Guest, k: Mapping, id: u64) -> Result<Contents, Errno>
    requires { MapKept g k }
    ensures { BoxDoes (view g) (rows k) result (on_mapping (unmap_device id (rows k)) (view g) (rows k)) }
{
    check_ready(g)?;
    let mapping = its::unmap_device(k, id)?;
    Ok(Contents { guest: g, mapping })
}

pub fn map_collection(g: Guest, k: Mapping, icid: u64, pe: u64) -> Result<Contents, Errno>
    requires { MapKept g k }
    ensures { BoxDoes (view g) (rows k) result (on_mapping (map_collection icid pe (view g) (rows k)) (view g) (rows k)) }
{
    check_ready(g)?;
    let mapping = its::map_collection(g, k, icid, pe)?;
    Ok(Contents { guest: g, mapping })
}

pub fn unmap_collection(g: Guest, k: Mapping, icid: u64) -> Result<Contents, Errno>
    requires { MapKept g k }
    ensures { BoxDoes (view g) (rows k) result (on_mapping (unmap_collection icid (rows k)) (view g) (rows k)) }
{
    check_ready(g)?;
    let mapping = its::unmap_collection(k, icid)?;
    Ok(Contents { guest: g, mapping })
}

pub fn map_event(
    g: Guest,
    k: Mapping,
    device: u64,
    event: u64,
    lpi: u64,
    icid: u64,
) -> Result<Contents, Errno>
    requires { MapKept g k }
    ensures { BoxDoes (view g) (rows k) result (on_mapping (map_event device event lpi icid (rows k)) (view g) (rows k)) }
{
    check_ready(g)?;
    let mapping = its::map_event(k, device, event, lpi, icid)?;
    Ok(Contents { guest: g, mapping })
}

pub fn discard(g: Guest, k: Mapping, device: u64, event: u64) -> Result<Contents, Errno>
    requires { MapKept g k }
    ensures { BoxDoes (view g) (rows k) result (on_mapping (discard device event (rows k)) (view g) (rows k)) }
{
    check_ready(g)?;
    let mapping = its::discard(k, device, event)?;
    Ok(Contents { guest: g, mapping })
}

pub fn move_event(
    g: Guest,
    k: Mapping,
    device: u64,
    event: u64,
    icid: u64,
) -> Result<Contents, Errno>
    requires { MapKept g k }
    ensures { BoxDoes (view g) (rows k) result (on_mapping (move device event icid (rows k)) (view g) (rows k)) }
{
    check_ready(g)?;
    let mapping = its::move_event(k, device, event, icid)?;
    Ok(Contents { guest: g, mapping })
}

// §5.14: RESET: nothing mapped, no table placed; ITS INIT stands.
pub fn reset(g: Guest, k: Mapping, width: u64) -> Result<Contents, Errno>
    requires { MapKept g k }
    ensures { BoxDoes (view g) (rows k) result (reset width (view g) (rows k)) }
{
    if width != 0 {
        return Err(Errno::EFAULT);
    }
    if g.control.itsinit != 1 {
        return Err(Errno::ENXIO);
    }
    if g.control.running == 1 {
        return Err(Errno::EBUSY);
    }
    let unplaced = Table {
        set: 0,
        start: 0,
        pages: 0,
    };
    let none = Tables {
        devices: unplaced,
        collections: unplaced,
    };
    let empty = Mapping::new();
    let mut next = g;
    next.tables = none;
    Ok(Contents {
        guest: next,
        mapping: empty,
    })
}

pub fn look_up(g: Guest, k: Mapping, device: u64, event: u64) -> Result<u64, Errno>
    requires { MapKept g k }
    ensures { reading result ≡ lookup_step device event (view g) (rows k) }
{
    check_ready(g)?;
    its::lookup(&k, device, event)
}

// §7.1, §9.1, §13.2: the fault of a save, a restore or an explain that lends so many bytes of memory.
pub fn memory_fault(s: &[u8], len: u64) -> Result<(), Errno>
    requires { length s.now ≡ size }
    ensures { fault result ≡ memory_fault len (decode s.now) }
{
    let memory = layout::load_memory(s);
    if len != memory.length {
        return Err(Errno::EFAULT);
    }
    let control = layout::load_control(s);
    if control.itsinit != 1 {
        return Err(Errno::ENXIO);
    }
    let devices = layout::load_tables(s).devices;
    if devices.set != 1 {
        return Err(Errno::ENXIO);
    }
    if control.running == 1 {
        return Err(Errno::EBUSY); // the guest runs
    }
    Ok(())
}
