// The C interface. §10.1, §14.13: every promise is one record over `step`, or over `xics_step` for a call on an XICS, the definitions that the
// claims are stated over: the answer, and the state and the lent bytes at exit, read or written. For every input; none asks anything of
// the caller.
#![tactic(auto)]

ghost use Rattle.std.specs.Prelude.{[]};
ghost use Rattle.step.specs.Step.{step, Leaves, state_len, setup, vcpu_add, vcpus_start, vcpus_stop, vgic_set, its_set, vgic_get, its_get, redist_base, irq_pending, irq_set_pending, irq_clear_pending, irq_activate, irq_line, irq_trigger, its_place, its_map_device, its_unmap_device, its_map_collection, its_unmap_collection, its_map_event, its_discard, its_move, its_lookup, its_save, its_restore, its_explain};
ghost use Rattle.xics.specs.XicsStep.{xics_step, xics_len, xics_setup, add_server, add_source, set_source, set_server, get_source, get_server, deliverable};

use calls::{Change, Command, Question};
use xics::XicsChange;
use xicsrows::Table;

// §1.2: the length of a guest's state in bytes.
#[unsafe(no_mangle)]
pub extern "C" fn rk_state_len() -> i64
    ensures { Leaves (step state_len [] []) result [] [] }
{
    11400
}

// §1.4: makes a fresh guest of any bytes of the right length.
#[unsafe(no_mangle)]
pub extern "C" fn rk_setup(state: &mut [u8], width: u64, start: u64, length: u64) -> i64
    ensures { Leaves (step (setup width start length) state.old []) result state.new [] }
{
    calls::sign(calls::set_up(state, width, start, length))
}

// §3.1: adds a VCPU.
#[unsafe(no_mangle)]
pub extern "C" fn rk_vcpu_add(state: &mut [u8], affinity: u32) -> i64
    ensures { Leaves (step (vcpu_add affinity) state.old []) result state.new [] }
{
    calls::sign(calls::apply(state, Change::AddVcpu(affinity as u64)))
}

// §3.2: sets the running mark.
#[unsafe(no_mangle)]
pub extern "C" fn rk_vcpus_start(state: &mut [u8]) -> i64
    ensures { Leaves (step vcpus_start state.old []) result state.new [] }
{
    calls::sign(calls::apply(state, Change::Start))
}

// §3.2: takes the running mark away.
#[unsafe(no_mangle)]
pub extern "C" fn rk_vcpus_stop(state: &mut [u8]) -> i64
    ensures { Leaves (step vcpus_stop state.old []) result state.new [] }
{
    calls::sign(calls::apply(state, Change::Stop))
}

// §2.7: sets an attribute of the VGIC. The length of the value goes along, as its group tests it (§2.8).
#[unsafe(no_mangle)]
pub extern "C" fn rk_vgic_set(state: &mut [u8], group: u64, attribute: u64, value: &[u8]) -> i64
    ensures { Leaves (step (vgic_set group attribute) state.old value.now) result state.new value.now }
{
    let width = value.len() as u64;
    let number = calls::value_of(value);
    calls::sign(calls::apply(state, Change::VgicSet(group, attribute, width, number)))
}

// §2.7: sets an attribute of the ITS. RESET, group 4, attribute 4, is a command: it empties the mapping (§5.14).
#[unsafe(no_mangle)]
pub extern "C" fn rk_its_set(state: &mut [u8], group: u64, attribute: u64, value: &[u8]) -> i64
    ensures { Leaves (step (its_set group attribute) state.old value.now) result state.new value.now }
{
    let width = value.len() as u64;
    let number = calls::value_of(value);
    if group == 4 && attribute == 4 {
        return calls::sign(calls::run_command(state, Command::Reset(width)));
    }
    calls::sign(calls::apply(state, Change::ItsSet(group, attribute, width, number)))
}

// §2.7: reads an attribute of the VGIC into the value, whose number a get of a region needs (§3.10).
#[unsafe(no_mangle)]
pub extern "C" fn rk_vgic_get(state: &[u8], group: u64, attribute: u64, value: &mut [u8]) -> i64
    ensures { Leaves (step (vgic_get group attribute) state.now value.old) result state.now value.new }
{
    let width = value.len() as u64;
    let number = calls::value_of(value);
    let r = calls::ask(state, Question::VgicGet(group, attribute, width, number));
    calls::sign(calls::give(value, r))
}

// §2.7: reads an attribute of the ITS into the value.
#[unsafe(no_mangle)]
pub extern "C" fn rk_its_get(state: &[u8], group: u64, attribute: u64, value: &mut [u8]) -> i64
    ensures { Leaves (step (its_get group attribute) state.now value.old) result state.now value.new }
{
    let width = value.len() as u64;
    let r = calls::ask(state, Question::ItsGet(group, attribute, width));
    calls::sign(calls::give(value, r))
}

// §3.13: where a VCPU's redistributor lies.
#[unsafe(no_mangle)]
pub extern "C" fn rk_redist_base(state: &[u8], vcpu: u64) -> i64
    ensures { Leaves (step (redist_base vcpu) state.now []) result state.now [] }
{
    calls::tell(calls::ask(state, Question::RedistBase(vcpu)))
}

// §4.4: whether an interrupt is pending.
#[unsafe(no_mangle)]
pub extern "C" fn rk_irq_pending(state: &[u8], vcpu: u64, intid: u64) -> i64
    ensures { Leaves (step (irq_pending vcpu intid) state.now []) result state.now [] }
{
    calls::tell(calls::ask(state, Question::Pending(vcpu, intid)))
}

// §4.5: makes a latch 1.
#[unsafe(no_mangle)]
pub extern "C" fn rk_irq_set_pending(state: &mut [u8], vcpu: u64, intid: u64) -> i64
    ensures { Leaves (step (irq_set_pending vcpu intid) state.old []) result state.new [] }
{
    calls::sign(calls::apply(state, Change::SetPending(vcpu, intid)))
}

// §4.5: makes a latch 0.
#[unsafe(no_mangle)]
pub extern "C" fn rk_irq_clear_pending(state: &mut [u8], vcpu: u64, intid: u64) -> i64
    ensures { Leaves (step (irq_clear_pending vcpu intid) state.old []) result state.new [] }
{
    calls::sign(calls::apply(state, Change::ClearPending(vcpu, intid)))
}

// §4.5: makes a latch 0.
#[unsafe(no_mangle)]
pub extern "C" fn rk_irq_activate(state: &mut [u8], vcpu: u64, intid: u64) -> i64
    ensures { Leaves (step (irq_activate vcpu intid) state.old []) result state.new [] }
{
    calls::sign(calls::apply(state, Change::Activate(vcpu, intid)))
}

// §4.6: stores a level.
#[unsafe(no_mangle)]
pub extern "C" fn rk_irq_line(state: &mut [u8], vcpu: u64, intid: u64, level: u64) -> i64
    ensures { Leaves (step (irq_line vcpu intid level) state.old []) result state.new [] }
{
    calls::sign(calls::apply(state, Change::Line(vcpu, intid, level)))
}

// §4.7: stores a bank's trigger word.
#[unsafe(no_mangle)]
pub extern "C" fn rk_irq_trigger(state: &mut [u8], vcpu: u64, intid: u64, word: u32) -> i64
    ensures { Leaves (step (irq_trigger vcpu intid word) state.old []) result state.new [] }
{
    calls::sign(calls::apply(state, Change::Trigger(vcpu, intid, word as u64)))
}

// §5.4: places the two tables.
#[unsafe(no_mangle)]
pub extern "C" fn rk_its_place(
    state: &mut [u8],
    dstart: u64,
    dpages: u64,
    cstart: u64,
    cpages: u64,
) -> i64
    ensures { Leaves (step (its_place dstart dpages cstart cpages) state.old []) result state.new [] }
{
    calls::sign(calls::run_command(state, Command::Place(dstart, dpages, cstart, cpages)))
}

// §5.6: maps a device.
#[unsafe(no_mangle)]
pub extern "C" fn rk_its_map_device(state: &mut [u8], device: u64, itt: u64, bits: u64) -> i64
    ensures { Leaves (step (its_map_device device itt bits) state.old []) result state.new [] }
{
    calls::sign(calls::run_command(state, Command::MapDevice(device, itt, bits)))
}

// §5.7: removes a device.
#[unsafe(no_mangle)]
pub extern "C" fn rk_its_unmap_device(state: &mut [u8], device: u64) -> i64
    ensures { Leaves (step (its_unmap_device device) state.old []) result state.new [] }
{
    calls::sign(calls::run_command(state, Command::UnmapDevice(device)))
}

// §5.8: maps a collection.
#[unsafe(no_mangle)]
pub extern "C" fn rk_its_map_collection(state: &mut [u8], icid: u64, pe: u64) -> i64
    ensures { Leaves (step (its_map_collection icid pe) state.old []) result state.new [] }
{
    calls::sign(calls::run_command(state, Command::MapCollection(icid, pe)))
}

// §5.9: removes a collection.
#[unsafe(no_mangle)]
pub extern "C" fn rk_its_unmap_collection(state: &mut [u8], icid: u64) -> i64
    ensures { Leaves (step (its_unmap_collection icid) state.old []) result state.new [] }
{
    calls::sign(calls::run_command(state, Command::UnmapCollection(icid)))
}

// §5.10: maps an event.
#[unsafe(no_mangle)]
pub extern "C" fn rk_its_map_event(
    state: &mut [u8],
    device: u64,
    event: u64,
    lpi: u64,
    icid: u64,
) -> i64
    ensures { Leaves (step (its_map_event device event lpi icid) state.old []) result state.new [] }
{
    calls::sign(calls::run_command(state, Command::MapEvent(device, event, lpi, icid)))
}

// §5.11: removes an event.
#[unsafe(no_mangle)]
pub extern "C" fn rk_its_discard(state: &mut [u8], device: u64, event: u64) -> i64
    ensures { Leaves (step (its_discard device event) state.old []) result state.new [] }
{
    calls::sign(calls::run_command(state, Command::Discard(device, event)))
}

// §5.12: gives an event another collection.
#[unsafe(no_mangle)]
pub extern "C" fn rk_its_move(state: &mut [u8], device: u64, event: u64, icid: u64) -> i64
    ensures { Leaves (step (its_move device event icid) state.old []) result state.new [] }
{
    calls::sign(calls::run_command(state, Command::Move(device, event, icid)))
}

// §5.13: the LPI of an event and the pe of its collection.
#[unsafe(no_mangle)]
pub extern "C" fn rk_its_lookup(state: &[u8], device: u64, event: u64) -> i64
    ensures { Leaves (step (its_lookup device event) state.now []) result state.now [] }
{
    calls::tell(calls::look(state, device, event))
}

// §7.1: writes the saved bytes into the lent memory.
#[unsafe(no_mangle)]
pub extern "C" fn rk_its_save(state: &[u8], memory: &mut [u8]) -> i64
    ensures { Leaves (step its_save state.now memory.old) result state.now memory.new }
{
    calls::sign(calls::save(state, memory))
}

// §9.1: takes the mapping from the lent memory.
#[unsafe(no_mangle)]
pub extern "C" fn rk_its_restore(state: &mut [u8], memory: &[u8]) -> i64
    ensures { Leaves (step its_restore state.old memory.now) result state.new memory.now }
{
    calls::sign(calls::restore(state, memory))
}

// §13.1: names the first fault of the tables in the lent memory, or says that they describe a mapping.
#[unsafe(no_mangle)]
pub extern "C" fn rk_its_explain(state: &[u8], memory: &[u8]) -> i64
    ensures { Leaves (step its_explain state.now memory.now) result state.now memory.now }
{
    calls::tell(calls::explain(state, memory))
}

// §14.2: the length of an XICS in bytes.
#[unsafe(no_mangle)]
pub extern "C" fn rk_xics_len() -> i64
    ensures { Leaves (xics_step xics_len [] []) result [] [] }
{
    2064
}

// §14.4: makes an XICS without a source or a server of any bytes of the right length.
#[unsafe(no_mangle)]
pub extern "C" fn rk_xics_setup(xics: &mut [u8]) -> i64
    ensures { Leaves (xics_step xics_setup xics.old []) result xics.new [] }
{
    xics::set_up(xics)
}

// §14.7: registers a server.
#[unsafe(no_mangle)]
pub extern "C" fn rk_xics_add_server(xics: &mut [u8], server: u64) -> i64
    ensures { Leaves (xics_step (add_server server) xics.old []) result xics.new [] }
{
    xics::apply(xics, XicsChange::AddServer(server))
}

// §14.8: registers a source with a server.
#[unsafe(no_mangle)]
pub extern "C" fn rk_xics_add_source(xics: &mut [u8], source: u64, server: u64) -> i64
    ensures { Leaves (xics_step (add_source source server) xics.old []) result xics.new [] }
{
    xics::apply(xics, XicsChange::AddSource(source, server))
}

// §14.9: sets a source's word.
#[unsafe(no_mangle)]
pub extern "C" fn rk_xics_set_source(xics: &mut [u8], number: u64, value: &[u8]) -> i64
    ensures { Leaves (xics_step (set_source number) xics.old value.now) result xics.new value.now }
{
    let width = value.len() as u64;
    let word = calls::value_of(value);
    xics::apply(xics, XicsChange::SetSource(number, width, word))
}

// §14.10: sets a server's word.
#[unsafe(no_mangle)]
pub extern "C" fn rk_xics_set_server(xics: &mut [u8], number: u64, value: &[u8]) -> i64
    ensures { Leaves (xics_step (set_server number) xics.old value.now) result xics.new value.now }
{
    let width = value.len() as u64;
    let word = calls::value_of(value);
    xics::apply(xics, XicsChange::SetServer(number, width, word))
}

// §14.11: reads a source's word into the value.
#[unsafe(no_mangle)]
pub extern "C" fn rk_xics_get_source(xics: &[u8], number: u64, value: &mut [u8]) -> i64
    ensures { Leaves (xics_step (get_source number) xics.now value.old) result xics.now value.new }
{
    let width = value.len() as u64;
    let r = xics::ask_word(xics, Table::Sources, number, width);
    calls::sign(calls::give(value, r))
}

// §14.11: reads a server's word into the value.
#[unsafe(no_mangle)]
pub extern "C" fn rk_xics_get_server(xics: &[u8], number: u64, value: &mut [u8]) -> i64
    ensures { Leaves (xics_step (get_server number) xics.now value.old) result xics.now value.new }
{
    let width = value.len() as u64;
    let r = xics::ask_word(xics, Table::Servers, number, width);
    calls::sign(calls::give(value, r))
}

// §14.11: whether a source is deliverable.
#[unsafe(no_mangle)]
pub extern "C" fn rk_xics_deliverable(xics: &[u8], source: u64) -> i64
    ensures { Leaves (xics_step (deliverable source) xics.now []) result xics.now [] }
{
    calls::tell(xics::ask_delivery(xics, source))
}
