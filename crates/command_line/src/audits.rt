//! Audits of streams of frames.

ghost use Rattle.std.specs.Prelude.{◌≡◌, map, IfOk, IfErr};
ghost use Rattle.ft_types.specs.Devices.{Writes};
ghost use Rattle.guest_image.specs.Image.{guest_of};
ghost use Rattle.log_streams.specs.Streams.{OfStreams};
ghost use Rattle.log_streams.specs.Outcome.{ArePlannedTo};
ghost use Rattle.log_streams.specs.Writing.{WritesOne};
ghost use Rattle.log_streams.specs.declared.faults.StreamsFault.TheVariants.{Write};
ghost use Rattle.command_line.specs.declared.faults.CommandFault.TheVariants.{Streams, Memory as NoMemory};
ghost use Rattle.command_line.specs.Audits.{IsAuditedOf, IsAuditFault, IsAudited, IsAuditCause, IsAuditCauseIn, SaysYes, audit_text};

use crate::faults::{CommandFault, written};
use closed_cut::position;
use ft_types::{Failed, Sink, Source, write_all};
use guest_image::{Image, Machine};
use hart_replay::{Plan, plan};
use log_audit::audit;
use log_join::Store;
use log_streams::read_store;
use std::alloc::Global;

/// The plan of a store: it lacks nothing but memory.
pub fn planned(alloc: Global, store: &Store) -> Result<Plan, CommandFault>
    ensures guest { IfOk result (λ plan. plan.guest ≡ store.now.guest) }
    ensures planned { IfOk result (λ plan. ArePlannedTo store.now plan.legs) }
    ensures fault { IfErr result (λ fault. fault ≡ NoMemory) }
{
    let position = position(alloc, store)?;
    match plan(alloc, store, &position) {
        Ok(plan) => Ok(plan),
        Err(_) => Err(CommandFault::Memory),
    }
}

/// The machine to which the plan of a store leads by every schedule.
fn audit_store(alloc: Global, image: &Image, store: &Store) -> Result<Machine, CommandFault>
    requires { store.now.guest ≡ guest_of image.now }
    ensures ok { IfOk result (λ m. IsAuditedOf image.now store.now m) }
    ensures fault { IfErr result (λ f. IsAuditFault image.now store.now f) }
{
    let plan = planned(alloc, store)?;
    let machine = audit(alloc, image, &plan)?;
    Ok(machine)
}

/// Says yes, and writes the text of the machine.
fn write_yes<W: Sink>(machine: &Machine, out: &mut W) -> Result<(), Failed>
    ensures { Writes result (W.bytes out.old) (W.bytes out.new) (W.failures out.old) (W.failures out.new) (audit_text machine.now) }
{
    write_all(out, b"audit yes\n")?;
    machine.write_text(out)
}

/// Tells whether the plan of a store leads to one machine by every schedule, and writes its text.
fn write_audited<W: Sink>(
    alloc: Global,
    image: &Image,
    store: &Store,
    out: &mut W,
) -> Result<(), CommandFault>
    requires { store.now.guest ≡ guest_of image.now }
    ensures written { WritesOne (Streams Write) (SaysYes (IsAuditedOf image.now store.now)) result (W.bytes out.old) (W.bytes out.new) (W.failures out.old) (W.failures out.new) }
    ensures fault { IfErr result (λ f. IsAuditCauseIn image.now store.now f) }
{
    match audit_store(alloc, image, store) {
        Ok(machine) => written(write_yes(&machine, out)),
        Err(fault) => Err(fault),
    }
}

/// Tells whether the frames of the streams lead to one machine by every schedule, and writes its text.
pub fn audit_streams<R: Source, W: Sink>(
    alloc: Global,
    image: &Image,
    readers: &mut [R],
    out: &mut W,
) -> Result<(), CommandFault>
    // Nothing is written before the audit is done, and then `audit yes` and the text of the machine to which every schedule of the
    // streams' frames leads.
    ensures written { OfStreams (map R.left readers.old) (λ streams.
        WritesOne (Streams Write) (SaysYes (IsAudited image.now streams)) result (W.bytes out.old) (W.bytes out.new) (W.failures out.old) (W.failures out.new)) }

    // A fault is the first one of the streams, two steps that nothing orders, or where the plan of their frames has no end.
    ensures fault { IfErr result (λ f. OfStreams (map R.left readers.old) (λ streams. IsAuditCause image.now streams f)) }
{
    let store = read_store(alloc, &image.guest(), readers)?;
    write_audited(alloc, image, &store, out)
}
