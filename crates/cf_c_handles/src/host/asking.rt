//! What C reads of a host's requests.
ghost use Rattle.std.specs.Prelude.{◌≡◌};
ghost use Rattle.cf_c_handles.specs.HostViews.{AreRows, OfHostPart, TellsPartStage, TellsView, WritesPut, WritesPutOf, as_fault, as_view};
ghost use Rattle.cf_c_handles.specs.Hosts.{OfHost};

use crate::code::Code;
use crate::handle::object::Object;
use crate::host::calling::of_host;
use crate::ledger::asking::stage_now;
use crate::values::host::CfHostView;
use crate::values::host::order::fault_number;
use crate::values::host::rows::{CfHostWant, as_want};
use crate::values::stage::CfStage;
use cf_host::Host;
use cf_notes::Want;
use cf_part::{Fault, Part};
use cf_row::Entry;

/// What a stage of a request is, by what the host has seen.
pub fn stage(held: &mut Object, request: u64, stage: u16) -> Result<CfStage, Code>
    ensures { OfHost (OfHostPart (TellsPartStage stage) request) held.old result held.new }
{
    of_host!(held, host => stage_in(host, request, stage))
}

fn stage_in(host: &Host, request: u64, stage: u16) -> Result<CfStage, Code>
    ensures { OfHostPart (TellsPartStage stage) request host.now result host.now }
{
    match host.part(request) {
        None => Err(Code::NotOpen),
        Some(part) => stage_now(part.view().ledger(), stage),
    }
}

/// How much the host has seen of a request.
pub fn view(held: &mut Object, request: u64) -> Result<CfHostView, Code>
    ensures { OfHost (OfHostPart TellsView request) held.old result held.new }
{
    of_host!(held, host => view_in(host, request))
}

fn view_in(host: &Host, request: u64) -> Result<CfHostView, Code>
    ensures { OfHostPart TellsView request host.now result host.now }
{
    match host.part(request) {
        None => Err(Code::NotOpen),
        Some(part) => Ok(as_view(part)),
    }
}

fn as_view(part: &Part) -> CfHostView
    ensures { result ≡ as_view part.now }
{
    let view = part.view();
    CfHostView {
        words: view.seen().len(),
        stages: view.ledger().stages(),
        fault: as_fault(part.fault()),
    }
}

/// The number of the reason for which nothing goes on in a request, or 0.
fn as_fault(fault: Option<Fault>) -> u32
    ensures { result ≡ as_fault fault }
{
    match fault {
        None => 0,
        Some(fault) => fault_number(fault),
    }
}

/// Tells the entries of a request's put, as far as the buffer reaches, and how many they are.
pub fn put(
    held: &mut Object,
    request: u64,
    rows: &mut [CfHostWant],
    n: &mut usize,
) -> Result<(), Code>
    ensures { WritesPut request held.old (rows.old, n.old) result held.new (rows.new, n.new) }
{
    of_host!(held, host => put_in(host, request, rows, n))
}

fn put_in(host: &Host, request: u64, rows: &mut [CfHostWant], n: &mut usize) -> Result<(), Code>
    ensures { WritesPutOf request host.now (rows.old, n.old) result (rows.new, n.new) }
{
    match host.part(request) {
        None => Err(Code::NotOpen),
        Some(part) => {
            *n = write_put(part.put(), part.wants_of_put(), rows);
            Ok(())
        }
    }
}

/// Writes the entries of a put as far as a buffer reaches, and tells how many they are.
fn write_put(put: &[Entry], wants: &[Want], rows: &mut [CfHostWant]) -> usize
    ensures { AreRows put.now wants.now rows.old rows.new result }
{
    let count = put.len().min(wants.len());
    'each: for k in 0..count.min(rows.len()) {
        rows[k] = as_want(put[k], wants[k]);
    }
    count
}
