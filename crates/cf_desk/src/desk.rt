//! The desk, and how it is opened.
mod acting;
mod closing;
mod noticing;
mod reading;
mod steps;

ghost use Rattle.std.specs.Prelude.{◌≡◌, ◌≢◌, ◌<◌, ◌≤◌, ◌+◌, ◌↔◌, All, IfErr, IfOk, IsTrue, MatchOption, OnOk, [], length, true, vec_capacity, vec_len};
ghost use Rattle.cf_forms.specs.Plans.{function_at, has_place};
ghost use Rattle.cf_model.specs.States.{start};
ghost use Rattle.cf_desk.specs.declared.faults.OpenFault.TheVariants.{NoMemory};
ghost use Rattle.cf_desk.specs.Faults.{AreCounts, IsDueToGrow, IsDueToOpen, MayGrow};
ghost use Rattle.cf_desk.specs.Openings.{IsOpened, IsRowOf, StandsForAll, StandsFrom, fixed_setting, growing_setting, pass_at, passes_at, setting_of};
ghost use Rattle.cf_desk.specs.Rule.{first};
ghost use Rattle.cf_desk.specs.Views.{IsAt, IsOf};

use crate::calls::{Kept, Rec};
use crate::faults::OpenFault;
use crate::functions::function_bound;
use crate::opened::OpenedPlan;
use crate::pass::Pass;
use crate::row::{DeskConfig, GivesFirst, LogConfig, RowRule, SeatView};
use crate::sizes::{DeskGrowth, DeskSizes};
use atomic_table::{Seat, Table};
use cf_core::Graph;
use cf_model::{Ask, Event, Told};
use cf_plan::Plan;
use std::alloc::{AllocError, Global};
use std::marker::Model;

type Row = Table<u8, SeatView, LogConfig, RowRule, Global>;

/// A graph that callers share. It may be lent to any number of threads.
#[derive(Drop)]
pub struct Desk {
    table: Row,
    terms: LogConfig,
    history: Vec<Event>,
    kept: Vec<Kept>,
}

impl Model for Desk {
    ghost use Rattle.cf_desk.specs.Views.{Desk};

    ghost Value = { Desk };

    ghost view = { λ d. record { table = d.table.shared.table_id; setting = d.terms.setting; words = d.terms.words } };

    ghost use Rattle.cf_desk.specs.Desks.{DeskKept};

    ghost invariant = { DeskKept };
}

impl Desk {
    /// Opens a desk of this plan, for callers 0, 1, .. It answers the desk and their passes, in the callers' order. No
    /// stage can be attached to it, and it has as many functions as the plan names.
    pub fn open(alloc: Global, plan: Plan, sizes: DeskSizes) -> Result<(Desk, Vec<Pass>), OpenFault>
        ensures opened { IfOk result (λ r. IsOpened (fixed_setting plan sizes) sizes r.0 r.1.items) }
        ensures passes { IfOk result (λ r. All (IsOf r.0) r.1.items × (vec_len r.1 ≡ sizes.callers)) }
        ensures table { IfOk result (λ r. All (IsAt r.0) r.1.items × (r.0.table.words ≡ sizes.log)) }
        ensures counts { IfOk result (λ r. AreCounts sizes) }
        ensures fault { IfErr result (IsDueToOpen sizes) }
    {
        Desk::open_of(alloc, &plan, sizes)
    }

    /// The same as `open`, of a plan that stays where it is.
    pub fn open_of(
        alloc: Global,
        plan: &Plan,
        sizes: DeskSizes,
    ) -> Result<(Desk, Vec<Pass>), OpenFault>
        ensures opened { IfOk result (λ r. IsOpened (fixed_setting plan.now sizes) sizes r.0 r.1.items) }
        ensures passes { IfOk result (λ r. All (IsOf r.0) r.1.items × (vec_len r.1 ≡ sizes.callers)) }
        ensures table { IfOk result (λ r. All (IsAt r.0) r.1.items × (r.0.table.words ≡ sizes.log)) }
        ensures counts { IfOk result (λ r. AreCounts sizes) }
        ensures fault { IfErr result (IsDueToOpen sizes) }
    {
        if let Some(fault) = count_fault(sizes) {
            return Err(fault);
        }
        let fixed = DeskGrowth {
            room: 0,
            functions: function_bound(plan),
        };
        Ok(open_with(alloc, plan, sizes, fixed)?)
    }

    /// The same as `open`, of a desk to which callers may attach stages. It takes all the memory that attaching will ever
    /// need.
    pub fn open_growing(
        alloc: Global,
        plan: Plan,
        sizes: DeskSizes,
        growth: DeskGrowth,
    ) -> Result<(Desk, Vec<Pass>), OpenFault>
        ensures opened { IfOk result (λ r. IsOpened (growing_setting plan sizes growth) sizes r.0 r.1.items) }
        ensures passes { IfOk result (λ r. All (IsOf r.0) r.1.items × (vec_len r.1 ≡ sizes.callers)) }
        ensures table { IfOk result (λ r. All (IsAt r.0) r.1.items × (r.0.table.words ≡ sizes.log)) }
        ensures counts { IfOk result (λ r. AreCounts sizes × MayGrow plan.stages growth) }
        ensures fault { IfErr result (IsDueToGrow plan.stages sizes growth) }
    {
        Desk::open_growing_of(alloc, &plan, sizes, growth)
    }

    /// The same as `open_growing`, of a plan that stays where it is.
    pub fn open_growing_of(
        alloc: Global,
        plan: &Plan,
        sizes: DeskSizes,
        growth: DeskGrowth,
    ) -> Result<(Desk, Vec<Pass>), OpenFault>
        ensures opened { IfOk result (λ r. IsOpened (growing_setting plan.now sizes growth) sizes r.0 r.1.items) }
        ensures passes { IfOk result (λ r. All (IsOf r.0) r.1.items × (vec_len r.1 ≡ sizes.callers)) }
        ensures table { IfOk result (λ r. All (IsAt r.0) r.1.items × (r.0.table.words ≡ sizes.log)) }
        ensures counts { IfOk result (λ r. AreCounts sizes × MayGrow plan.now.stages growth) }
        ensures fault { IfErr result (IsDueToGrow plan.now.stages sizes growth) }
    {
        if let Some(fault) = count_fault(sizes) {
            return Err(fault);
        }
        if !plan.has_place(growth.room) {
            return Err(OpenFault::Room);
        }
        if growth.functions < function_bound(plan) {
            return Err(OpenFault::Functions);
        }
        Ok(open_with(alloc, plan, sizes, growth)?)
    }

    /// Whether the plan that it was opened with has such a stage.
    pub fn has(&self, i: u16) -> bool
        ensures { IsTrue result ↔ (i < length self.now.setting.plan.stages) }
    {
        i < self.terms.setting.plan.stages()
    }

    /// The number of a stage's function, if it has one, in the plan that it was opened with.
    pub fn function(&self, i: u16) -> Option<u16>
        requires { i < length self.now.setting.plan.stages }
        ensures { result ≡ function_at self.now.setting.plan.stages i }
    {
        self.terms.setting.plan.function(i)
    }

    /// How many words the log has, filled or empty.
    pub fn words(&self) -> u16
        ensures { (result ≡ self.now.words) × (result ≡ self.now.table.words) × (0 < result) }
    {
        self.terms.words
    }

    /// How many functions there are: a stage that is attached has one of a lower number.
    pub fn functions(&self) -> u32
        ensures { result ≡ self.now.setting.functions }
    {
        self.terms.setting.functions
    }

    /// How many callers there are.
    pub fn callers(&self) -> u8
        ensures { result ≡ self.now.setting.callers }
    {
        self.terms.setting.callers
    }
}

/// Which of the sizes is wrong, if one is.
fn count_fault(sizes: DeskSizes) -> Option<OpenFault>
    ensures { MatchOption result (AreCounts sizes) (λ fault. IsDueToOpen sizes fault × (fault ≢ NoMemory)) }
{
    if sizes.callers == 0 || sizes.callers > 64 {
        return Some(OpenFault::Callers);
    }
    if sizes.log == 0 {
        return Some(OpenFault::Log);
    }
    if sizes.calls == 0 {
        return Some(OpenFault::Calls);
    }
    None
}

/// What a place for a record holds before any call.
const NO_RECORD: Rec = Rec::Saw {
    place: 0,
    ask: Ask::Outcome(0),
    told: Told::Outcome(None),
};

/// How many records a page of memory holds at most.
const PAGE: u16 = 85;

/// An empty list with room for so many records. Where that is more than a page, each page is touched here, so that page
/// faults come at the opening, and not in the middle of calls, by all threads at the same time.
fn no_records(alloc: Global, calls: u16) -> Result<Vec<Rec>, AllocError>
    ensures items { IfOk result (λ records. records.items ≡ []) }
    ensures capacity { IfOk result (λ records. calls ≤ vec_capacity records) }
{
    if calls <= PAGE {
        return Vec::with_capacity(alloc, calls as usize);
    }
    let mut records = vec![in alloc; NO_RECORD; calls as usize]?;
    records.clear();
    Ok(records)
}

/// What a desk is opened with: its plan, its sizes, and how far it may grow.
#[derive(Clone, Copy, Drop)]
struct Opening<'a> {
    alloc: Global,
    plan: &'a Plan,
    sizes: DeskSizes,
    growth: DeskGrowth,
}

/// Empty words, from which the rows of small desks are copied.
static EMPTY: [u64; 128] = [0; 128];

/// A row of as many empty words as it is told, and the seat that stands for all passes.
fn empty_row(alloc: Global, terms: &LogConfig) -> Result<(Row, Seat<u8, SeatView>), AllocError>
    ensures key { IfOk result (λ r. r.0.shared.key ≡ terms.now) }
    ensures row { IfOk result (λ r. IsRowOf terms.now.words r.0.shared.table_id) }
    ensures seat { IfOk result (λ r. (r.1.table_id ≡ r.0.shared.table_id) × (r.1.me ≡ (first terms.now, []))) }
{
    let words = terms.words as usize;
    if words <= EMPTY.len() {
        return Table::of_words(alloc, &EMPTY[..words], terms);
    }
    let zeros = vec![in alloc; 0u64; words]?;
    Table::of_words(alloc, zeros.as_slice(), terms)
}

/// A row of empty words, the seat that stands for all passes, and what the row was told.
fn new_row(opening: &Opening<'_>) -> Result<(Row, Seat<u8, SeatView>, LogConfig), AllocError>
    ensures terms { IfOk result (λ r. (r.2.setting ≡ setting_of opening.now) × (r.2.words ≡ opening.now.sizes.log)) }
    ensures key { IfOk result (λ r. r.0.shared.key ≡ r.2) }
    ensures row { IfOk result (λ r. IsRowOf opening.now.sizes.log r.0.shared.table_id) }
    ensures seat { IfOk result (λ r. (r.1.table_id ≡ r.0.shared.table_id) × StandsForAll opening.now r.1.me) }
{
    let terms = LogConfig {
        setting: DeskConfig {
            plan: OpenedPlan::new(opening.plan, opening.growth.room)?,
            callers: opening.sizes.callers,
            functions: opening.growth.functions,
        },
        words: opening.sizes.log,
    };
    match empty_row(opening.alloc, &terms) {
        Ok((row, seat)) => Ok((row, seat, terms)),
        Err(refused) => {
            drop(terms);
            Err(refused)
        }
    }
}

/// The pass of a caller who hasn't one yet, nor has any after it, split from the seat that stands for them.
fn new_pass(
    opening: &Opening<'_>,
    row: &Row,
    seat: &mut Seat<u8, SeatView>,
    caller: u8,
) -> Result<Pass, AllocError>
    requires place { has_place opening.now.plan.now.stages opening.now.growth.room ≡ true }
    requires callers { (caller < opening.now.sizes.callers) × (opening.now.sizes.callers ≤ 64) }
    requires row { (seat.old.table_id ≡ row.now.shared.table_id) × (0 < row.now.shared.table_id.words) }
    requires seat { StandsFrom caller opening.now seat.old.me }
    ensures pass { IfOk result (λ pass. pass ≡ pass_at opening.now row.now.shared.table_id caller) }
    ensures table { OnOk result (seat.new.table_id ≡ seat.old.table_id) }
    ensures seat { OnOk result (StandsFrom (caller + 1) opening.now seat.new.me) }
{
    let records = no_records(opening.alloc, opening.sizes.calls)?;
    let replica = Graph::growing_of(opening.alloc, opening.plan, opening.growth.room)?;
    Ok(Pass {
        seat: row.shared.split_seat::<GivesFirst>(seat),
        caller,
        count: 0,
        functions: opening.growth.functions,
        replica,
        records,
        calls: opening.sizes.calls,
        padding: [0; 16],
    })
}

/// The passes of all callers, in order.
fn new_passes(
    opening: &Opening<'_>,
    row: &Row,
    seat: &mut Seat<u8, SeatView>,
) -> Result<Vec<Pass>, AllocError>
    requires place { has_place opening.now.plan.now.stages opening.now.growth.room ≡ true }
    requires callers { opening.now.sizes.callers ≤ 64 }
    requires row { (seat.old.table_id ≡ row.now.shared.table_id) × (0 < row.now.shared.table_id.words) }
    requires seat { StandsForAll opening.now seat.old.me }
    ensures { IfOk result (λ passes. passes.items ≡ passes_at opening.now row.now.shared.table_id) }
{
    let callers = opening.sizes.callers;
    let mut passes = Vec::with_capacity(opening.alloc, callers as usize)?;
    for caller in 0..callers {
        passes.push_reserved(new_pass(opening, row, seat, caller)?);
    }
    Ok(passes)
}

/// A desk with empty words, and its passes.
fn open_with(
    alloc: Global,
    plan: &Plan,
    sizes: DeskSizes,
    growth: DeskGrowth,
) -> Result<(Desk, Vec<Pass>), AllocError>
    requires counts { (0 < sizes.callers) × (sizes.callers ≤ 64) × (0 < sizes.log) }
    requires place { has_place plan.now.stages growth.room ≡ true }
    ensures words { IfOk result (λ r. r.0.table.words ≡ sizes.log) }
    ensures opened { IfOk result (λ r. IsOpened (growing_setting plan.now sizes growth) sizes r.0 r.1.items) }
{
    let opening = Opening {
        alloc,
        plan,
        sizes,
        growth,
    };
    let history = Vec::with_capacity(alloc, sizes.log as usize)?;
    let kept = Vec::with_capacity(alloc, sizes.callers as usize)?;
    let (table, mut seat, terms) = new_row(&opening)?;
    match new_passes(&opening, &table, &mut seat) {
        Ok(passes) => {
            let desk = Desk {
                table,
                terms,
                history,
                kept,
            };
            Ok((desk, passes))
        }
        Err(refused) => {
            drop(terms);
            Err(refused)
        }
    }
}
