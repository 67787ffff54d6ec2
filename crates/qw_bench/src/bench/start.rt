//! What a bench begins with: the memory of tables, and the seats of its instances.

ghost use Rattle.std.specs.Prelude.{◌≡◌, ◌+◌, ◌*◌, ◌<◌, ◌≤◌, ◌^◌, ℕ, List, None, length, map, IfOk};
ghost use Rattle.std.specs.List.{AllByRecursion};
ghost use Rattle.qw_types.specs.Contents.{AreLoaded};
ghost use Rattle.qw_linear.specs.Memory.{AreOctets, page, SameBelow};
ghost use Rattle.qw_map.specs.Columns.{Holds, column_pages, map_of};
ghost use Rattle.qw_module.specs.Start.{begun};
ghost use Rattle.qw_module.specs.Validity.{IsDescending, IsShaped};
ghost use Rattle.qw_bench.specs.Bench.{ArePlaced, IsColumnIn, Program};
ghost use Rattle.qw_bench.specs.Standing.{AreLimits, total_pages};
ghost use Rattle.qw_bench.specs.Inner.FirstSeats.{AreFirstSeats, AreInMap, Begins, IsAddressable, IsFirstSeat};

use crate::bench::{Ended, Grant, Job, Limits, MAX_JOBS, Seat};
use crate::first_page::begin_page;
use qw_columns::{ColumnMap, PlaceFault, place};
use qw_csv::Loaded;
use qw_linear::linear::{Linear, MAX_PAGES, PAGE};
use qw_machine::machine::{Instance, InstanceFault};
use qw_machine::stepped::Stepped;
use qw_map::layout::{Placed, Used};
use qw_types::NoMemory;
use qw_types::schema::MAX_TABLES;
use qw_valid::valid::ValidModule;
use std::alloc::Global;

/// The seats of jobs under limits, over tables whose columns are placed in an empty memory, which may grow to the pages of all.
///
/// # Errors
///
/// [`NoMemory`] where that does not fit memory.
pub(super) fn seats_over_tables(
    alloc: Global,
    loaded: Vec<Loaded>,
    jobs: Vec<Job>,
    limits: &[Limits],
    memory: &mut Linear,
) -> Result<Vec<Seat>, NoMemory>
    requires tables { length loaded.items ≤ MAX_TABLES }
    requires jobs { length jobs.items ≤ MAX_JOBS }
    requires many { length limits.now ≡ length jobs.items }
    requires limits { AllByRecursion AreLimits limits.now }
    requires columns { AllByRecursion (λ (program : Program). AllByRecursion (IsColumnIn loaded.items) program.layout.columns) jobs.items }
    requires empty { length memory.old.octets ≡ 0 }
    requires pages { (memory.old.reserved ≡ total_pages loaded.items limits.now) × (memory.old.reserved ≤ MAX_PAGES) }
    ensures begins { IfOk result (λ seats. Begins loaded.items jobs.items limits.now memory.new seats.items) }
    ensures reserved { memory.new.reserved ≡ memory.old.reserved }
{
    let map = place_all(alloc, loaded, memory)?;
    let seats = first_seats(alloc, jobs, limits, &map, memory)?;
    Ok(seats)
}

/// Places the columns of tables in an empty memory, which may grow to their pages. Answers where they stand.
///
/// # Errors
///
/// [`NoMemory`] where that does not fit memory.
fn place_all(alloc: Global, loaded: Vec<Loaded>, memory: &mut Linear) -> Result<ColumnMap, NoMemory>
    requires tables { length loaded.items ≤ MAX_TABLES }
    requires empty { length memory.old.octets ≡ 0 }
    requires room { column_pages loaded.items ≤ memory.old.reserved }
    ensures placed { IfOk result (λ map. map.placed ≡ map_of loaded.items) }
    ensures loaded { IfOk result (λ map. AllByRecursion AreLoaded loaded.items) }
    ensures holds { IfOk result (λ map. Holds (map_of loaded.items) memory.new.octets loaded.items) }
    ensures octets { IfOk result (λ map. AreOctets memory.new.octets) }
    ensures len { IfOk result (λ map. length memory.new.octets ≡ column_pages loaded.items * page) }
    ensures reserved { memory.new.reserved ≡ memory.old.reserved }
{
    match place(alloc, loaded, memory) {
        Ok(map) => Ok(map),
        Err(PlaceFault::NoMemory) => Err(NoMemory),
        Err(PlaceFault::TooManyPages { .. }) => unreachable!(),
    }
}

/// The seats of jobs under limits, in order. Their first pages are those behind the memory's, in order.
///
/// # Errors
///
/// [`NoMemory`] where they do not fit memory.
fn first_seats(
    alloc: Global,
    jobs: Vec<Job>,
    limits: &[Limits],
    map: &ColumnMap,
    memory: &mut Linear,
) -> Result<Vec<Seat>, NoMemory>
    requires jobs { length jobs.items ≤ MAX_JOBS }
    requires many { length limits.now ≡ length jobs.items }
    requires limits { AllByRecursion AreLimits limits.now }
    requires columns { AllByRecursion (λ (program : Program). AreInMap map.now.placed program.layout.columns) jobs.items }
    requires addresses { IsAddressable map.now.placed }
    requires room { length memory.old.octets + length jobs.items * page ≤ memory.old.reserved * page }
    ensures seats { IfOk result (λ seats. AreFirstSeats map.now.placed memory.new.octets (length memory.old.octets) jobs.items limits.now seats.items) }
    ensures below { IfOk result (λ seats. SameBelow memory.old.octets memory.new.octets (length memory.old.octets)) }
    ensures octets { IfOk result (λ seats. AreOctets memory.old.octets → AreOctets memory.new.octets) }
    ensures len { IfOk result (λ seats. length memory.new.octets ≡ length memory.old.octets + length jobs.items * page) }
    ensures reserved { memory.new.reserved ≡ memory.old.reserved }
{
    let mut seats = Vec::with_capacity(alloc, jobs.len())?;
    for job in jobs {
        let one = limits[seats.len()];
        seats.push(first_seat(alloc, job, one, map, memory)?)?;
    }
    Ok(seats)
}

/// The seat of a job as it begins. Its first page is the one behind the memory's.
///
/// # Errors
///
/// [`NoMemory`] where it does not fit memory.
fn first_seat(
    alloc: Global,
    job: Job,
    limits: Limits,
    map: &ColumnMap,
    memory: &mut Linear,
) -> Result<Seat, NoMemory>
    requires columns { AreInMap map.now.placed job.layout.columns }
    requires addresses { IsAddressable map.now.placed }
    requires pages { 1 ≤ limits.pages }
    requires room { length memory.old.octets + page ≤ memory.old.reserved * page }
    ensures seat { IfOk result (λ seat. IsFirstSeat map.now.placed memory.new.octets (length memory.old.octets) job limits seat) }
    ensures below { IfOk result (λ seat. SameBelow memory.old.octets memory.new.octets (length memory.old.octets)) }
    ensures octets { IfOk result (λ seat. AreOctets memory.old.octets → AreOctets memory.new.octets) }
    ensures len { IfOk result (λ seat. length memory.new.octets ≡ length memory.old.octets + page) }
    ensures reserved { memory.new.reserved ≡ memory.old.reserved }
{
    let Job { valid, layout } = job;
    let placed = placed_columns(alloc, layout.columns(), map)?;
    let descriptor = PAGE as u32 * memory.size();
    memory.grow(1).unwrap();
    begin_page(memory, descriptor, &layout, placed.as_slice());
    let instance = first_instance(alloc, valid, descriptor)?;
    let ended = match instance.last() {
        Stepped::Returned => Some(Ended::Done),
        _ => None,
    };
    let granted: Vec<Grant> = Vec::with_capacity(alloc, limits.pages as usize)?;
    Ok(Seat {
        instance,
        layout,
        placed,
        descriptor: u64::from(descriptor),
        limits,
        granted,
        held: 1,
        refused: None,
        ran: 0,
        ended,
        released: false,
    })
}

/// Where the columns of a layout stand.
///
/// # Errors
///
/// [`NoMemory`] where that does not fit memory.
fn placed_columns(alloc: Global, columns: &[Used], map: &ColumnMap) -> Result<Vec<Placed>, NoMemory>
    requires { AreInMap map.now.placed columns.now }
    ensures { IfOk result (λ placed. ArePlaced map.now.placed columns.now placed.items) }
{
    let mut placed = Vec::with_capacity(alloc, columns.len())?;
    for used in columns {
        placed.push(map.placed(used.table, used.column))?;
    }
    Ok(placed)
}

/// An instance of a module of the shape that is executed, whose functions call downwards only. Its `run` has the address
/// of its descriptor as its argument.
///
/// # Errors
///
/// [`NoMemory`] where it does not fit memory.
fn first_instance(alloc: Global, valid: ValidModule, descriptor: u32) -> Result<Instance, NoMemory>
    requires shaped { (number : ℕ) × IsShaped valid number }
    requires descends { IsDescending valid }
    ensures { (number : ℕ) → IsShaped valid number
        → IfOk result (λ instance. instance ≡ record { program = valid; state = begun valid number descriptor; asked = None }) }
{
    match Instance::new(alloc, valid, descriptor) {
        Ok(instance) => Ok(instance),
        Err(InstanceFault::NoMemory) => Err(NoMemory),
        Err(InstanceFault::NotShaped) => unreachable!(),
        Err(InstanceFault::NotDescending { .. }) => unreachable!(),
    }
}
